//! Applications of declared functions.

ghost use Rattle.std.specs.Prelude.{◌≡◌, ◌==◌, length, Some, IfOk};
ghost use Rattle.smtlib_terms.specs.Applying.{application, function_applied, have_sorts, terms_of, application_of};
ghost use Rattle.mbqi_terms.specs.Sort.{plain_sort};
ghost use Rattle.smtlib_terms.specs.Answers.{Answers};
ghost use Rattle.operator_arguments.specs.Measured.{Means, meaning_of, meanings_of};

use crate::arrays::term_meant;
use mbqi_terms::{Function, Plain, Sort};
use mbqi_values::{FaultKind, ReadError};
use measured_terms::{MeasuredArray, MeasuredSymbol, MeasuredTerm, MeasuredTerms};
use operator_arguments::{Meanings, MeasuredMeaning, Queue, is_sort};
use smtlib_terms::refused;
use std::alloc::{AllocError, Global};

/// Whether the arguments have the sorts of the places.
#[tactic(auto, using(std::proofs::lemmas::Grind::common_steps))]
pub fn have_sorts(sorts: &[Sort], args: &[MeasuredMeaning]) -> bool
    ensures { result ≡ have_sorts sorts.now (meanings_of args.now) }
{
    let mut sorts = sorts;
    let mut args = args;
    while let [sort, other_sorts @ ..] = sorts {
        let [m, others @ ..] = args else {
            return false;
        };
        if !is_sort(*sort, m.sort()) {
            return false;
        }
        sorts = other_sorts;
        args = others;
    }
    match args {
        [] => true,
        [_, ..] => false,
    }
}

/// The arguments as terms. Refused: WrongSort where one is a formula or an array.
#[tactic(auto, using(std::proofs::lemmas::Grind::common_steps, smtlib_terms::proofs::Steps::behind_next))]
fn terms_of(alloc: Global, args: Meanings) -> Result<MeasuredTerms, ReadError>
    ensures { Answers result (terms_of (meanings_of args)) }
{
    let mut terms = MeasuredTerms::new(alloc);
    let mut args = Queue::new(args);
    while let Some(m) = args.next() {
        let MeasuredMeaning::Term(_, t) = m else {
            return Err(refused(FaultKind::WrongSort));
        };
        terms.push(t)?;
    }
    Ok(terms)
}

/// An application of the function of a number, whose result has a plain sort.
fn applied_to(
    number: usize,
    args: MeasuredTerms,
    sort: Plain,
) -> Result<MeasuredMeaning, AllocError>
    ensures { IfOk result (λ m. meaning_of m ≡ application number args (plain_sort sort)) }
{
    Ok(term_meant(
        sort,
        MeasuredTerm::apply(MeasuredSymbol::declared(number), args)?,
    ))
}

/// An application of the function of a number, by the sort of its result.
pub fn application(
    number: usize,
    args: MeasuredTerms,
    result_sort: Sort,
) -> Result<MeasuredMeaning, AllocError>
    ensures { IfOk result (λ m. meaning_of m ≡ application number args result_sort) }
{
    match result_sort {
        Sort::Array(index, element) => {
            Ok(MeasuredMeaning::Array(index, element, MeasuredArray::name(number)))
        }
        Sort::Truth => applied_to(number, args, Plain::Truth),
        Sort::Int => applied_to(number, args, Plain::Int),
        Sort::Elem(s) => applied_to(number, args, Plain::Elem(s)),
    }
}

/// An application over arguments that were read.
fn application_of(
    alloc: Global,
    number: usize,
    result_sort: Sort,
    args: Meanings,
) -> Result<MeasuredMeaning, ReadError>
    ensures { Means meaning_of result (application_of number result_sort (meanings_of args)) }
{
    let terms = terms_of(alloc, args)?;
    Ok(application(number, terms, result_sort)?)
}

/// Whether there are as many arguments as places.
pub fn are_as_many(sorts: &[Sort], args: &[MeasuredMeaning]) -> bool
    ensures { result ≡ (length (meanings_of args.now) == length sorts.now) }
{
    args.len() == sorts.len()
}

/// The declared function of a number, applied to arguments. Refused: WrongCount or WrongSort where they don't fit its places.
pub fn function_applied(
    alloc: Global,
    number: usize,
    function: &Function,
    args: Meanings,
) -> Result<MeasuredMeaning, ReadError>
    ensures { Means meaning_of result (function_applied (meanings_of args) (Some (number, function.now))) }
{
    if !are_as_many(function.args.as_slice(), args.as_slice()) {
        return Err(refused(FaultKind::WrongCount));
    }
    if !have_sorts(function.args.as_slice(), args.as_slice()) {
        return Err(refused(FaultKind::WrongSort));
    }
    application_of(alloc, number, function.result, args)
}
