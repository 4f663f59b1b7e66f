//! Pointwise maps over arrays (de Moura and Bjørner 2009).

ghost use Rattle.std.specs.Prelude.{◌≡◌, ◌==◌, length, map, None, Some, Ok, IfOk};
ghost use Rattle.smtlib_terms.specs.Answers.{Answers};
ghost use Rattle.smtlib_terms.specs.Applying.{are_over, arrays_of, connective_of, function_pointwise, is_over, mapped_over, negation_pointwise, plain_of};
ghost use Rattle.operator_arguments.specs.Measured.{Means, meaning_of, meanings_of};
ghost use Rattle.array_operators.specs.Maps.{first_index, mapped_at, mapped_by, pointwise_of};

use crate::applications::are_as_many;
use crate::arrays::unbound;
use mbqi_terms::{Function, MapOp, Plain, Sort, Sorts, copy_sorts};
use mbqi_values::{FaultKind, ReadError, Sequence};
use measured_terms::{MeasuredArray, MeasuredArrays};
use operator_arguments::{Meanings, MeasuredMeaning, Queue, is_plain, is_sort, plain_sort};
use smtlib_terms::refused;
use std::alloc::{AllocError, Global};

/// The function of a pointwise map: the sorts of its arguments, and of its result.
#[derive(Drop)]
pub struct Pointwise {
    pub op: MapOp,
    pub places: Sorts,
    pub result: Plain,
}

/// The sort of a plain result; a function with arguments has one.
fn plain_of(sort: Sort) -> Plain
    ensures { result ≡ plain_of sort }
{
    match sort {
        Sort::Truth => Plain::Truth,
        Sort::Int => Plain::Int,
        Sort::Elem(s) => Plain::Elem(s),
        Sort::Array(_, element) => element,
    }
}

/// `and` or `or` of as many formulas as there are arguments.
pub fn connective_map(
    alloc: Global,
    op: MapOp,
    args: &[MeasuredMeaning],
) -> Result<Pointwise, AllocError>
    ensures { IfOk result (λ p. pointwise_of p ≡ connective_of op (meanings_of args.now)) }
{
    let mut places = Sequence::new(alloc);
    for _m in args {
        places.push(Sort::Truth)?;
    }
    Ok(Pointwise {
        op,
        places,
        result: Plain::Truth,
    })
}

/// `not` of a formula.
pub fn negation_map(alloc: Global) -> Result<Pointwise, AllocError>
    ensures { IfOk result (λ p. pointwise_of p ≡ negation_pointwise) }
{
    let mut places = Sequence::new(alloc);
    places.push(Sort::Truth)?;
    Ok(Pointwise {
        op: MapOp::Not,
        places,
        result: Plain::Truth,
    })
}

/// A declared function with its number.
pub fn function_map(
    alloc: Global,
    number: usize,
    function: &Function,
) -> Result<Pointwise, AllocError>
    ensures { IfOk result (λ p. function_pointwise (Some (number, function.now)) ≡ Ok (pointwise_of p)) }
{
    Ok(Pointwise {
        op: MapOp::Declared(number),
        places: copy_sorts(alloc, function.args.as_slice())?,
        result: plain_of(function.result),
    })
}

/// Whether an argument is an array over this index sort, with elements of this sort.
fn is_over(index: Plain, sort: Sort, m: &MeasuredMeaning) -> bool
    ensures { result ≡ is_over index sort (meaning_of m.now) }
{
    match m {
        MeasuredMeaning::Array(i, e, _) => is_plain(index, *i) && is_sort(sort, plain_sort(*e)),
        MeasuredMeaning::Formula(_) | MeasuredMeaning::Term(_, _) => false,
    }
}

/// Whether arguments are arrays over one index sort, with elements of the sorts of the places.
#[tactic(auto, using(std::proofs::lemmas::Grind::common_steps))]
fn are_over(index: Plain, places: &[Sort], args: &[MeasuredMeaning]) -> bool
    ensures { result ≡ are_over index places.now (meanings_of args.now) }
{
    let mut places = places;
    let mut args = args;
    while let [sort, other_places @ ..] = places {
        let [m, others @ ..] = args else {
            return false;
        };
        if !is_over(index, *sort, m) {
            return false;
        }
        places = other_places;
        args = others;
    }
    match args {
        [] => true,
        [_, ..] => false,
    }
}

/// The array terms among the arguments.
#[tactic(auto, using(std::proofs::lemmas::Grind::common_steps))]
fn arrays_of(alloc: Global, args: Meanings) -> Result<MeasuredArrays, AllocError>
    ensures { IfOk result (λ arrays. arrays ≡ arrays_of (meanings_of args)) }
{
    let mut arrays = MeasuredArrays::new(alloc);
    let mut args = Queue::new(args);
    while let Some(m) = args.next() {
        if let MeasuredMeaning::Array(_, _, a) = m {
            arrays.push(a)?;
        }
    }
    Ok(arrays)
}

/// The sort of the index of the first argument, which must be an array.
fn first_index(args: &[MeasuredMeaning]) -> Result<Plain, ReadError>
    ensures { Answers result (first_index (meanings_of args.now)) }
{
    match args {
        [] => Err(refused(FaultKind::WrongCount)),
        [first, ..] => match first {
            MeasuredMeaning::Array(index, _, _) => Ok(*index),
            MeasuredMeaning::Formula(_) => Err(refused(FaultKind::WrongSort)),
            MeasuredMeaning::Term(_, _) => Err(refused(FaultKind::WrongSort)),
        },
    }
}

/// A pointwise map over arrays with indices of one sort.
fn mapped_at(
    alloc: Global,
    index: Plain,
    p: Pointwise,
    args: Meanings,
) -> Result<MeasuredMeaning, ReadError>
    ensures { Means meaning_of result (mapped_at index (pointwise_of p) (meanings_of args)) }
{
    let Pointwise { op, places, result } = p;
    if !are_over(index, places.as_slice(), args.as_slice()) {
        return Err(refused(FaultKind::WrongSort));
    }
    let arrays = arrays_of(alloc, args)?;
    unbound(index, result, MeasuredArray::map(op, arrays)?)
}

/// A pointwise map over as many arguments as its function takes.
#[tactic(auto, using(crate::proofs::MapLaws::over_first))]
fn mapped_over(alloc: Global, p: Pointwise, args: Meanings) -> Result<MeasuredMeaning, ReadError>
    ensures { Means meaning_of result (mapped_over (pointwise_of p) (meanings_of args)) }
{
    let index = first_index(args.as_slice())?;
    mapped_at(alloc, index, p, args)
}

/// `((_ map f) a ...)` with a function f. Refused: WrongCount where there is no array or not as many as f takes, WrongSort
/// where they aren't arrays over one index sort with elements of the sorts that f takes, BoundArray where a variable
/// stands in one.
pub fn mapped_by(alloc: Global, p: Pointwise, args: Meanings) -> Result<MeasuredMeaning, ReadError>
    ensures { Means meaning_of result (mapped_by (pointwise_of p) (meanings_of args)) }
{
    if !are_as_many(p.places.as_slice(), args.as_slice()) {
        return Err(refused(FaultKind::WrongCount));
    }
    mapped_over(alloc, p, args)
}
