//! The relations of SMT-LIB 2.6's theories Core and Ints: chains of them, and pairs.

ghost use Rattle.std.specs.Prelude.{◌≡◌, ◌++◌, map, IfOk, OnOk};
ghost use Rattle.std.specs.List.{list_any};
ghost use Rattle.smtlib_terms.specs.Answers.{Answers};
ghost use Rattle.smtlib_terms.specs.Operators.{at_least, below, chain, compared_by, equality, have_one_sort, have_sort, inequality, is_quantified_meaning, ordered_by, pairs};
ghost use Rattle.operator_arguments.specs.Measured.{meaning_of, meanings_of};
ghost use Rattle.formula_operators.specs.Steps.{order_of};

use crate::connectives::{all_of, unquantified};
use mbqi_terms::Sort;
use mbqi_values::{FaultKind, ReadError};
use measured_terms::{MeasuredFormula, MeasuredFormulas, MeasuredTerm};
use operator_arguments::{Meanings, MeasuredMeaning, are_at_least, as_integers, is_sort};
use smtlib_terms::refused;
use smtlib_terms::word::Word;
use std::alloc::{AllocError, Global};

/// `=` of two meanings of one sort.
fn equality(
    alloc: Global,
    m: &MeasuredMeaning,
    n: &MeasuredMeaning,
) -> Result<MeasuredFormula, AllocError>
    ensures { IfOk result (λ f. f ≡ equality (meaning_of m.now) (meaning_of n.now)) }
{
    match (m, n) {
        (MeasuredMeaning::Formula(f), MeasuredMeaning::Formula(g)) => {
            MeasuredFormula::iff(alloc, f.copy(alloc)?, g.copy(alloc)?)
        }
        (MeasuredMeaning::Term(_, s), MeasuredMeaning::Term(_, t)) => {
            MeasuredFormula::equal(s.copy(alloc)?, t.copy(alloc)?)
        }
        (MeasuredMeaning::Array(_, _, a), MeasuredMeaning::Array(_, _, b)) => {
            MeasuredFormula::same_array(a.copy(alloc)?, b.copy(alloc)?)
        }
        (
            MeasuredMeaning::Formula(_)
            | MeasuredMeaning::Term(_, _)
            | MeasuredMeaning::Array(_, _, _),
            _,
        ) => Ok(MeasuredFormula::truth(false)),
    }
}

/// `distinct` of two meanings of one sort.
fn inequality(
    alloc: Global,
    m: &MeasuredMeaning,
    n: &MeasuredMeaning,
) -> Result<MeasuredFormula, AllocError>
    ensures { IfOk result (λ f. f ≡ inequality (meaning_of m.now) (meaning_of n.now)) }
{
    MeasuredFormula::negation(alloc, equality(alloc, m, n)?)
}

/// `=` of each meaning and the next.
#[tactic(auto, using(std::proofs::lemmas::Grind::common_steps))]
fn equalities(alloc: Global, args: &[MeasuredMeaning]) -> Result<MeasuredFormulas, AllocError>
    ensures { IfOk result (λ fs. fs ≡ chain equality (meanings_of args.now)) }
{
    let mut parts = MeasuredFormulas::new(alloc);
    let [first, others @ ..] = args else {
        return Ok(parts);
    };
    let mut last = first;
    for next in others {
        parts.push(equality(alloc, last, next)?)?;
        last = next;
    }
    Ok(parts)
}

/// `distinct` of a meaning and each of the others, behind other formulas.
#[tactic(auto, using(std::proofs::lemmas::Grind::common_steps))]
fn differences(
    alloc: Global,
    m: &MeasuredMeaning,
    others: &[MeasuredMeaning],
    parts: &mut MeasuredFormulas,
) -> Result<(), AllocError>
    ensures { OnOk result (parts.new ≡ parts.old ++ map (inequality (meaning_of m.now)) (meanings_of others.now)) }
{
    for n in others {
        parts.push(inequality(alloc, m, n)?)?;
    }
    Ok(())
}

/// `distinct` of each meaning and each later one.
#[tactic(auto, using(std::proofs::lemmas::Grind::common_steps))]
fn inequalities(alloc: Global, args: &[MeasuredMeaning]) -> Result<MeasuredFormulas, AllocError>
    ensures { IfOk result (λ fs. fs ≡ pairs inequality (meanings_of args.now)) }
{
    let mut parts = MeasuredFormulas::new(alloc);
    let mut rest = args;
    while let [first, later @ ..] = rest {
        differences(alloc, first, later, &mut parts)?;
        rest = later;
    }
    Ok(parts)
}

/// Whether all meanings have this sort.
#[tactic(auto, using(std::proofs::lemmas::Grind::common_steps))]
fn have_sort(sort: Sort, args: &[MeasuredMeaning]) -> bool
    ensures { result ≡ have_sort sort (meanings_of args.now) }
{
    for m in args {
        if !is_sort(sort, m.sort()) {
            return false;
        }
    }
    true
}

/// Whether all meanings have the sort of the first.
fn have_one_sort(args: &[MeasuredMeaning]) -> bool
    ensures { result ≡ have_one_sort (meanings_of args.now) }
{
    match args {
        [] => true,
        [first, others @ ..] => have_sort(first.sort(), others),
    }
}

/// Whether one of the meanings is a formula with a quantifier.
#[tactic(auto, using(std::proofs::lemmas::Grind::common_steps))]
fn any_quantified(args: &[MeasuredMeaning]) -> bool
    ensures { result ≡ list_any is_quantified_meaning (meanings_of args.now) }
{
    for m in args {
        if m.is_quantified() {
            return true;
        }
    }
    false
}

/// `=` of at least two meanings of one sort, without quantifiers.
pub fn equal(alloc: Global, args: &[MeasuredMeaning]) -> Result<MeasuredFormula, ReadError>
    ensures { Answers result (at_least 2 (meanings_of args.now) (compared_by (chain equality) (meanings_of args.now))) }
{
    if !are_at_least(2, args) {
        return Err(refused(FaultKind::WrongCount));
    }
    if !have_one_sort(args) {
        return Err(refused(FaultKind::WrongSort));
    }
    let made = all_of(equalities(alloc, args)?)?;
    unquantified(any_quantified(args), made)
}

/// `distinct` of at least two meanings of one sort, without quantifiers.
pub fn distinct(alloc: Global, args: &[MeasuredMeaning]) -> Result<MeasuredFormula, ReadError>
    ensures { Answers result (at_least 2 (meanings_of args.now) (compared_by (pairs inequality) (meanings_of args.now))) }
{
    if !are_at_least(2, args) {
        return Err(refused(FaultKind::WrongCount));
    }
    if !have_one_sort(args) {
        return Err(refused(FaultKind::WrongSort));
    }
    let made = all_of(inequalities(alloc, args)?)?;
    unquantified(any_quantified(args), made)
}

/// `<` of two integers.
fn below(alloc: Global, s: MeasuredTerm, t: MeasuredTerm) -> Result<MeasuredFormula, AllocError>
    ensures { IfOk result (λ f. f ≡ below s t) }
{
    MeasuredFormula::negation(alloc, MeasuredFormula::at_most(t, s)?)
}

/// `<=`, `<`, `>=` or `>` of two integers.
fn ordered(
    alloc: Global,
    word: Word,
    s: &MeasuredTerm,
    t: &MeasuredTerm,
) -> Result<MeasuredFormula, AllocError>
    ensures { IfOk result (λ f. f ≡ order_of word s.now t.now) }
{
    let s = s.copy(alloc)?;
    let t = t.copy(alloc)?;
    match word {
        Word::AtLeast => MeasuredFormula::at_most(t, s),
        Word::Below => below(alloc, s, t),
        Word::Above => below(alloc, t, s),
        _ => MeasuredFormula::at_most(s, t),
    }
}

/// The relation of each integer and the next.
#[tactic(auto, using(std::proofs::lemmas::Grind::common_steps))]
fn order_chain(
    alloc: Global,
    word: Word,
    integers: &[MeasuredTerm],
) -> Result<MeasuredFormulas, AllocError>
    ensures { IfOk result (λ fs. fs ≡ chain (order_of word) integers.now) }
{
    let mut parts = MeasuredFormulas::new(alloc);
    let [first, others @ ..] = integers else {
        return Ok(parts);
    };
    let mut last = first;
    for next in others {
        parts.push(ordered(alloc, word, last, next)?)?;
        last = next;
    }
    Ok(parts)
}

/// `<=`, `<`, `>=` or `>` of at least two integers.
pub fn order(alloc: Global, word: Word, args: Meanings) -> Result<MeasuredFormula, ReadError>
    ensures { Answers result (at_least 2 (meanings_of args) (ordered_by (order_of word) (meanings_of args))) }
{
    if !are_at_least(2, args.as_slice()) {
        return Err(refused(FaultKind::WrongCount));
    }
    let integers = as_integers(alloc, args)?;
    Ok(all_of(order_chain(alloc, word, integers.as_slice())?)?)
}
