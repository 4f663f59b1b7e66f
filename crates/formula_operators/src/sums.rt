//! Sums and differences of integers, with at most one term that is no numeral (SMT-LIB 2.6, theory Ints; the limits
//! are this project's own).

ghost use Rattle.std.specs.Prelude.{◌≡◌, ◌∷◌, ◌+ℤ◌, ◌-ℤ◌, ◌-◌, ◌^◌, pos, map, IfOk, OnOk};
ghost use Rattle.smtlib_terms.specs.Answers.{Answers};
ghost use Rattle.smtlib_terms.specs.Number.{bases_of, difference, less, negation, plus_number, sum_of, summed, summed_beside, total_of, limit_of, term_of};
ghost use Rattle.smtlib_terms.specs.Operators.{addition, moved_by, subtracted, subtraction, is_wide_term};
ghost use Rattle.operator_arguments.specs.Measured.{Means, meaning_of, meanings_of, side_of};
ghost use Rattle.formula_operators.specs.Steps.{bases_with, is_difference, number_of};
ghost use Rattle.mbqi_terms.specs.Limits.{is_within};

use mbqi_terms::{Sort, Term};
use mbqi_values::{FaultKind, ReadError, Sequence};
use measured_terms::{MeasuredSum, MeasuredTerm};
use operator_arguments::{
    Meanings, MeasuredMeaning, MeasuredSide, Queue, are_at_least, as_integers,
};
use smtlib_terms::{refused, refused_unless_deep};
use std::alloc::{AllocError, Global};

/// The sum of two numbers. Those of terms are within 2^63, so that only a sum of 2^64 terms could be past the type's
/// end, and so many have no room in memory.
fn plus(a: i128, b: i128) -> Result<i128, AllocError>
    ensures { IfOk result (λ n. n ≡ a +ℤ b) }
{
    a.checked_add(b).ok_or(AllocError)
}

/// A number minus another, in the same way.
fn minus(a: i128, b: i128) -> Result<i128, AllocError>
    ensures { IfOk result (λ n. n ≡ a -ℤ b) }
{
    a.checked_sub(b).ok_or(AllocError)
}

/// Whether the number is absolutely at most the limit of a numeral.
fn is_numeral_number(n: i128) -> bool
    ensures { result ≡ is_within (2 ^ 63 - 1) n }
{
    n.unsigned_abs() <= 9_223_372_036_854_775_807
}

/// Whether the number is absolutely at most the limit beside another term.
fn is_offset(n: i128) -> bool
    ensures { result ≡ is_within (2 ^ 59) n }
{
    n.unsigned_abs() <= 576_460_752_303_423_488
}

/// A term plus a number, which is the term where the number is 0.
fn plus_number(alloc: Global, t: MeasuredTerm, n: i128) -> Result<MeasuredTerm, AllocError>
    ensures { IfOk result (λ s. s ≡ plus_number t n) }
{
    if n == 0 {
        Ok(t)
    } else {
        MeasuredTerm::plus(alloc, t, n)
    }
}

/// The term of a sum, whatever its number is.
fn term_of(alloc: Global, base: Option<MeasuredTerm>, n: i128) -> Result<MeasuredTerm, AllocError>
    ensures { IfOk result (λ t. t ≡ term_of base n) }
{
    match base {
        None => Ok(MeasuredTerm::number(n)),
        Some(t) => plus_number(alloc, t, n),
    }
}

/// Whether the number of a sum is within its limit.
fn is_within(base: &Option<MeasuredTerm>, n: i128) -> bool
    ensures { result ≡ is_within (limit_of base.now) n }
{
    match base {
        None => is_numeral_number(n),
        Some(_) => is_offset(n),
    }
}

/// The term of a sum whose number is within its limit.
fn summed(alloc: Global, base: Option<MeasuredTerm>, n: i128) -> Result<MeasuredTerm, ReadError>
    ensures { Answers result (summed base n) }
{
    let is_within = is_within(&base, n);
    let t = term_of(alloc, base, n)?;
    if is_within {
        Ok(t)
    } else {
        Err(refused_unless_deep(FaultKind::OffsetTooWide, t.depth()))
    }
}

/// The terms that are no numerals in a sum, and its number.
#[derive(Drop)]
struct Total {
    bases: Sequence<MeasuredTerm>,
    number: i128,
}

/// Adds what an integer is the sum of.
fn add(total: &mut Total, t: MeasuredTerm) -> Result<(), AllocError>
    ensures bases { OnOk result (total.new.bases ≡ bases_with total.old.bases (sum_of t)) }
    ensures number { OnOk result (total.new.number ≡ total.old.number +ℤ (sum_of t).number) }
{
    let MeasuredSum { base, number } = t.into_sum();
    total.number = plus(total.number, number)?;
    if let Some(base) = base {
        total.bases.push(base)?;
    }
    Ok(())
}

/// The terms that are no numerals in integers, and the sum of the numbers.
fn totalled(alloc: Global, integers: Queue<MeasuredTerm>) -> Result<Total, AllocError>
    ensures bases { IfOk result (λ t. t.bases ≡ bases_of (map sum_of integers)) }
    ensures number { IfOk result (λ t. t.number ≡ total_of (map sum_of integers)) }
{
    let mut total = Total {
        bases: Sequence::new(alloc),
        number: 0,
    };
    let mut integers = integers;
    while let Some(t) = integers.next() {
        add(&mut total, t)?;
    }
    Ok(total)
}

/// The sum of a number and of terms that are no numerals, of which there is one at most.
#[tactic(auto, using(std::proofs::lemmas::Grind::common_steps, crate::proofs::Ends::beside_laws))]
fn summed_beside(
    alloc: Global,
    bases: Sequence<MeasuredTerm>,
    n: i128,
) -> Result<MeasuredTerm, ReadError>
    ensures { Answers result (summed_beside bases n) }
{
    let mut bases = bases.into_vec();
    let base = bases.pop();
    if bases.is_empty() {
        summed(alloc, base, n)
    } else {
        Err(refused(FaultKind::NotDifference))
    }
}

/// An integer term as a meaning.
fn integer(t: MeasuredTerm) -> MeasuredMeaning
    ensures { result ≡ MeasuredMeaning.Term Sort.Int t }
{
    MeasuredMeaning::Term(Sort::Int, t)
}

/// `+` of at least one integer.
pub fn addition(alloc: Global, args: Meanings) -> Result<MeasuredMeaning, ReadError>
    ensures { Means meaning_of result (addition (meanings_of args)) }
{
    if !are_at_least(1, args.as_slice()) {
        return Err(refused(FaultKind::WrongCount));
    }
    let integers = as_integers(alloc, args)?;
    let Total { bases, number } = totalled(alloc, Queue::new(integers))?;
    let sum = summed_beside(alloc, bases, number)?;
    Ok(integer(sum))
}

/// `-` of one numeral.
fn negation(alloc: Global, t: MeasuredTerm) -> Result<MeasuredTerm, ReadError>
    ensures { Answers result (negation (sum_of t)) }
{
    let MeasuredSum { base, number } = t.into_sum();
    match base {
        None => summed(alloc, None, minus(0, number)?),
        Some(_) => Err(refused(FaultKind::NotDifference)),
    }
}

/// A term minus what others come to, which must be numerals.
fn less(alloc: Global, s: MeasuredTerm, others: Total) -> Result<MeasuredTerm, ReadError>
    ensures { Answers result (less (sum_of s) others.bases others.number) }
{
    let Total { bases, number } = others;
    if !bases.is_empty() {
        return Err(refused(FaultKind::NotDifference));
    }
    let sum = s.into_sum();
    summed(alloc, sum.base, minus(sum.number, number)?)
}

/// A term minus numerals.
fn difference(
    alloc: Global,
    s: MeasuredTerm,
    others: Queue<MeasuredTerm>,
) -> Result<MeasuredTerm, ReadError>
    ensures { Answers result (difference (sum_of s) (map sum_of others)) }
{
    less(alloc, s, totalled(alloc, others)?)
}

/// The number of a numeral.
pub fn number_of(t: &MeasuredTerm) -> Option<i128>
    ensures { result ≡ number_of t.now }
{
    match t.as_term() {
        Term::Num(n) => Some(*n),
        Term::Plus(_, _)
        | Term::Var(_)
        | Term::Truth(_)
        | Term::Apply(_, _)
        | Term::Read(_, _)
        | Term::Default(_) => None,
    }
}

/// Whether integers are one minus another that is no numeral.
fn is_difference(integers: &[MeasuredTerm]) -> bool
    ensures { result ≡ is_difference integers.now }
{
    match integers {
        [_, t] => number_of(t).is_none(),
        _ => false,
    }
}

/// An integer minus others: where there is one other alone and it is no numeral, the difference is left to the atom
/// around it.
#[tactic(auto, using(crate::proofs::Subtractions::subtraction_laws))]
fn subtracted(alloc: Global, integers: Sequence<MeasuredTerm>) -> Result<MeasuredSide, ReadError>
    ensures { Means side_of result (subtracted integers) }
{
    let is_left = is_difference(integers.as_slice());
    let count = integers.len();
    let mut others = Queue::new(integers);
    let Some(s) = others.next() else {
        return Err(refused(FaultKind::WrongCount));
    };
    if is_left {
        return match others.next() {
            Some(t) => Ok(MeasuredSide::Difference(s, t)),
            None => Err(refused(FaultKind::WrongCount)),
        };
    }
    if count == 1 {
        Ok(MeasuredSide::Meant(integer(negation(alloc, s)?)))
    } else {
        Ok(MeasuredSide::Meant(integer(difference(alloc, s, others)?)))
    }
}

/// `-` of at least one integer.
pub fn subtraction(alloc: Global, args: Meanings) -> Result<MeasuredSide, ReadError>
    ensures { Means side_of result (subtraction (meanings_of args)) }
{
    if !are_at_least(1, args.as_slice()) {
        return Err(refused(FaultKind::WrongCount));
    }
    subtracted(alloc, as_integers(alloc, args)?)
}

/// A term moved by a number, also past the limit.
pub fn moved_by(alloc: Global, t: MeasuredTerm, n: i128) -> Result<MeasuredMeaning, AllocError>
    ensures { IfOk result (λ m. meaning_of m ≡ moved_by t n) }
{
    let sum = t.into_sum();
    let moved = term_of(alloc, sum.base, plus(sum.number, n)?)?;
    Ok(integer(moved))
}

/// Whether the number of an integer is past its limit.
pub fn is_wide(t: &MeasuredTerm) -> bool
    ensures { result ≡ is_wide_term t.now }
{
    match t.as_term() {
        Term::Num(n) => !is_numeral_number(*n),
        Term::Plus(_, n) => !is_offset(*n),
        Term::Var(_) | Term::Truth(_) | Term::Apply(_, _) | Term::Read(_, _) | Term::Default(_) =>
            false,
    }
}
