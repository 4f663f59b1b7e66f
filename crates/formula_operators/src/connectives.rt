//! The connectives of SMT-LIB 2.6's theory Core.

ghost use Rattle.std.specs.Prelude.{◌≡◌, ◌++◌, [], ◌∷◌, IfOk, Ok, Err, if◌then◌else◌};
ghost use Rattle.std.specs.List.{list_any};
ghost use Rattle.smtlib_terms.specs.Answers.{Answers};
ghost use Rattle.mbqi_terms.specs.Binders.{is_quantified};
ghost use Rattle.mbqi_values.specs.declared.fault.FaultKind.TheVariants.{QuantifierPlace};
ghost use Rattle.mbqi_terms.specs.Depth.{depth_of_formula};
ghost use Rattle.smtlib_terms.specs.Meaning.{unless_deep};
ghost use Rattle.smtlib_terms.specs.Operators.{choice, connective, exclusion, exclusion_of, implication, implication_of, is_other_choice, joined, negated, unlike};
ghost use Rattle.operator_arguments.specs.Measured.{meaning_of, meanings_of};
ghost use Rattle.formula_operators.specs.Steps.{chosen_of};

use mbqi_terms::{Formula, Sort};
use mbqi_values::{FaultKind, ReadError, Sequence};
use measured_terms::{MeasuredFormula, MeasuredFormulas};
use operator_arguments::{
    Meanings, MeasuredMeaning, Queue, are_at_least, as_formulas, is_sort, sole, triple,
};
use smtlib_terms::{refused, refused_unless_deep};
use std::alloc::{AllocError, Global};

/// Formulas with their common measures.
fn gathered(
    alloc: Global,
    formulas: Sequence<MeasuredFormula>,
) -> Result<MeasuredFormulas, AllocError>
    ensures { IfOk result (λ parts. parts ≡ formulas) }
{
    let mut parts = MeasuredFormulas::new(alloc);
    let mut formulas = Queue::new(formulas);
    while let Some(f) = formulas.next() {
        parts.push(f)?;
    }
    Ok(parts)
}

/// `and` of formulas; of one formula it is this one.
#[tactic(auto, using(crate::proofs::Ends::joined_more))]
pub fn all_of(parts: MeasuredFormulas) -> Result<MeasuredFormula, AllocError>
    ensures { IfOk result (λ f. f ≡ joined Formula.All parts) }
{
    match parts.alone() {
        Ok(f) => Ok(f),
        Err(parts) => MeasuredFormula::all(parts),
    }
}

/// `or` of formulas; of one formula it is this one.
#[tactic(auto, using(crate::proofs::Ends::joined_more))]
fn any_of(parts: MeasuredFormulas) -> Result<MeasuredFormula, AllocError>
    ensures { IfOk result (λ f. f ≡ joined Formula.Any parts) }
{
    match parts.alone() {
        Ok(f) => Ok(f),
        Err(parts) => MeasuredFormula::any(parts),
    }
}

/// `not` of one formula.
#[tactic(auto, using(crate::proofs::Arities::negated_is))]
pub fn negated(alloc: Global, args: Meanings) -> Result<MeasuredFormula, ReadError>
    ensures { Answers result (negated (meanings_of args)) }
{
    let Some(f) = sole(args)?.into_formula() else {
        return Err(refused(FaultKind::WrongSort));
    };
    Ok(MeasuredFormula::negation(alloc, f)?)
}

/// `and` of at least one formula.
pub fn conjunction(alloc: Global, args: Meanings) -> Result<MeasuredFormula, ReadError>
    ensures { Answers result (connective Formula.All (meanings_of args)) }
{
    if !are_at_least(1, args.as_slice()) {
        return Err(refused(FaultKind::WrongCount));
    }
    let formulas = as_formulas(alloc, args)?;
    Ok(all_of(gathered(alloc, formulas)?)?)
}

/// `or` of at least one formula.
pub fn disjunction(alloc: Global, args: Meanings) -> Result<MeasuredFormula, ReadError>
    ensures { Answers result (connective Formula.Any (meanings_of args)) }
{
    if !are_at_least(1, args.as_slice()) {
        return Err(refused(FaultKind::WrongCount));
    }
    let formulas = as_formulas(alloc, args)?;
    Ok(any_of(gathered(alloc, formulas)?)?)
}

/// A formula that implies another.
fn implied(
    alloc: Global,
    f: MeasuredFormula,
    g: MeasuredFormula,
) -> Result<MeasuredFormula, AllocError>
    ensures { IfOk result (λ h. h ≡ Formula.Any (Formula.Not f ∷ g ∷ [])) }
{
    let mut parts = MeasuredFormulas::new(alloc);
    parts.push(MeasuredFormula::negation(alloc, f)?)?;
    parts.push(g)?;
    MeasuredFormula::any(parts)
}

/// Formulas of which each implies what the rest means, from right to left.
#[tactic(auto, using(std::proofs::lemmas::Grind::common_steps, crate::proofs::Ends::implications_end))]
fn implications(
    alloc: Global,
    formulas: Sequence<MeasuredFormula>,
    last: MeasuredFormula,
) -> Result<MeasuredFormula, AllocError>
    ensures { IfOk result (λ f. implication_of (formulas ++ last ∷ []) ≡ Ok f) }
{
    let mut formulas = formulas.into_vec();
    let mut joined = last;
    while let Some(f) = formulas.pop() {
        joined = implied(alloc, f, joined)?;
    }
    Ok(joined)
}

/// Formulas as one implication, of which there is at least one.
fn implication_of(
    alloc: Global,
    formulas: Sequence<MeasuredFormula>,
) -> Result<MeasuredFormula, ReadError>
    ensures { Answers result (implication_of formulas) }
{
    let mut formulas = formulas.into_vec();
    match formulas.pop() {
        Some(last) => Ok(implications(alloc, Sequence::from_vec(formulas), last)?),
        None => Err(refused(FaultKind::WrongCount)),
    }
}

/// `=>` of at least two formulas, associated to the right.
pub fn implication(alloc: Global, args: Meanings) -> Result<MeasuredFormula, ReadError>
    ensures { Answers result (implication (meanings_of args)) }
{
    if !are_at_least(2, args.as_slice()) {
        return Err(refused(FaultKind::WrongCount));
    }
    implication_of(alloc, as_formulas(alloc, args)?)
}

/// Whether one of the formulas has a quantifier.
fn any_quantified(formulas: &[MeasuredFormula]) -> bool
    ensures { result ≡ list_any is_quantified formulas.now }
{
    formulas.iter().any(|f| f.is_quantified())
}

/// What is made of formulas, in some of which no quantifier may stand, although one does where `is_quantified`.
pub fn unquantified(
    is_quantified: bool,
    made: MeasuredFormula,
) -> Result<MeasuredFormula, ReadError>
    ensures { Answers result (if is_quantified then Err (unless_deep QuantifierPlace (depth_of_formula made)) else Ok made) }
{
    if is_quantified {
        Err(refused_unless_deep(FaultKind::QuantifierPlace, made.depth()))
    } else {
        Ok(made)
    }
}

/// `xor` of formulas from left to right.
fn exclusions(
    alloc: Global,
    first: MeasuredFormula,
    others: Queue<MeasuredFormula>,
) -> Result<MeasuredFormula, AllocError>
    ensures { IfOk result (λ f. f ≡ unlike first others) }
{
    let mut joined = first;
    let mut others = others;
    while let Some(f) = others.next() {
        joined = MeasuredFormula::negation(alloc, MeasuredFormula::iff(alloc, joined, f)?)?;
    }
    Ok(joined)
}

/// `xor` of formulas without quantifiers, of which there is at least one.
fn exclusion_of(
    alloc: Global,
    formulas: Sequence<MeasuredFormula>,
) -> Result<MeasuredFormula, ReadError>
    ensures { Answers result (exclusion_of formulas) }
{
    let is_quantified = any_quantified(formulas.as_slice());
    let mut others = Queue::new(formulas);
    match others.next() {
        None => Err(refused(FaultKind::WrongCount)),
        Some(first) => {
            let joined = exclusions(alloc, first, others)?;
            unquantified(is_quantified, joined)
        }
    }
}

/// `xor` of at least two formulas without quantifiers, associated to the left.
pub fn exclusion(alloc: Global, args: Meanings) -> Result<MeasuredFormula, ReadError>
    ensures { Answers result (exclusion (meanings_of args)) }
{
    if !are_at_least(2, args.as_slice()) {
        return Err(refused(FaultKind::WrongCount));
    }
    exclusion_of(alloc, as_formulas(alloc, args)?)
}

/// Whether two sorts are one that `ite` has in SMT-LIB 2.6 and not in this profile.
fn is_other_choice(s: Sort, t: Sort) -> bool
    ensures { result ≡ is_other_choice s t }
{
    is_sort(s, t) && !is_sort(s, Sort::Truth)
}

/// `ite` of formulas, with a condition without quantifiers.
#[tactic(auto, using(crate::proofs::Arities::choice_is))]
pub fn choice(alloc: Global, args: Meanings) -> Result<MeasuredFormula, ReadError>
    ensures { Answers result (choice (meanings_of args)) }
{
    let (c, m, n) = triple(args)?;
    if is_other_choice(m.sort(), n.sort()) {
        return Err(refused(FaultKind::Unsupported));
    }
    chosen(alloc, c, m, n)
}

/// `ite` of three meanings that are formulas, with a condition without quantifiers.
fn chosen(
    alloc: Global,
    c: MeasuredMeaning,
    m: MeasuredMeaning,
    n: MeasuredMeaning,
) -> Result<MeasuredFormula, ReadError>
    ensures { Answers result (chosen_of (meaning_of c) (meaning_of m) (meaning_of n)) }
{
    let Some(condition) = c.into_formula() else {
        return Err(refused(FaultKind::WrongSort));
    };
    let Some(then) = m.into_formula() else {
        return Err(refused(FaultKind::WrongSort));
    };
    let Some(otherwise) = n.into_formula() else {
        return Err(refused(FaultKind::WrongSort));
    };
    let is_quantified = condition.is_quantified();
    let choice = MeasuredFormula::choose(alloc, condition, then, otherwise)?;
    unquantified(is_quantified, choice)
}
