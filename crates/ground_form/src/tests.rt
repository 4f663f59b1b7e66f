//! What no clause says: that the calls succeed where memory is ample, and which atoms and clauses come in which order.

ghost use Rattle.std.specs.Prelude.{◌≡◌, false, [], ◌∷◌, IfOk};
ghost use Rattle.mbqi_terms.specs.Binders.{IsQuantifierFree};
ghost use Rattle.ground_form.specs.Definitions.{is_not};

use super::*;
use mbqi_terms::{Formula, Formulas, Symbol, Term, Terms};
use mbqi_values::{Lit, Lits};
use sqlite_items::Boxed;
use std::alloc::{AllocError, Global};
use std::process::Abort;
use std::test::Fail;

// A constant of sort Bool.
#[tactic(auto, unfolding(mbqi_terms::specs::Binders::has_quantifier))]
fn constant(alloc: Global, number: usize) -> Formula
    ensures free { IsQuantifierFree result }
    ensures positive { is_not result ≡ false }
{
    Formula::Atom(Term::Apply(Symbol::Declared(number), Terms::new(alloc)))
}

#[tactic(auto, unfolding(mbqi_terms::specs::Binders::has_quantifier))]
fn not(alloc: Global, f: Formula) -> Result<Formula, AllocError>
    requires { IsQuantifierFree f }
    ensures { IfOk result IsQuantifierFree }
{
    Ok(Formula::Not(Boxed::new(alloc, f)?))
}

fn pair(alloc: Global, f: Formula, g: Formula) -> Result<Formulas, AllocError>
    ensures { IfOk result (λ parts. parts ≡ f ∷ g ∷ []) }
{
    let mut parts = Formulas::new(alloc);
    parts.push(f)?;
    parts.push(g)?;
    Ok(parts)
}

#[tactic(auto, unfolding(mbqi_terms::specs::Binders::has_quantifier))]
fn all(alloc: Global, f: Formula, g: Formula) -> Result<Formula, AllocError>
    requires first { IsQuantifierFree f }
    requires second { IsQuantifierFree g }
    ensures { IfOk result IsQuantifierFree }
{
    Ok(Formula::All(pair(alloc, f, g)?))
}

#[tactic(auto, unfolding(mbqi_terms::specs::Binders::has_quantifier))]
fn any(alloc: Global, f: Formula, g: Formula) -> Result<Formula, AllocError>
    requires first { IsQuantifierFree f }
    requires second { IsQuantifierFree g }
    ensures { IfOk result IsQuantifierFree }
{
    Ok(Formula::Any(pair(alloc, f, g)?))
}

#[tactic(auto, unfolding(mbqi_terms::specs::Binders::has_quantifier))]
fn iff(alloc: Global, f: Formula, g: Formula) -> Result<Formula, AllocError>
    requires first { IsQuantifierFree f }
    requires second { IsQuantifierFree g }
    ensures { IfOk result IsQuantifierFree }
{
    let f = Boxed::new(alloc, f)?;
    Ok(Formula::Iff(f, Boxed::new(alloc, g)?))
}

// A choice by the first constant. Its branches come boxed, so that each function owns few trees where memory may run out.
#[tactic(auto, unfolding(mbqi_terms::specs::Binders::has_quantifier))]
fn choice(alloc: Global, f: Boxed<Formula>, g: Boxed<Formula>) -> Result<Formula, AllocError>
    requires first { IsQuantifierFree f }
    requires second { IsQuantifierFree g }
    ensures { IfOk result IsQuantifierFree }
{
    let condition = Boxed::new(alloc, constant(alloc, 0))?;
    Ok(Formula::Choose(condition, f, g))
}

fn choice_of_constants(alloc: Global) -> Result<Formula, AllocError>
    ensures { IfOk result IsQuantifierFree }
{
    let first = Boxed::new(alloc, constant(alloc, 1))?;
    let second = Boxed::new(alloc, constant(alloc, 2))?;
    choice(alloc, first, second)
}

fn yes(atom: usize) -> Lit {
    Lit { atom, yes: true }
}

fn no(atom: usize) -> Lit {
    Lit { atom, yes: false }
}

fn assert_clauses<R: Abort>(rt: &R, clauses: &[Lits], expected: &[&[Lit]]) {
    assert_eq!(rt; clauses.len(), expected.len());
    for (clause, lits) in clauses.iter().zip(expected) {
        assert_eq!(rt; clause.as_slice(), *lits);
    }
}

fn negated_conjunction(alloc: Global) -> Result<Formula, AllocError>
    ensures { IfOk result IsQuantifierFree }
{
    not(alloc, all(alloc, constant(alloc, 1), constant(alloc, 2))?)
}

fn disjunction(alloc: Global) -> Result<Formula, AllocError>
    ensures { IfOk result IsQuantifierFree }
{
    any(alloc, constant(alloc, 0), negated_conjunction(alloc)?)
}

// Atom 0 is the formula, 1 is p, 2 the conjunction, 3 and 4 are q and r.
#[test]
fn a_disjunction_and_a_negated_conjunction(rt: HostRuntime) -> Result<(), Fail> {
    let alloc = rt.alloc();
    let formula = disjunction(alloc)?;
    let mut table = AtomTable::new(alloc);
    let clauses = clauses_of(alloc, &mut table, &formula)?;
    let expected: [&[Lit]; 7] = [
        &[yes(0)],
        &[yes(0), no(1)],
        &[yes(0), yes(2)],
        &[no(0), yes(1), no(2)],
        &[no(2), yes(3)],
        &[no(2), yes(4)],
        &[yes(2), no(3), no(4)],
    ];
    assert_clauses(&rt, clauses.as_slice(), &expected);
    Ok(())
}

// Atom 0 is the formula, 1 is p and 2 is q.
#[test]
fn an_equation_of_formulas(rt: HostRuntime) -> Result<(), Fail> {
    let alloc = rt.alloc();
    let formula = iff(alloc, constant(alloc, 0), constant(alloc, 1))?;
    let mut table = AtomTable::new(alloc);
    let clauses = clauses_of(alloc, &mut table, &formula)?;
    let expected: [&[Lit]; 5] = [
        &[yes(0)],
        &[no(0), no(1), yes(2)],
        &[no(0), yes(1), no(2)],
        &[yes(0), yes(1), yes(2)],
        &[yes(0), no(1), no(2)],
    ];
    assert_clauses(&rt, clauses.as_slice(), &expected);
    Ok(())
}

// Atom 0 is the formula, and 1, 2 and 3 are p, q and r.
#[test]
fn a_choice_between_formulas(rt: HostRuntime) -> Result<(), Fail> {
    let alloc = rt.alloc();
    let formula = choice_of_constants(alloc)?;
    let mut table = AtomTable::new(alloc);
    let clauses = clauses_of(alloc, &mut table, &formula)?;
    let expected: [&[Lit]; 5] = [
        &[yes(0)],
        &[no(0), no(1), yes(2)],
        &[no(0), yes(1), yes(3)],
        &[yes(0), no(1), no(2)],
        &[yes(0), yes(1), no(3)],
    ];
    assert_clauses(&rt, clauses.as_slice(), &expected);
    Ok(())
}

#[test]
fn a_formula_that_comes_twice_has_one_atom(rt: HostRuntime) -> Result<(), Fail> {
    let alloc = rt.alloc();
    let mut table = AtomTable::new(alloc);
    let first = table.number(alloc, &constant(alloc, 7))?;
    let second = table.number(alloc, &constant(alloc, 8))?;
    let again = table.number(alloc, &constant(alloc, 7))?;
    assert_eq!(rt; (first, second, again, table.len()), (0, 1, 0, 2));
    Ok(())
}
