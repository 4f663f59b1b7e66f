//! Clauses over constants and variables.

ghost use Rattle.std.specs.Prelude.{◌≡◌, ◌↔◌, IsTrue, MatchOption};
ghost use Rattle.std.specs.List.{AllByRecursion};
ghost use Rattle.mbqi_terms.specs.declared.term.Symbol.TheVariants as symbol;
ghost use Rattle.mbqi_terms.specs.declared.term.Term.TheVariants as term;
ghost use Rattle.element_atoms.specs.Profile.{IsArgument, IsAtom, IsClause, IsConstantTerm, IsLiteral};
ghost use Rattle.first_profile.specs.Parts.{IsUndeclared};

use crate::functions::{names_constant, names_predicate};
use mbqi_terms::{Formula, Function, Symbol, Term};

/// The number of the declared function that a term applies, and its arguments.
fn declared(t: &Term) -> Option<(usize, &[Term])>
    ensures { MatchOption result (IsUndeclared t.now) (λ parts. t.now ≡ term.Apply (symbol.Declared parts.0) parts.1.now) }
{
    match t {
        Term::Apply(symbol, args) => match symbol {
            Symbol::Declared(number) => Some((*number, args.as_slice())),
            _ => None,
        },
        _ => None,
    }
}

fn is_constant_term(functions: &[Function], t: &Term) -> bool
    ensures { IsTrue result ↔ IsConstantTerm functions.now t.now }
{
    match declared(t) {
        Some((number, args)) => args.is_empty() && names_constant(functions, number),
        None => false,
    }
}

fn is_argument(functions: &[Function], variables: usize, t: &Term) -> bool
    ensures { IsTrue result ↔ IsArgument functions.now variables t.now }
{
    match t {
        Term::Var(place) => *place < variables,
        _ => is_constant_term(functions, t),
    }
}

fn are_arguments(functions: &[Function], variables: usize, terms: &[Term]) -> bool
    ensures { IsTrue result ↔ AllByRecursion (IsArgument functions.now variables) terms.now }
{
    for t in terms {
        if !is_argument(functions, variables, t) {
            return false;
        }
    }
    true
}

fn is_atom(functions: &[Function], variables: usize, t: &Term) -> bool
    ensures { IsTrue result ↔ IsAtom functions.now (IsArgument functions.now variables) t.now }
{
    match declared(t) {
        Some((number, args)) => {
            names_predicate(functions, number, args.len())
                && are_arguments(functions, variables, args)
        }
        None => false,
    }
}

fn is_literal(functions: &[Function], variables: usize, formula: &Formula) -> bool
    ensures { IsTrue result ↔ IsLiteral functions.now (IsArgument functions.now variables) formula.now }
{
    match formula {
        Formula::Atom(t) => is_atom(functions, variables, t),
        Formula::Not(negated) => match negated.get() {
            Formula::Atom(t) => is_atom(functions, variables, t),
            _ => false,
        },
        _ => false,
    }
}

fn are_literals(functions: &[Function], variables: usize, formulas: &[Formula]) -> bool
    ensures { IsTrue result ↔ AllByRecursion (IsLiteral functions.now (IsArgument functions.now variables)) formulas.now }
{
    for formula in formulas {
        if !is_literal(functions, variables, formula) {
            return false;
        }
    }
    true
}

/// Whether a formula is a clause over the constants and so many variables.
pub fn is_clause(functions: &[Function], variables: usize, formula: &Formula) -> bool
    ensures { IsTrue result ↔ IsClause functions.now (IsArgument functions.now variables) formula.now }
{
    match formula {
        Formula::Any(literals) => are_literals(functions, variables, literals.as_slice()),
        _ => is_literal(functions, variables, formula),
    }
}
