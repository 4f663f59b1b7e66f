//! Rules: clauses, and clauses for all values of their variables.

ghost use Rattle.std.specs.Prelude.{◌≡◌, ◌↔◌, IsTrue};
ghost use Rattle.std.specs.List.{AllByRecursion};
ghost use Rattle.element_atoms.specs.Profile.{the_sort, IsRule};
ghost use Rattle.first_profile.specs.Parts.{AreVariables};

use crate::clauses::is_clause;
use crate::functions::THE_SORT;
use mbqi_terms::{Assertion, Binder, Formula, Function};

/// Whether a binder is the variable of a place.
fn is_variable(binder: &Binder, place: usize) -> bool
    ensures { IsTrue result ↔ (binder.now ≡ record { place = place; sort = the_sort }) }
{
    binder.place == place && binder.sort == THE_SORT
}

/// Whether the binders are those of some variables of the one sort, by their places from 0.
fn are_variables(binders: &[Binder]) -> bool
    ensures { IsTrue result ↔ AreVariables binders.now }
{
    for (place, binder) in binders.iter().enumerate() {
        if !is_variable(binder, place) {
            return false;
        }
    }
    !binders.is_empty()
}

fn is_rule(functions: &[Function], formula: &Formula) -> bool
    ensures { IsTrue result ↔ IsRule functions.now formula.now }
{
    match formula {
        Formula::Forall(binders, clause) => {
            are_variables(binders.as_slice()) && is_clause(functions, binders.len(), clause.get())
        }
        _ => is_clause(functions, 0, formula),
    }
}

/// Whether each assertion is a rule.
pub fn are_rules(functions: &[Function], assertions: &[Assertion]) -> bool
    ensures { IsTrue result ↔ AllByRecursion (λ assertion. IsRule functions.now assertion.formula) assertions.now }
{
    for assertion in assertions {
        if !is_rule(functions, &assertion.formula) {
            return false;
        }
    }
    true
}
