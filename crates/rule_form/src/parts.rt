//! What a rule is made of.

ghost use Rattle.std.specs.Prelude.{◌≡◌};
ghost use Rattle.rule_form.specs.Rules.{clause_of, variables_of};

use mbqi_terms::Formula;

/// How many variables an assertion has, and its clause.
pub fn rule_parts(formula: &Formula) -> (usize, &Formula)
    ensures variables { result.0 ≡ variables_of formula.now }
    ensures clause { result.1.now ≡ clause_of formula.now }
{
    match formula {
        Formula::Forall(binders, clause) => (binders.len(), clause.get()),
        _ => (0, formula),
    }
}
