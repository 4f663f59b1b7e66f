//! Whether formulas without quantifiers hold in a model, from its tables alone.

ghost use Rattle.std.specs.Prelude.{◌≡◌, List, All, not, if◌then◌else◌};
ghost use Rattle.std.specs.List.{list_all, list_any};
ghost use Rattle.mbqi_values.specs.Value.{is_true, rank_of};
ghost use Rattle.mbqi_terms.specs.declared.script.Function.{Function as DeclaredFunction};
ghost use Rattle.mbqi_terms.specs.HasSort.{IsMatrix, Setting};
ghost use Rattle.mbqi_terms.specs.Meanings.{truth_of};
ghost use Rattle.function_model.specs.Evaluable.{IsEvaluable, IsEvaluableFormula};
ghost use Rattle.function_model.specs.Fits.{IsSmall};
ghost use Rattle.function_model.specs.Holds.{HoldsAt};
ghost use Rattle.function_model.specs.Points.{point_of, values_at};
ghost use Rattle.function_model.specs.Sound.{GivesSorts, IsSound};
ghost use Rattle.function_model.specs.ValueOf.{value_of};

use crate::eval::value_at;
use crate::model::FunctionModel;
use crate::parts::{
    at_most_parts, atom_parts, choice_parts, conjunction_parts, disjunction_parts, equal_parts,
    equivalence_parts, negation_parts,
};
use mbqi_terms::{Binder, Binders, Formula, Term};
use mbqi_values::{Value, Values};
use std::cmp::Ordering;

impl FunctionModel {
    /// Whether a formula without quantifiers is true at the point where the variable of each binder's place has the value of
    /// that binder, in a sound model. No equality of arrays stands in it, and its terms are as [`FunctionModel::eval_term`]
    /// takes them. Where the formula has its sorts, and the model gives values of these, it holds at the point where the
    /// answer is true, and fails there where it is false. It takes no memory.
    pub fn eval_ground(&self, f: &Formula, binders: &Binders, point: &Values) -> bool
        requires sound { IsSound self.now }
        requires formula { IsEvaluableFormula f.now }
        requires point { All IsSmall point.now }
        ensures truth { result ≡ truth_of (values_at self.now (point_of binders.now point.now)) f.now }
        ensures holds { (g : Setting) → GivesSorts g.lists self.now → IsMatrix g binders.now f.now
            → (functions : List DeclaredFunction) → HoldsAt functions self.now result f.now (point_of binders.now point.now) }
    {
        truth_at(self, f, binders.as_slice(), point.as_slice())
    }
}

/// What [`FunctionModel::eval_ground`] gives, over lent lists.
#[cycle(truth)]
fn truth_at(model: &FunctionModel, f: &Formula, binders: &[Binder], point: &[Value]) -> bool
    requires sound { IsSound model.now }
    requires formula { IsEvaluableFormula f.now }
    requires point { All IsSmall point.now }
    ensures { result ≡ truth_of (values_at model.now (point_of binders.now point.now)) f.now }
{
    match f {
        Formula::Truth(truth) => *truth,
        Formula::Atom(t) => {
            atom_parts(f, t);
            is_true(value_at(model, t, binders, point))
        }
        Formula::Equal(left, right) => {
            equal_parts(f, left, right);
            rank_at(model, left, right, binders, point).is_eq()
        }
        Formula::AtMost(left, right) => {
            at_most_parts(f, left, right);
            rank_at(model, left, right, binders, point).is_le()
        }
        Formula::Not(part) => {
            let part = part.get();
            negation_parts(f, part);
            !truth_at(model, part, binders, point)
        }
        Formula::All(parts) => {
            let parts = parts.as_slice();
            conjunction_parts(f, parts);
            are_true_at(model, parts, binders, point)
        }
        Formula::Any(parts) => {
            disjunction_parts(f, parts.as_slice());
            is_one_true_at(model, parts.as_slice(), binders, point)
        }
        Formula::Iff(left, right) => {
            let left = left.get();
            let right = right.get();
            equivalence_parts(f, left, right);
            let first = truth_at(model, left, binders, point);
            is_equal(first, truth_at(model, right, binders, point))
        }
        Formula::Choose(condition, yes, no) => {
            let condition = condition.get();
            let yes = yes.get();
            let no = no.get();
            choice_parts(f, condition, yes, no);
            if truth_at(model, condition, binders, point) {
                truth_at(model, yes, binders, point)
            } else {
                truth_at(model, no, binders, point)
            }
        }
        Formula::SameArray(_, _) | Formula::Forall(_, _) | Formula::Exists(_, _) => {
            unreachable!()
        }
    }
}

/// Whether each of the formulas is true.
#[cycle(truth)]
fn are_true_at(
    model: &FunctionModel,
    parts: &[Formula],
    binders: &[Binder],
    point: &[Value],
) -> bool
    requires sound { IsSound model.now }
    requires formulas { All IsEvaluableFormula parts.now }
    requires point { All IsSmall point.now }
    ensures { result ≡ list_all (truth_of (values_at model.now (point_of binders.now point.now))) parts.now }
{
    for part in parts {
        if !truth_at(model, part, binders, point) {
            return false;
        }
    }
    true
}

/// Whether one of the formulas is true.
#[cycle(truth)]
fn is_one_true_at(
    model: &FunctionModel,
    parts: &[Formula],
    binders: &[Binder],
    point: &[Value],
) -> bool
    requires sound { IsSound model.now }
    requires formulas { All IsEvaluableFormula parts.now }
    requires point { All IsSmall point.now }
    ensures { result ≡ list_any (truth_of (values_at model.now (point_of binders.now point.now))) parts.now }
{
    for part in parts {
        if truth_at(model, part, binders, point) {
            return true;
        }
    }
    false
}

/// How the values of two terms compare.
fn rank_at(
    model: &FunctionModel,
    left: &Term,
    right: &Term,
    binders: &[Binder],
    point: &[Value],
) -> Ordering
    requires sound { IsSound model.now }
    requires left { IsEvaluable left.now }
    requires right { IsEvaluable right.now }
    requires point { All IsSmall point.now }
    ensures { result ≡ rank_of (value_of model.now left.now (point_of binders.now point.now))
        (value_of model.now right.now (point_of binders.now point.now)) }
{
    let value = value_at(model, left, binders, point);
    value.rank(&value_at(model, right, binders, point))
}

fn is_equal(left: bool, right: bool) -> bool
    ensures { result ≡ (if left then right else not right) }
{
    if left { right } else { !right }
}

fn is_true(value: Value) -> bool
    ensures { result ≡ is_true value }
{
    match value {
        Value::Truth(truth) => truth,
        _ => false,
    }
}
