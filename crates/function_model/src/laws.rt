//! Laws of models.

ghost use Rattle.std.specs.Prelude.{◌≡◌, ◌↔◌, ◌∷◌, ℕ, ℤ, Bool, true, false, List};
ghost use Rattle.mbqi_values.specs.declared.value.Value.TheVariants.{Num};
ghost use Rattle.mbqi_terms.specs.declared.formula.Formula.{Formula};
ghost use Rattle.mbqi_terms.specs.declared.script.Function.{Function};
ghost use Rattle.mbqi_terms.specs.declared.script.Script.{Script};
ghost use Rattle.mbqi_terms.specs.declared.sort.Sort.{Sort};
ghost use Rattle.mbqi_terms.specs.declared.term.Term.{Term};
ghost use Rattle.function_model.specs.Fits.{AreKnots, Fits, FitsFull};
ghost use Rattle.function_model.specs.Holds.{HoldsAt};
ghost use Rattle.function_model.specs.Lookup.{is_full, projected};
ghost use Rattle.function_model.specs.Projection.{IsProjection};
ghost use Rattle.function_model.specs.Shown.{formula_rests_on_shown, rests_on_shown, shown_of};
ghost use Rattle.function_model.specs.ValueOf.{Point, value_of};

use crate::model::FunctionModel;
use mbqi_values::Value;

/// A formula doesn't hold and fail at one point.
pub fn one_truth()
    ensures { (functions : List Function) (model : FunctionModel) (f : Formula) (p : Point)
        → HoldsAt functions model true f p → HoldsAt functions model false f p → ⊥ }
{}

/// A number goes to the greatest of rising knots that isn't above it, or to the first, where each is above it.
pub fn number_goes_to_greatest()
    ensures { (sizes : List ℕ) (s : Sort) (first : Value) (knots : List Value) (n : ℤ)
        → AreKnots sizes s (first ∷ knots) → IsProjection first knots (Num n) (projected (first ∷ knots) (Num n)) }
{}

/// A full model that fits a script is full, a shown one that fits it isn't, and neither is the shown part of any model.
pub fn full_by_far()
    ensures full { (script : Script) (model : FunctionModel) → FitsFull script model → is_full model ≡ true }
    ensures shown { (script : Script) (model : FunctionModel) → Fits script model → is_full model ≡ false }
    ensures part { (model : FunctionModel) → is_full (shown_of model) ≡ false }
{}

/// The shown part of a model gives each term that rests on shown tables its value, and each formula that does its truth.
pub fn shown_keeps_truth()
    ensures values { (model : FunctionModel) (p : Point) (t : Term) → rests_on_shown t ≡ true → value_of (shown_of model) t p ≡ value_of model t p }
    ensures truths { (functions : List Function) (model : FunctionModel) (f : Formula) → formula_rests_on_shown f ≡ true → (b : Bool) (p : Point)
        → HoldsAt functions (shown_of model) b f p ↔ HoldsAt functions model b f p }
{}
