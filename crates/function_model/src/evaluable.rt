//! Laws on which terms and formulas have their values from tables alone.

ghost use Rattle.std.specs.Prelude.{◌≡◌, true, List};
ghost use Rattle.mbqi_terms.specs.declared.formula.Formula.{Formula};
ghost use Rattle.mbqi_terms.specs.declared.script.Script.{Script};
ghost use Rattle.mbqi_terms.specs.declared.sort.Binder.{Binder};
ghost use Rattle.mbqi_terms.specs.declared.sort.Plain.{Plain};
ghost use Rattle.mbqi_terms.specs.declared.term.Term.{Term};
ghost use Rattle.mbqi_terms.specs.HasSort.{HasSortIn, IsMatrix, Setting};
ghost use Rattle.mbqi_terms.specs.InForm.{rule_setting, script_setting};
ghost use Rattle.function_model.specs.Evaluable.{AddsSmall, IsEvaluable, IsEvaluableFormula, formula_reads_names, reads_names};

/// A term that has its sort and reads names alone has its value from tables, and such a formula without quantifiers its truth, where
/// only small numbers are added. In scripts and rules only such numbers are.
pub fn form_is_evaluable()
    ensures terms { (g : Setting) (scope : List Binder) (t : Term) (s : Plain) → AddsSmall g → HasSortIn g scope t s
        → reads_names t ≡ true → IsEvaluable t }
    ensures formulas { (g : Setting) (scope : List Binder) (f : Formula) → AddsSmall g → IsMatrix g scope f
        → formula_reads_names f ≡ true → IsEvaluableFormula f }
    ensures scripts { (script : Script) → AddsSmall (script_setting script) }
    ensures rules { (script : Script) → AddsSmall (rule_setting script) }
{}
