//! That canonical text is read again as what was written.

ghost use Rattle.std.specs.Prelude.{◌≡◌, ◌≤◌, ℕ, Bool, List, [], ◌∷◌, map, Ok, All};
ghost use Rattle.mbqi_terms.specs.declared.formula.Formula.{Formula};
ghost use Rattle.mbqi_terms.specs.declared.formula.Formula.TheVariants as formula;
ghost use Rattle.mbqi_terms.specs.declared.script.Script.{Script};
ghost use Rattle.mbqi_terms.specs.declared.sort.Binder.{Binder};
ghost use Rattle.mbqi_terms.specs.declared.sort.Plain.{Plain};
ghost use Rattle.mbqi_terms.specs.declared.term.ArrayTerm.{ArrayTerm};
ghost use Rattle.mbqi_terms.specs.declared.term.Term.{Term};
ghost use Rattle.mbqi_terms.specs.declared.term.Term.TheVariants as term;
ghost use Rattle.mbqi_terms.specs.HasSort.{IsNoTruth};
ghost use Rattle.printed_trees.specs.Means.{Means};
ghost use Rattle.printed_trees.specs.Names.{AreSmall, AreToldApart, HasFewVariables, HasSmallPlaces, bindings_of, signature_of};
ghost use Rattle.printed_trees.specs.Trees.{array_tree, formula_tree, script_trees, term_tree};
ghost use Rattle.script_text.specs.Text.{script_text};
ghost use Rattle.sexpr_text.specs.Depth.{IsShallow};
ghost use Rattle.sexpr_text.specs.Forms.{HaveForms};
ghost use Rattle.sexpr_text.specs.Text.{forms_at, text_of};
ghost use Rattle.sexpr_text.specs.declared.tree.Form.{Form};
ghost use Rattle.smtlib_printer.specs.Names.{marks_of};
ghost use Rattle.smtlib_printer.specs.Text.{array_text_with, formula_text, term_text_with};
ghost use Rattle.smtlib_terms.specs.Declaring.{declarations_of, formula_read};
ghost use Rattle.smtlib_terms.specs.InForm.{AreNamed, HasSort, IsArray, IsFormula, IsInForm};
ghost use Rattle.mbqi_terms.specs.Depth.{depth_of_array, depth_of_formula, depth_of_term};
ghost use Rattle.smtlib_terms.specs.Operators.{term_meant};
ghost use Rattle.smtlib_terms.specs.declared.meaning.Meaning.TheVariants as meaning;

/// In the scope of binders, the canonical text of a term in form is that of its S-expression, which means the term. A truth
/// means a formula.
pub fn term_is_read()
    ensures spelled { (script : Script) (marks : ℕ) → AreToldApart script marks → (scope : List Binder) → AreSmall scope → (t : Term) (s : Plain) → HasSort script scope t s → text_of (term_tree script marks t) ≡ term_text_with script marks t }
    ensures meaning { (script : Script) (marks : ℕ) → AreToldApart script marks → (scope : List Binder) → AreSmall scope → (next : ℕ) (t : Term) (s : Plain) → HasSort script scope t s → IsNoTruth t → depth_of_term t ≤ 1000 → Means (term_tree script marks t) (signature_of script) (bindings_of marks scope) next (term_meant s t) }
    ensures truth { (script : Script) (marks : ℕ) (scope : List Binder) (next : ℕ) (b : Bool) → Means (term_tree script marks (term.Truth b)) (signature_of script) (bindings_of marks scope) next (meaning.Formula (formula.Truth b)) }
{}

/// In the scope of binders, the canonical text of an array term in form is that of its S-expression, which means the
/// array term.
pub fn array_is_read()
    ensures spelled { (script : Script) (marks : ℕ) → AreToldApart script marks → (scope : List Binder) → AreSmall scope → (a : ArrayTerm) (i e : Plain) → IsArray script scope a i e → text_of (array_tree script marks a) ≡ array_text_with script marks a }
    ensures meaning { (script : Script) (marks : ℕ) → AreToldApart script marks → (scope : List Binder) → AreSmall scope → (next : ℕ) (a : ArrayTerm) (i e : Plain) → IsArray script scope a i e → depth_of_array a ≤ 1000 → Means (array_tree script marks a) (signature_of script) (bindings_of marks scope) next (meaning.Array i e a) }
{}

/// The canonical text of a formula in form, of a script whose names may be declared and differ, is the text of one
/// S-expression, and with the script's declarations this means the formula. The places of variables, which the text names,
/// are numbers that the code holds.
pub fn formula_is_read()
    ensures spelled { (script : Script) (f : Formula) → AreNamed script → IsFormula script [] 0 f → HasSmallPlaces 0 f → text_of (formula_tree script (marks_of script) f) ≡ formula_text script f }
    ensures form { (script : Script) (f : Formula) → AreNamed script → IsFormula script [] 0 f → HasSmallPlaces 0 f → IsShallow (formula_tree script (marks_of script) f) → HaveForms (formula_text script f) (forms_at 0 (formula_tree script (marks_of script) f ∷ [])) }
    ensures meaning { (script : Script) (f : Formula) → AreNamed script → IsFormula script [] 0 f → HasSmallPlaces 0 f → depth_of_formula f ≤ 1000 → formula_read (declarations_of script) (formula_tree script (marks_of script) f) ≡ Ok f }
{}

/// The canonical text of a script in form has the script's commands as its forms, where no place of it has more than
/// 1,000 open brackets.
pub fn script_has_forms()
    ensures { (script : Script) → IsInForm script → HasFewVariables script → All IsShallow (script_trees script) → (forms : List Form) × HaveForms (script_text script) forms × (map (λ (form : Form). form.tree) forms ≡ script_trees script) }
{}
