ghost use Rattle.std.specs.Prelude.{◌≡◌, ℕ, ◌⊎◌, List, [], ◌∷◌, All, IsTrue};
ghost use Rattle.mbqi_values.specs.declared.fault.Refusal.{Refusal};
ghost use Rattle.sexpr_text.specs.Depth.{IsShallow};
ghost use Rattle.sexpr_text.specs.Forms.{HaveForms, IsRefused};
ghost use Rattle.sexpr_text.specs.Legal.{is_legal};
ghost use Rattle.sexpr_text.specs.Text.{text_of, lines_of, forms_at};
ghost use Rattle.sexpr_text.specs.declared.tree.Form.{Form};
ghost use Rattle.sexpr_text.specs.declared.tree.Sexpr.{Sexpr};

/// Each list of bytes has forms or is refused, and never both; it has one list of forms at most, and one refusal at
/// most. So [`crate::read_forms`] gives the forms exactly where there are some, unless memory runs out.
pub fn one_answer()
    ensures some { (bytes : List ℕ) → ((forms : List Form) × HaveForms bytes forms) ⊎ ((refusal : Refusal) × IsRefused bytes refusal) }
    ensures not_both { (bytes : List ℕ) (forms : List Form) (refusal : Refusal) → HaveForms bytes forms → IsRefused bytes refusal → ⊥ }
    ensures one_list { (bytes : List ℕ) (these those : List Form) → HaveForms bytes these → HaveForms bytes those → these ≡ those }
    ensures one_refusal { (bytes : List ℕ) (this that : Refusal) → IsRefused bytes this → IsRefused bytes that → this ≡ that }
{}

/// What [`crate::write_form`] writes is read as the tree, and so is each tree of a text of several, with a line
/// feed behind each, where the atoms have texts of their kinds and the brackets are within the limit.
pub fn written_is_read()
    ensures tree { (tree : Sexpr) → IsTrue (is_legal tree) → IsShallow tree → HaveForms (text_of tree) (forms_at 0 (tree ∷ [])) }
    ensures lines { (trees : List Sexpr) → All (λ tree. IsTrue (is_legal tree)) trees → All IsShallow trees → HaveForms (lines_of trees) (forms_at 0 trees) }
{}
