//! What holds of every text.

ghost use Rattle.std.specs.Prelude.{◌≡◌, ℕ, ◌⊎◌, List};
ghost use Rattle.mbqi_values.specs.declared.fault.Refusal.{Refusal};
ghost use Rattle.mbqi_terms.specs.declared.script.Script.{Script};
ghost use Rattle.smtlib_decls.specs.Means.{Means, Refused};

use sexpr_text::laws::one_answer;

/// Each list of bytes means a script or is refused, and never both; it means one script at most, and has one refusal at
/// most. So [`crate::read_text`] gives the script exactly where there is one, unless memory runs out.
pub fn one_script_or_refusal()
    ensures some { (bytes : List ℕ) → ((script : Script) × Means bytes script) ⊎ ((refusal : Refusal) × Refused bytes refusal) }
    ensures not_both { (bytes : List ℕ) (script : Script) (refusal : Refusal) → Means bytes script → Refused bytes refusal → ⊥ }
    ensures one_script { (bytes : List ℕ) (this that : Script) → Means bytes this → Means bytes that → this ≡ that }
    ensures one_refusal { (bytes : List ℕ) (this that : Refusal) → Refused bytes this → Refused bytes that → this ≡ that }
{
    one_answer();
}
