//! That each script that is read is in form.

ghost use Rattle.std.specs.Prelude.{ℕ, List};
ghost use Rattle.mbqi_terms.specs.declared.script.Script.{Script};
ghost use Rattle.smtlib_decls.specs.Means.{Means};
ghost use Rattle.smtlib_terms.specs.InForm.{IsInForm};

/// A script that a text means is in form: its names and labels, its functions' sorts, and its assertions with each sort,
/// function and variable in them, their numbers, their depth and the places of their variables.
pub fn read_is_in_form()
    ensures { (bytes : List ℕ) (script : Script) → Means bytes script → IsInForm script }
{}
