//! That the canonical text of a script is read again as the script.

ghost use Rattle.std.specs.Prelude.{◌≤◌, ◌^◌, ℕ, All, List, length};
ghost use Rattle.mbqi_terms.specs.declared.script.Script.{Script};
ghost use Rattle.printed_trees.specs.Names.{HasFewVariables};
ghost use Rattle.printed_trees.specs.Trees.{script_trees};
ghost use Rattle.script_text.specs.Text.{script_text};
ghost use Rattle.sexpr_text.specs.Depth.{IsShallow};
ghost use Rattle.smtlib_decls.specs.Means.{Means};
ghost use Rattle.smtlib_terms.specs.InForm.{IsInForm};

use read_in_form::read_is_in_form;

/// What [`script_text::write_script`] writes of a script in form means the script, where no place of the text has more
/// than 1,000 open brackets. The text names the places of variables, which are numbers that the code holds.
pub fn written_is_meant()
    ensures { (script : Script) → IsInForm script → HasFewVariables script → All IsShallow (script_trees script) → Means (script_text script) script }
{}

/// What [`script_text::write_script`] writes of a script that was read means the script, where no place of the text has
/// more than 1,000 open brackets. So `print` of what `print` wrote is the same text again. The text has at most 2^64 bytes,
/// as no machine holds a longer one: macros can make a formula of any length from a short text, with variables at places
/// past 2^64.
pub fn printed_means_the_same()
    ensures { (bytes : List ℕ) (script : Script) → Means bytes script → length (script_text script) ≤ 2 ^ 64 → All IsShallow (script_trees script) → Means (script_text script) script }
{
    read_is_in_form();
}
