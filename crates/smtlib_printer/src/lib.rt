//! The canonical text of names, terms, array terms and formulas, with the hidden names that no script has.
//!
//! Start with [`write_formula`] and `specs/Text.antt`, which says what the text is. A caller that writes many
//! trees of one script counts the question marks of variables once ([`question_marks`]), and hands them to
//! [`write_formula_with`] and its kin.

#![tactic(auto)]

ghost use Rattle.std.specs.Prelude.{◌≡◌, ◌++◌, OnOk, OnErr};
ghost use Rattle.std.specs.Io.{StartsWith};
ghost use Rattle.smtlib_printer.specs.Text.{array_text, formula_text, term_text};

mod formulas;
mod names;
mod sorts;
mod terms;
#[cfg(test)]
mod tests;

pub use formulas::write_formula_with;
use mbqi_terms::{ArrayTerm, Formula, Script, Term};
pub use names::{question_marks, write_name};
pub use sorts::{write_number, write_sort, write_truth};
use std::alloc::AllocError;
pub use terms::{write_array_with, write_term_with, write_terms_with};

/// Appends the text of a term of the script. Numbers of sorts and functions that the script lacks print as the
/// empty name. The one error is want of memory, after which a front of the text may stand there.
pub fn write_term(script: &Script, term: &Term, into: &mut Vec<u8>) -> Result<(), AllocError>
    ensures ok { OnOk result (into.new.items ≡ into.old.items ++ term_text script.now term.now) }
    ensures err { OnErr result (StartsWith into.new.items into.old.items) }
{
    write_term_with(script, question_marks(script), term, into)
}

/// Appends the text of an array term of the script, as [`write_term`] does.
pub fn write_array(script: &Script, array: &ArrayTerm, into: &mut Vec<u8>) -> Result<(), AllocError>
    ensures ok { OnOk result (into.new.items ≡ into.old.items ++ array_text script.now array.now) }
    ensures err { OnErr result (StartsWith into.new.items into.old.items) }
{
    write_array_with(script, question_marks(script), array, into)
}

/// Appends the text of a formula of the script, as [`write_term`] does.
pub fn write_formula(
    script: &Script,
    formula: &Formula,
    into: &mut Vec<u8>,
) -> Result<(), AllocError>
    ensures ok { OnOk result (into.new.items ≡ into.old.items ++ formula_text script.now formula.now) }
    ensures err { OnErr result (StartsWith into.new.items into.old.items) }
{
    write_formula_with(script, question_marks(script), formula, into)
}
