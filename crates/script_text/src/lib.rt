//! The canonical text of a script: its declarations, its assertions and its question, each on a line of its own.
//!
//! Start with [`write_script`] and `specs/Text.antt`, which says what the text is.

#![tactic(auto)]

ghost use Rattle.std.specs.Prelude.{◌≡◌, ◌++◌, OnOk, OnErr};
ghost use Rattle.std.specs.Io.{StartsWith};
ghost use Rattle.script_text.specs.Text.{script_text};

mod lines;
mod sorts;
#[cfg(test)]
mod tests;

use lines::{write_assertions, write_functions, write_question, write_sorts};
use mbqi_terms::Script;
use std::alloc::AllocError;

/// Appends the canonical text of a script: `(declare-sort s 0)` for each sort, `(declare-fun f (S ...) S)` for each
/// function, `(assert t)` or `(assert (! t :named l))` for each assertion, and `(check-sat)` where the script asks
/// (this project's own choice among the texts of SMT-LIB 2.6). It is linear in what it writes. The one error is want
/// of memory, after which `into` begins with what it held.
pub fn write_script(script: &Script, into: &mut Vec<u8>) -> Result<(), AllocError>
    ensures ok { OnOk result (into.new.items ≡ into.old.items ++ script_text script.now) }
    ensures err { OnErr result (StartsWith into.new.items into.old.items) }
{
    write_sorts(script.sorts.as_slice(), into)?;
    write_functions(script, script.functions.as_slice(), into)?;
    write_assertions(script, script.assertions.as_slice(), into)?;
    write_question(script.asks, into)
}
