//! Commands of SMT-LIB 2.6, as far as this project reads them.
//!
//! Start with [`read_script`], and with `specs/Scripts.antt`, which says which script a list of forms means, or
//! which form is refused. `command` has the words of commands, `label` finds the label of an assertion, and
//! `declarations` and `assertions` take one command each.

#![tactic(auto)]

mod assertions;
mod command;
mod declarations;
mod label;
mod labelled;
mod laws;
mod progress;
mod reader;
#[cfg(test)]
mod tests;

pub use laws::one_script_or_refusal;
pub use reader::{read_script, read_text};
