//! The program's one call, [`run`]: from the words and the bytes of files to the bytes of an answer.
//!
//! `run` finds the command of its words and fetches its files. The crate `smtlib_decls` reads a script. For `solve` the crate
//! `first_profile` says whether the script is taken so far, `mbqi_loop` decides it, and [`model_text`] or the crate `refutation_text` writes the
//! answer. For `print` the crate `script_text` writes the script. The clauses of `run` say what each status means; their definitions
//! stand in `specs/`, beginning with `Answer`, `Statuses` and `Asked`.

#![tactic(auto)]

mod command;
mod fetch;
mod model_text;
mod print;
mod program;
mod solve;
mod tell;
#[cfg(test)]
mod tests;

pub use mbqi_loop::{Journal, Outcome, Round, solve_rules};
pub use program::run;
