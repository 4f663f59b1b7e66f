//! Copies of formulas with their variables moved to later places, with their measures.
//!
//! What a `let` binds, what a macro is given and what a macro without parameters means are read once, with their variables
//! counted from some place on. Where such a formula is used behind further binders, its own variables come later:
//! [`moved_formula`] gives it so.

#![tactic(auto)]

mod copies;
mod formulas;
mod places;
mod terms;

pub use copies::{measured_array, measured_term};
pub use formulas::moved_formula;
pub use places::Shift;
