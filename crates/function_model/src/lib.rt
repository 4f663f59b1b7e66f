//! Function models: what `sat` shows, and what each candidate of a round is.
//!
//! [`model::FunctionModel`] is the one main type. Its meaning stands in `specs/`: `Fits` says which models fit
//! a script, `value_of` what a term's value is, and `HoldsAt` when a formula holds or fails at a point.

#![tactic(auto)]

mod by_halves;
mod eval;
mod eval_ids;
mod evaluable;
mod ground;
mod laws;
mod look_up;
pub mod model;
mod parts;
mod rising;
mod shown;
mod sound;
mod soundness;
mod tabled;

pub use evaluable::form_is_evaluable;
pub use laws::{full_by_far, number_goes_to_greatest, one_truth, shown_keeps_truth};
pub use look_up::projected;
pub use model::{FunctionModel, Row, Rows, Table, TableName, Tables, ValueLists};
pub use rising::{rising_rows, rows_fit};
pub use shown::{shown_fits, shown_has_declared, shown_has_skolem};
pub use sound::{fitting_is_sound, full_is_sound};

#[cfg(test)]
mod eval_tests;
#[cfg(test)]
mod tests;
#[cfg(test)]
mod value_tests;
