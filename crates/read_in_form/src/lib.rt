//! Each script that is read is in form.
//!
//! Start with [`laws`]. There is no code to run.

#![tactic(auto)]

pub mod laws;

pub use laws::read_is_in_form;
