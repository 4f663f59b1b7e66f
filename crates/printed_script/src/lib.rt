//! The canonical text of a script means the script, if the script is in form, as each script that was read is.
//!
//! Start with [`laws`]. There is no code to run.

#![tactic(auto)]

pub mod laws;

pub use laws::printed_means_the_same;
