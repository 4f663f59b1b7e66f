//! The check of rules over a pool: the choices of pool terms at which a rule of the first profile is false, where atoms have truths.
//!
//! Start with [`failing_choices`].

#![tactic(auto)]

mod clause;
mod failing;

pub use failing::failing_choices;
