//! The operators of terms by their words, applied to arguments that were read.
//!
//! Each answers what the definition of `smtlib_terms` says of the operator: the meaning, or the first fault. Start with
//! [`applied`].

#![tactic(auto)]

mod by_word;

pub use by_word::{applied, two_sides};
