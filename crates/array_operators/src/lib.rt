//! Operators whose meanings are terms and array terms: those of arrays, declared functions, and pointwise maps.
//!
//! Each answers what the definition of `smtlib_terms` says of it: the meaning, or the first fault.

#![tactic(auto)]

mod applications;
mod arrays;
mod pointwise;

pub use applications::{application, function_applied, have_sorts};
pub use arrays::{constant, defaulting, selection, storing};
pub use pointwise::{Pointwise, connective_map, function_map, mapped_by, negation_map};
