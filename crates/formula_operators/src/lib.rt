//! Operators whose meanings are formulas, connectives and relations, and sums.
//!
//! Each answers what the definition of `smtlib_terms` says of it: the meaning, or the first fault.

#![tactic(auto)]

mod connectives;
mod relations;
mod sums;

pub use connectives::{choice, conjunction, disjunction, exclusion, implication, negated};
pub use relations::{distinct, equal, order};
pub use sums::{addition, is_wide, moved_by, number_of, subtraction};
