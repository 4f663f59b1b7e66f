//! Sorts, terms, `let` and macros of SMT-LIB 2.6, as far as this project reads them: what a tree means, or which kind of
//! refusal it meets.
//!
//! The definitions stand in `specs/`, beginning with `Reading.antt`. In code there are the types that they speak of, and the
//! [`word`]s.

#![tactic(auto)]

pub mod meaning;
pub mod names;
mod refusal;
pub mod word;

pub use meaning::DEPTH_LIMIT;
pub use refusal::{refused, refused_unless_deep};
