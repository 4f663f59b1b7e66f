//! What trees mean: the reader of terms, `let`, quantifiers and macros of SMT-LIB 2.6, as far as this project reads
//! them.
//!
//! Start with [`read_formula`]. A list is read by a plan, which says what is read behind its head and what comes of it;
//! `specs/Reading.antt` of `smtlib_terms` says which meaning a tree has, or which kind of refusal.

#![tactic(auto)]

mod defining;
mod macros;
mod making;
mod numeral;
mod plan;
mod reading;
mod scope;

pub use defining::{check_definition, define_macro, read_closed_term, read_formula};
