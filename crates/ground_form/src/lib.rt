//! Formulas without quantifiers as clauses over numbered atoms.
//!
//! Start with [`clauses_of`]: the clauses of a formula, over an [`AtomTable`] that gives each formula one number.

#![tactic(auto)]

pub mod clauses;
mod digest;
pub mod table;

pub use clauses::clauses_of;
pub use table::AtomTable;

#[cfg(test)]
mod tests;
