//! Ground formulas of the first profile as clauses over numbered atoms.
//!
//! Start with [`clauses_of`]: the clauses of ground formulas, over an [`AtomTable`] that numbers each atom once. The arguments
//! of an atom are numbered by a [`Pool`], the list of the ground terms that stand for elements.

#![tactic(auto)]

pub mod atoms;
pub mod clauses;
pub mod pool;

pub use atoms::{AtomTable, GroundAtom};
pub use clauses::{clauses_of, declared};
pub use pool::{Pool, pool_of};

#[cfg(test)]
mod tests;
