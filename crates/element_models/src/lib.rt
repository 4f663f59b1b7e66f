//! Full models of elementary scripts: each ground term is an element of its own, and ground atoms have given truths.
//!
//! Start with [`element_model`].

#![tactic(auto)]

mod elements;
mod model;
mod rows;

pub use model::element_model;

#[cfg(test)]
mod tests;
