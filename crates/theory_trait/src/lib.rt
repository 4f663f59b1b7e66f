//! What a theory is to the search: which truths of numbered atoms go together.
//!
//! Start with the trait [`Theory`]; at the head of its file (`theory`) the calls are drawn. [`FreeTheory`] is the
//! plainest one, in which everything goes together.

#![tactic(auto)]

mod free;
mod theory;

pub use free::FreeTheory;
pub use theory::{Assumed, Theory};

#[cfg(test)]
mod tests;
