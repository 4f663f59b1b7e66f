//! Names that are found by one look-up.
//!
//! [`NameSet`] has the names of a list, each once, in the order in which they came. [`NameStack`] has names with
//! values, of which the last entry of a name counts.

#![tactic(auto)]

pub mod name_set;
pub mod name_stack;
#[cfg(test)]
mod tests;

pub use name_set::NameSet;
pub use name_stack::NameStack;
