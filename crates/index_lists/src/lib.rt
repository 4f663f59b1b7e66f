//! Disjoint lists of numbers, in arrays of fixed length.
//!
//! Start with [`IndexLists`]. It has so many lists and so many items, both numbered from 0 on, and each item is in one
//! of the lists. Each call is one step, and memory is taken by [`IndexLists::new`] alone.
//!
//! A list is walked from its first item by `next`, until there is none:
//!
//! ```text
//! let mut at = lists.first(list);
//! while let Some(item) = at {
//!     ..
//!     at = lists.next(item);
//! }
//! ```

#![tactic(auto)]

pub mod index_lists;
mod links;
#[cfg(test)]
mod tests;

pub use index_lists::IndexLists;
