//! The term store: each term once, under a number.

mod build;
pub mod ids;
mod laws;
pub mod lists;
pub mod node;
mod node_set;
mod parts;
pub mod sorts;
pub mod term_store;

pub use ids::TermIds;
pub use lists::Lists;
pub use node::{Head, Node};
pub use term_store::TermStore;
