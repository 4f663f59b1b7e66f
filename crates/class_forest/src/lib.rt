//! Classes of nodes that remember why they were joined, and can be parted again.
//!
//! Start with [`ClassForest`]. Each node is a class of its own at first. A [`Merge`] joins the classes of two nodes, and
//! the last one can be taken back, after which all is as it was before it.

#![tactic(auto)]

pub mod forest;
mod marks;
pub mod merge;
mod moving;
mod path;
#[cfg(test)]
mod tests;

pub use forest::ClassForest;
pub use merge::Merge;
