//! The values, kinds and counters that every other crate of mbqi names.
//!
//! Start with [`value::Value`], what a term stands for in a model, and [`status::Status`], what the
//! program answers. [`fault`] has the refusals of texts, [`sequence`] the list types that contracts see as
//! plain lists, and [`steps`] a counter without bytes.

#![tactic(auto)]

pub mod fault;
pub mod lit;
pub mod sequence;
pub mod status;
pub mod steps;
pub mod sum;
#[cfg(test)]
mod tests;
pub mod value;

pub use fault::{FaultKind, ReadError, Refusal};
pub use lit::Lit;
pub use sequence::{
    LitLists, Lits, Numbers, Offsets, Sequence, Sizes, Text, Texts, Truths, Values,
};
pub use status::Status;
pub use steps::Steps;
pub use sum::plus;
pub use value::Value;
