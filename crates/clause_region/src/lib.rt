//! One block of memory for the literals of many clauses.
//!
//! Start with [`region::ClauseRegion`]. A clause that is placed in it is named by its [`run::Run`] from then
//! on: a start and a length, which the owner of the clause keeps. The literals are copied once, when they are
//! placed, and are lent from the block after that.
//!
//! A run is live until its owner drops it, releases it with a [`run::Mark`], or leaves it out of a sweep. Each
//! live run reads as it was placed, whatever was placed, dropped, released or swept since. Memory is taken by
//! `reserve` alone.

#![tactic(auto)]

mod packing;
pub mod region;
pub mod run;
#[cfg(test)]
mod tests;

pub use region::ClauseRegion;
pub use run::{Mark, Run};
