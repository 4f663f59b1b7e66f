//! The search on clauses, over any theory.
//!
//! Start with [`search`] and its answer [`Searched`]. The search keeps a trail of literals with their reasons (`trail`,
//! `step`): a literal was chosen, or a clause implies it (`adding`). Where there is no conflict, it goes over the clauses
//! (`passes`, `clause_truth`); a conflict is resolved with the reasons from the trail's end, and the last choice that it
//! has is turned (`going_back`, `resolvent`). `turns` has the turns of the search, and why they end.

#![tactic(auto)]

mod adding;
mod clause_truth;
mod going_back;
mod passes;
mod resolvent;
mod step;
mod trail;
mod turns;

pub use turns::{Searched, search};

#[cfg(test)]
mod tests;
