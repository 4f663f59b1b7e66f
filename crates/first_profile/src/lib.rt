//! The first profile as a test of scripts: one sort, its constants, predicates over it, and assertions that are clauses, with or without
//! variables.
//!
//! Start with [`is_elementary`]. What the profile is stands in `specs/Profile.antt` of the crate `element_atoms`. Each function here decides one
//! of its definitions, takes no memory, and looks at each part of a script once.

#![tactic(auto)]

mod clauses;
mod functions;
mod rules;
mod scripts;
#[cfg(test)]
mod tests;

pub use scripts::is_elementary;
