//! Rules, the assertions of a script with their variables open, and their ground instances.
//!
//! Start with [`chosen_lines`]: the instances of rules at terms of the pool, each a [`Choice`]. What an instance of any assertion is stands
//! in `specs/Instance.antt`, and what the rules of the first profile are in `specs/Rules.antt`.

#![tactic(auto)]

pub mod choice;
mod instances;
mod parts;

pub use choice::{Choice, Choices};
pub use instances::{chosen_lines, first_lines};
pub use parts::rule_parts;
