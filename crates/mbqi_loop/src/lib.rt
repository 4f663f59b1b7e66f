//! The loop that decides a script: it lists instances of rules that are false in a model of those listed before, until no rule fails in the
//! model, or the listed instances have none.
//!
//! Start with [`solve_rules`] and its answer [`Outcome`]. What its journal says stands in `specs/Journal.antt`, which valuations are plainly
//! lawful in the `specs/Lawful.antt` of mbqi_terms, and when instances are refuted in `specs/Refuted.antt`.

#![tactic(auto)]

mod decision;
mod listed;
pub mod outcome;
mod solve;
mod truths;

pub use outcome::{Journal, Outcome, Round};
pub use solve::solve_rules;
