//! The arguments of operators: what was read, with its measures, and how many and of which kind there are.
//!
//! Start with [`MeasuredMeaning`], what a tree means, with its measures. Contracts see meanings through `meaning_of`.

#![tactic(auto)]

mod arguments;
mod meaning;
mod queue;
mod sorts;

pub use arguments::{Meanings, are_at_least, as_formulas, as_integers, pair, sole, triple};
pub use meaning::{MeasuredMeaning, MeasuredSide};
pub use queue::Queue;
pub use sorts::{is_plain, is_sort, plain_sort};
