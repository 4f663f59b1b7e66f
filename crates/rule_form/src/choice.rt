//! Choices of instances.

use mbqi_terms::Terms;
use mbqi_values::Sequence;

/// Choices, in order.
pub type Choices = Sequence<Choice>;

/// A rule by its number, and a term of the pool for each of its variables, by place.
#[derive(Drop)]
pub struct Choice {
    pub rule: usize,
    pub terms: Terms,
}
