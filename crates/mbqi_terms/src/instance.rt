//! Instances and the values of ground terms.

use crate::arrays::ArrayPairs;
use crate::formula::Formula;
use crate::term::Terms;
use mbqi_values::{Sequence, Truths, Values};

/// The instances of a refutation, in order.
pub type InstanceLines = Sequence<InstanceLine>;

/// An instance of an assertion, by number: the ground terms for its universal places, by place, and the
/// formula that it then is, without quantifiers and variables.
#[derive(Drop)]
pub struct InstanceLine {
    pub assertion: usize,
    pub terms: Terms,
    pub formula: Formula,
}

/// The value of each ground term of a list, and the truth of each pair of arrays: place k of `values` belongs
/// to place k of `terms`, and place k of `same` to place k of `pairs`. No term and no pair stands twice.
#[derive(Drop)]
pub struct Valuation {
    pub terms: Terms,
    pub values: Values,
    pub pairs: ArrayPairs,
    pub same: Truths,
}
