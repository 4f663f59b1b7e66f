//! The lists that number what a store of terms speaks of besides declared functions.

use crate::sort::{Sort, Sorts};
use crate::term::{ArrayTerm, ArrayTerms};
use mbqi_values::Sequence;

/// A list of pairs of arrays, in order.
pub type ArrayPairs = Sequence<ArrayPair>;

/// The Skolem symbols of a script with their sorts.
pub type SkolemSorts = Sequence<SkolemSort>;

/// Two array terms of one sort whose equality is an atom.
#[derive(Drop)]
pub struct ArrayPair {
    pub left: ArrayTerm,
    pub right: ArrayTerm,
}

/// The array terms that are read, the pairs whose equality is an atom, and the array terms whose default
/// is named.
#[derive(Drop)]
pub struct Arrays {
    pub terms: ArrayTerms,
    pub atoms: ArrayPairs,
    pub defaults: ArrayTerms,
}

/// The Skolem symbol of an assertion, by number, and of the place of a variable in it, with the sorts of its
/// arguments and of its result.
#[derive(Drop)]
pub struct SkolemSort {
    pub assertion: usize,
    pub place: usize,
    pub args: Sorts,
    pub result: Sort,
}
