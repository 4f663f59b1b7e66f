//! Nodes: terms by the numbers of their arguments.

use crate::store::ids::TermIds;

/// What a term applies to its arguments. Array terms and array equalities are numbered by a store's lists.
#[derive(Clone, Copy, Debug, PartialEq, Eq, Hash)]
pub enum Head {
    /// The number 0.
    Zero,
    /// The variable of a place.
    Var(usize),
    /// `true` or `false`.
    Truth(bool),
    /// A declared function by its number.
    Declared(usize),
    /// The Skolem symbol of an assertion, by number, and of the place of a variable in it.
    Skolem(usize, usize),
    /// The element that stands for a declared sort, by number.
    Seed(usize),
    /// The integer past which each array over Int has its default.
    Far,
    /// The index at which the arrays of an equality differ.
    Diff(usize),
    /// A read of an array term; its one argument is the index.
    Read(usize),
    /// The default of an array term.
    Default(usize),
}

/// A term of a store: a head with the numbers of its arguments, plus a number. So a numeral is `Zero` plus it.
#[derive(PartialEq, Eq, Hash, Drop)]
pub struct Node {
    pub head: Head,
    pub args: TermIds,
    pub plus: i128,
}
