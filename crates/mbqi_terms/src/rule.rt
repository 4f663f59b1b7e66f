//! Rules: formulas without quantifiers under a list of binders.

use crate::formula::Formula;
use crate::sort::Binders;
use mbqi_values::Sequence;

/// The rules of a script, numbered from 0.
pub type Rules = Sequence<Rule>;

/// Which law of arrays a rule states.
#[derive(Clone, Copy, Debug, PartialEq, Eq)]
pub enum ArrayKind {
    /// A store read at its own index.
    Hit,
    /// A store read at another index.
    Miss,
    /// A constant array read anywhere.
    Const,
    /// A pointwise map read anywhere.
    Map,
    /// Equal arrays read anywhere.
    Equal,
    /// Arrays that aren't equal, read where they differ.
    Differ,
    /// An array over Int read far out, where it has its default.
    Far,
}

/// Where a rule comes from: an assertion by its number, or a law of arrays.
#[derive(Clone, Copy, Debug, PartialEq, Eq)]
pub enum Origin {
    Assertion(usize),
    Array(ArrayKind),
}

/// A formula without quantifiers that holds for all values of its binders.
#[derive(Drop)]
pub struct Rule {
    pub origin: Origin,
    pub binders: Binders,
    pub matrix: Formula,
}
