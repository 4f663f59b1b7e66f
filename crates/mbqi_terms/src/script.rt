//! Scripts: declared sorts and functions, and assertions.

use crate::formula::Formula;
use crate::sort::{Sort, Sorts};
use mbqi_values::{Sequence, Text, Texts};

/// The functions of a script, numbered from 0 in order of their declarations.
pub type Functions = Sequence<Function>;

/// The assertions of a script, numbered from 0 in order.
pub type Assertions = Sequence<Assertion>;

/// A declared function: its name, and the sorts of its arguments and of its result. One without arguments is
/// a constant, or an array where its result is one.
#[derive(Drop)]
pub struct Function {
    pub name: Text,
    pub args: Sorts,
    pub result: Sort,
}

/// An asserted formula, with the label that `:named` gave it.
#[derive(Drop)]
pub struct Assertion {
    pub label: Option<Text>,
    pub formula: Formula,
}

/// What an SMT-LIB script says: the names of its declared sorts, its functions, its assertions, and whether it
/// asks `(check-sat)`.
#[derive(Drop)]
pub struct Script {
    pub sorts: Texts,
    pub functions: Functions,
    pub assertions: Assertions,
    pub asks: bool,
}
