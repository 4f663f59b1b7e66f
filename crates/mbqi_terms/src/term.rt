//! Terms and array terms.

use crate::sort::Sort;
use sqlite_items::{Boxed, Items};

/// The terms of a list, in order.
pub type Terms = Items<Term>;

/// The array terms of a list, in order.
pub type ArrayTerms = Items<ArrayTerm>;

/// The function that a term applies.
#[cycle(ast)]
#[derive(Drop)]
pub enum Symbol {
    /// A declared function by its number.
    Declared(usize),
    /// The Skolem symbol of an assertion, by number, and of the place of a variable in it.
    Skolem(usize, usize),
    /// The element that stands for a declared sort, by number, where no other term has the sort.
    Seed(usize),
    /// The integer past which each array over Int has its default.
    Far,
    /// An index at which two arrays differ, where they differ at all.
    Diff(Boxed<ArrayTerm>, Boxed<ArrayTerm>),
}

/// A term that isn't of an array sort.
#[cycle(ast)]
#[derive(Drop)]
pub enum Term {
    /// A numeral.
    Num(i128),
    /// A term plus a number: the term is no `Num` and no `Plus`, and the number isn't 0.
    Plus(Boxed<Term>, i128),
    /// The variable of a place.
    Var(usize),
    /// `true` or `false`.
    Truth(bool),
    /// A symbol with its arguments.
    Apply(Symbol, Terms),
    /// `(select a i)`
    Read(Boxed<ArrayTerm>, Boxed<Term>),
    /// `(default a)`: the value that the array has at every large enough index.
    Default(Boxed<ArrayTerm>),
}

/// The function that a pointwise map applies: a declared one by its number, or a connective.
#[derive(Clone, Copy, Debug, PartialEq, Eq)]
pub enum MapOp {
    Declared(usize),
    And,
    Or,
    Not,
}

/// A term of an array sort.
#[cycle(ast)]
#[derive(Drop)]
pub enum ArrayTerm {
    /// A declared array by its number among the functions.
    Name(usize),
    /// `(store a i v)`
    Store(Boxed<ArrayTerm>, Boxed<Term>, Boxed<Term>),
    /// `((as const S) v)`, with the array sort S.
    Const(Sort, Boxed<Term>),
    /// `((_ map f) a ...)`
    Map(MapOp, ArrayTerms),
}
