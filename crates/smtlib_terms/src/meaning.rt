//! What trees mean, as the definitions speak of it.

use mbqi_terms::{ArrayTerm, Formula, Plain, Sort, Term};

/// How deep what a tree means may be: a node is one deeper than the deepest of its parts, and an atom as deep as its term
/// (this project's own limit).
pub const DEPTH_LIMIT: usize = 1000;

/// What a tree of the profile means.
#[derive(Drop)]
pub enum Meaning {
    /// A formula: all that has sort Bool.
    Formula(Formula),
    /// A term of Int or of a declared sort.
    Term(Sort, Term),
    /// An array term, with the sorts of its index and its elements.
    Array(Plain, Plain, ArrayTerm),
}

/// What a tree means as an argument: its meaning, or the difference of two integers of which the second is no
/// numeral. Only an atom may have a difference.
#[derive(Drop)]
pub enum Side {
    Meant(Meaning),
    Difference(Term, Term),
}

/// What a name in scope stands for.
#[derive(Drop)]
pub enum Bound {
    /// A variable of a quantifier: its place and its sort.
    Variable(usize, Sort),
    /// The value of a `let` or the argument of a macro, whose variables were counted from this place on.
    Value(usize, Meaning),
}
