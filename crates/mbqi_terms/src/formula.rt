//! Formulas.

use crate::sort::Binders;
use crate::term::{ArrayTerm, Term};
use sqlite_items::{Boxed, Items};

/// The formulas of a list, in order.
pub type Formulas = Items<Formula>;

/// A formula, as SMT-LIB 2.6 terms of sort Bool are read.
#[derive(Drop)]
pub enum Formula {
    /// `true` or `false`.
    Truth(bool),
    /// A term of sort Bool that is no `Truth`.
    Atom(Term),
    /// `=` of two terms of Int or of one declared sort.
    Equal(Term, Term),
    /// `<=` of two terms of Int.
    AtMost(Term, Term),
    /// `=` of two array terms of one sort.
    SameArray(ArrayTerm, ArrayTerm),
    /// `not`
    Not(Boxed<Formula>),
    /// `and` of at least two parts.
    All(Formulas),
    /// `or` of at least two parts.
    Any(Formulas),
    /// `=` of two formulas.
    Iff(Boxed<Formula>, Boxed<Formula>),
    /// `ite`: the condition, and the two branches.
    Choose(Boxed<Formula>, Boxed<Formula>, Boxed<Formula>),
    /// `forall` of at least one binder.
    Forall(Binders, Boxed<Formula>),
    /// `exists` of at least one binder.
    Exists(Binders, Boxed<Formula>),
}
