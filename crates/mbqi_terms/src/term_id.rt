//! The number of a term in a store.

/// A term of a store by its place there, from 0. In one store equal numbers stand for equal terms.
#[derive(Clone, Copy, Debug, Default, PartialEq, Eq, PartialOrd, Ord, Hash)]
pub struct TermId(pub usize);
