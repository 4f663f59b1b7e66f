//! A merge of two classes.

/// Two nodes that were joined, and so their classes.
#[derive(Clone, Copy, Debug, PartialEq, Eq)]
pub struct Merge {
    pub left: usize,
    pub right: usize,
    /// The class whose members went over to the other.
    pub went: usize,
    /// The class that has the members of both.
    pub stayed: usize,
    /// A number of the caller's, which is only kept.
    pub reason: usize,
}
