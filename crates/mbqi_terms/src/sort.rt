//! Sorts and the variables that have them.

ghost use Rattle.std.specs.Prelude.{◌≡◌};
ghost use Rattle.mbqi_terms.specs.Sort.{plain_of, plain_sort, index_of, element_of};

use mbqi_values::Sequence;

/// A list of sorts, in order.
pub type Sorts = Sequence<Sort>;

/// The binders of a quantifier or a rule, in order of the text.
pub type Binders = Sequence<Binder>;

/// A sort that an array may have as its index or its element: SMT-LIB 2.6's Bool, Int, or a declared
/// sort by its number.
#[derive(Clone, Copy, Debug, PartialEq, Eq)]
pub enum Plain {
    Truth,
    Int,
    Elem(usize),
}

/// A sort of the profile: Bool, Int, a declared sort by its number, or `(Array I E)` with the sorts of
/// its index and its elements.
#[derive(Clone, Copy, Debug, PartialEq, Eq)]
pub enum Sort {
    Truth,
    Int,
    Elem(usize),
    Array(Plain, Plain),
}

/// A variable of a quantifier: its place among the variables of its assertion, from 0 in order of the
/// text, and its sort.
#[derive(Clone, Copy, Debug, PartialEq, Eq)]
pub struct Binder {
    pub place: usize,
    pub sort: Sort,
}

impl Plain {
    /// The same as a sort.
    pub fn sort(self) -> Sort
        ensures { result ≡ plain_sort self }
    {
        match self {
            Plain::Truth => Sort::Truth,
            Plain::Int => Sort::Int,
            Plain::Elem(sort) => Sort::Elem(sort),
        }
    }
}

impl Sort {
    /// The same as a part of an array: none for an array sort.
    pub fn as_plain(self) -> Option<Plain>
        ensures { result ≡ plain_of self }
    {
        match self {
            Sort::Truth => Some(Plain::Truth),
            Sort::Int => Some(Plain::Int),
            Sort::Elem(sort) => Some(Plain::Elem(sort)),
            Sort::Array(_, _) => None,
        }
    }

    /// The sort of the indices: none where it is no array sort.
    pub fn index(self) -> Option<Sort>
        ensures { result ≡ index_of self }
    {
        match self {
            Sort::Array(index, _) => Some(index.sort()),
            _ => None,
        }
    }

    /// The sort of the elements: none where it is no array sort.
    pub fn element(self) -> Option<Sort>
        ensures { result ≡ element_of self }
    {
        match self {
            Sort::Array(_, element) => Some(element.sort()),
            _ => None,
        }
    }
}
