ghost use Rattle.std.specs.Prelude.{◌≡◌, ◌↔◌, ◌<◌, [], ◌∷◌, ◌++◌, length, slice_get, IsTrue, IfOk, OnOk, OnErr, OnSome};
ghost use Rattle.std.specs.Option.{option_copied};
ghost use Rattle.std.specs.Slice.Iter.{iter_rest};

use crate::lit::Lit;
use crate::value::Value;
use std::alloc::{AllocError, Global};
use std::marker::Model;
use std::slice;

/// A `Vec` that contracts see as the list of its items: without its capacity and its place in memory, so that
/// a contract can say that one equals what a definition computes. It is made from a `Vec` and gives it back
/// without taking memory.
#[derive(Debug, Drop)]
pub struct Sequence<T> {
    items: Vec<T>,
}

/// The bytes of a name or of a token.
pub type Text = Sequence<u8>;

/// A list of texts.
pub type Texts = Sequence<Text>;

/// A list of places or counts.
pub type Numbers = Sequence<usize>;

/// A list of whole numbers of terms.
pub type Offsets = Sequence<i128>;

/// The sizes of sorts.
pub type Sizes = Sequence<u64>;

/// A list of truths.
pub type Truths = Sequence<bool>;

/// A list of values.
pub type Values = Sequence<Value>;

/// The literals of a clause.
pub type Lits = Sequence<Lit>;

/// A list of clauses.
pub type LitLists = Sequence<Lits>;

impl<T> Model for Sequence<T> {
    ghost use Rattle.std.specs.Prelude.{List};
    ghost use Rattle.std.specs.Coded.{coded_list};

    ghost Value = { List T };

    ghost coded = { coded_list T.code };

    ghost view = { λ s. s.items.items };
}

impl<T> Sequence<T> {
    /// An empty list, which takes no memory.
    pub fn new(alloc: Global) -> Sequence<T>
        ensures { result ≡ [] }
    {
        Sequence {
            items: Vec::new(alloc),
        }
    }

    /// The list of the vector's items, which takes no memory.
    pub fn from_vec(items: Vec<T>) -> Sequence<T>
        ensures { result ≡ items.items }
    {
        Sequence { items }
    }

    /// The vector of the items, which takes no memory.
    pub fn into_vec(self) -> Vec<T>
        ensures { result.items ≡ self }
    {
        let Sequence { items } = self;
        items
    }

    /// The items.
    pub fn as_slice(&self) -> &[T]
        ensures { result.now ≡ self.now }
    {
        self.items.as_slice()
    }

    /// How many items there are.
    pub fn len(&self) -> usize
        ensures { result ≡ length self.now }
    {
        self.items.len()
    }

    /// Whether there is no item.
    pub fn is_empty(&self) -> bool
        ensures { IsTrue result ↔ (self.now ≡ []) }
    {
        self.items.is_empty()
    }

    /// The item at a place from 0, or `None` behind the last one.
    pub fn get(&self, at: usize) -> Option<&T>
        ensures value { option_copied result ≡ slice_get self.now at }
        ensures within { OnSome result (at < length self.now) }
    {
        self.items.get(at)
    }

    /// The items in order.
    pub fn iter(&self) -> slice::Iter<'_, T>
        ensures { iter_rest result ≡ self.now }
    {
        self.items.iter()
    }
}

impl<T: Drop> Sequence<T> {
    /// Adds an item at the end. After want of memory the list is as before.
    pub fn push(&mut self, item: T) -> Result<(), AllocError>
        ensures ok { OnOk result (self.new ≡ self.old ++ item ∷ []) }
        ensures err { OnErr result (self.new ≡ self.old) }
    {
        self.items.push(item)?;
        Ok(())
    }
}

impl<T: Copy> Sequence<T> {
    /// A copy of the items. The one error is want of memory.
    pub fn from_slice(alloc: Global, items: &[T]) -> Result<Sequence<T>, AllocError>
        ensures { IfOk result (λ s. s ≡ items.now) }
    {
        let items = Vec::from_slice(alloc, items)?;
        Ok(Sequence { items })
    }
}
