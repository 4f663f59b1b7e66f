//! Disjoint lists of numbers.

ghost use Rattle.std.specs.Prelude.{◌≡◌, ◌≢◌, ℕ, ◌<◌, length, slice_get, IfOk, IfSome};
ghost use Rattle.std.specs.List.{range_with_len};
ghost use Rattle.index_lists.specs.Lists.{all_in_first, AreDisjoint, each_alone, item_count, items_behind, items_from, items_of, list_of, moved_to};

use crate::links::Links;
use std::alloc::{AllocError, Global};
use std::marker::Model;

/// Lists by their numbers, each item in one of them. Contracts see the lists, each with its items from first to last.
///
/// A caller that walks a list by `first` and `next` has, at each turn, what it saw and what is still before it:
/// `seen ++ items_from lists at` are the items of the list, and the length of `items_from lists at` falls.
#[derive(Debug, Drop)]
pub struct IndexLists {
    links: Links,
    // By item, the list that it is in.
    list_of: Vec<usize>,
}

impl Model for IndexLists {
    ghost use Rattle.std.specs.Prelude.{List, ℕ};

    ghost Value = { List (List ℕ) };

    ghost use Rattle.index_lists.specs.Links.{FitTogether, lists_by};

    ghost view = { λ s. lists_by (record { first = s.links.first.items; next = s.links.next.items; previous = s.links.previous.items; list_of = s.list_of.items }) };

    ghost invariant = { λ s. FitTogether (record { first = s.links.first.items; next = s.links.next.items; previous = s.links.previous.items; list_of = s.list_of.items }) };
}

impl IndexLists {
    /// So many lists, with so many items, all in list 0 in rising order.
    pub fn new(alloc: Global, lists: usize, items: usize) -> Result<IndexLists, AllocError>
        requires { 0 < items → 0 < lists }
        ensures lists { IfOk result (λ all. all ≡ all_in_first lists items) }
        ensures list_count { IfOk result (λ all. length all ≡ lists) }
        ensures item_count { IfOk result (λ all. item_count all ≡ items) }
    {
        Ok(IndexLists {
            links: Links::new(alloc, lists, items)?,
            list_of: vec![in alloc; 0; items]?,
        })
    }

    /// So many lists and as many items, each item alone in the list of its own number.
    pub fn each_alone(alloc: Global, count: usize) -> Result<IndexLists, AllocError>
        ensures lists { IfOk result (λ all. all ≡ each_alone count) }
        ensures list_count { IfOk result (λ all. length all ≡ count) }
        ensures item_count { IfOk result (λ all. item_count all ≡ count) }
    {
        Ok(IndexLists {
            links: Links::each_alone(alloc, count)?,
            list_of: numbers_below(alloc, count)?,
        })
    }

    /// The list that the item is in.
    pub fn list_of(&self, item: usize) -> usize
        requires { item < item_count self.now }
        ensures value { result ≡ list_of self.now item }
        ensures within { result < length self.now }
        ensures disjoint { AreDisjoint self.now }
    {
        self.list_of[item]
    }

    /// The first item of a list, if it has any.
    pub fn first(&self, list: usize) -> Option<usize>
        requires { list < length self.now }
        ensures value { result ≡ slice_get (items_of self.now list) 0 }
        ensures walk { items_from self.now result ≡ items_of self.now list }
        ensures place { IfSome result (λ item. list_of self.now item ≡ list) }
        ensures within { IfSome result (λ item. item < item_count self.now) }
    {
        self.links.first[list]
    }

    /// The item that stands behind this one in its list, if any does.
    pub fn next(&self, item: usize) -> Option<usize>
        requires { item < item_count self.now }
        ensures value { result ≡ slice_get (items_behind self.now item) 0 }
        ensures walk { items_from self.now result ≡ items_behind self.now item }
        ensures place { IfSome result (λ other. list_of self.now other ≡ list_of self.now item) }
        ensures within { IfSome result (λ other. other < item_count self.now) }
    {
        self.links.next[item]
    }

    /// Takes the item out of its list and puts it at the front of this one, which may be the same.
    pub fn move_to(&mut self, item: usize, list: usize)
        requires item_within { item < item_count self.old }
        requires list_within { list < length self.old }
        ensures lists { self.new ≡ moved_to item list self.old }
        ensures list_count { length self.new ≡ length self.old }
        ensures item_count { item_count self.new ≡ item_count self.old }
        ensures place { list_of self.new item ≡ list }
        ensures others { (other : ℕ) → other < item_count self.old → other ≢ item → list_of self.new other ≡ list_of self.old other }
    {
        self.links.take_out(item, self.list_of[item]);
        self.links.put_first(item, list);
        self.list_of[item] = list;
    }
}

/// The numbers below this one, in rising order.
fn numbers_below(alloc: Global, count: usize) -> Result<Vec<usize>, AllocError>
    ensures { IfOk result (λ numbers. numbers.items ≡ range_with_len 0 count) }
{
    (0..count).collect(alloc)
}
