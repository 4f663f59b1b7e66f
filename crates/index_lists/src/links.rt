//! The links of lists: which item each list begins with, and what stands before and behind each item.

ghost use Rattle.std.specs.Prelude.{◌≡◌, ◌<◌, ◌+◌, None, Some, map, replicate, slice_set, vec_len, IfOk, IfSome};
ghost use Rattle.std.specs.List.{range_with_len};
ghost use Rattle.index_lists.specs.Links.{first_links, first_without, link_of, next_links, previous_links, with_link};

use std::alloc::{AllocError, Global};

/// By list its first item, and by item the ones behind and before it in its list.
#[derive(Debug, Drop)]
pub(crate) struct Links {
    pub(crate) first: Vec<Option<usize>>,
    pub(crate) next: Vec<Option<usize>>,
    pub(crate) previous: Vec<Option<usize>>,
}

impl Links {
    /// The links of so many lists, with so many items all in list 0.
    pub(crate) fn new(alloc: Global, lists: usize, items: usize) -> Result<Links, AllocError>
        requires { 0 < items → 0 < lists }
        ensures first { IfOk result (λ links. links.first.items ≡ first_links lists items) }
        ensures next { IfOk result (λ links. links.next.items ≡ next_links items) }
        ensures previous { IfOk result (λ links. links.previous.items ≡ previous_links items) }
    {
        Ok(Links {
            first: first_links(alloc, lists, items)?,
            next: next_links(alloc, items)?,
            previous: previous_links(alloc, items)?,
        })
    }

    /// The links of so many lists, with the item of its own number alone in each.
    pub(crate) fn each_alone(alloc: Global, count: usize) -> Result<Links, AllocError>
        ensures first { IfOk result (λ links. links.first.items ≡ map Some (range_with_len 0 count)) }
        ensures next { IfOk result (λ links. links.next.items ≡ replicate count None) }
        ensures previous { IfOk result (λ links. links.previous.items ≡ replicate count None) }
    {
        Ok(Links {
            first: links_to_all(alloc, count)?,
            next: vec![in alloc; None; count]?,
            previous: vec![in alloc; None; count]?,
        })
    }

    /// Takes an item out of its list: what stood before it and what stood behind it now stand together.
    pub(crate) fn take_out(&mut self, item: usize, list: usize)
        requires item { item < vec_len self.old.next }
        requires list { list < vec_len self.old.first }
        requires length { vec_len self.old.previous ≡ vec_len self.old.next }
        requires next { IfSome (link_of self.old.next.items item) (λ next. next < vec_len self.old.next) }
        requires previous { IfSome (link_of self.old.previous.items item) (λ previous. previous < vec_len self.old.next) }
        ensures first { self.new.first.items ≡ first_without (link_of self.old.previous.items item) list (link_of self.old.next.items item) self.old.first.items }
        ensures next { self.new.next.items ≡ with_link (link_of self.old.previous.items item) (link_of self.old.next.items item) self.old.next.items }
        ensures previous { self.new.previous.items ≡ with_link (link_of self.old.next.items item) (link_of self.old.previous.items item) self.old.previous.items }
    {
        let next = self.next[item];
        let previous = self.previous[item];
        match previous {
            Some(other) => self.next[other] = next,
            None => self.first[list] = next,
        }
        if let Some(other) = next {
            self.previous[other] = previous;
        }
    }

    /// Puts an item that is in no list at the front of this one.
    pub(crate) fn put_first(&mut self, item: usize, list: usize)
        requires item { item < vec_len self.old.next }
        requires list { list < vec_len self.old.first }
        requires length { vec_len self.old.previous ≡ vec_len self.old.next }
        requires front { IfSome (link_of self.old.first.items list) (λ front. front < vec_len self.old.next) }
        ensures first { self.new.first.items ≡ slice_set self.old.first.items list (Some item) }
        ensures next { self.new.next.items ≡ slice_set self.old.next.items item (link_of self.old.first.items list) }
        ensures previous { self.new.previous.items ≡ slice_set (with_link (link_of self.old.first.items list) (Some item) self.old.previous.items) item None }
    {
        let front = self.first[list];
        if let Some(other) = front {
            self.previous[other] = Some(item);
        }
        self.next[item] = front;
        self.previous[item] = None;
        self.first[list] = Some(item);
    }
}

/// By list, its first item.
fn first_links(alloc: Global, lists: usize, items: usize) -> Result<Vec<Option<usize>>, AllocError>
    requires { 0 < items → 0 < lists }
    ensures { IfOk result (λ links. links.items ≡ first_links lists items) }
{
    let mut links = vec![in alloc; None; lists]?;
    if items > 0 {
        links[0] = Some(0);
    }
    Ok(links)
}

/// By item, the one behind it.
fn next_links(alloc: Global, items: usize) -> Result<Vec<Option<usize>>, AllocError>
    ensures { IfOk result (λ links. links.items ≡ next_links items) }
{
    let last = items.saturating_sub(1);
    (0..items)
        .map(|item| if item < last { Some(item + 1) } else { None })
        .collect(alloc)
}

/// By item, the one before it.
fn previous_links(alloc: Global, items: usize) -> Result<Vec<Option<usize>>, AllocError>
    ensures { IfOk result (λ links. links.items ≡ previous_links items) }
{
    (0..items)
        .map(|item| if item > 0 { Some(item - 1) } else { None })
        .collect(alloc)
}

/// Links to the items below this number, in rising order.
fn links_to_all(alloc: Global, count: usize) -> Result<Vec<Option<usize>>, AllocError>
    ensures { IfOk result (λ links. links.items ≡ map Some (range_with_len 0 count)) }
{
    (0..count).map(Some).collect(alloc)
}
