//! Classes of nodes, by the log of their merges.

ghost use Rattle.std.specs.List.{Contains, IsDistinct};
ghost use Rattle.std.specs.Prelude.{◌≡◌, ◌≢◌, ◌↔◌, ℕ, ◌-◌, ◌<◌, ◌≤◌, [], ◌∷◌, ◌++◌, Some, length, nat_eq, take, slice_get, IfOk, IsTrue};
ghost use Rattle.index_lists.specs.Lists.{behind, has};
ghost use Rattle.class_forest.specs.Classes.{class_of, members, merge_of, IsLog, IsMerge};
ghost use Rattle.class_forest.specs.Joined.{IsJoined};
ghost use Rattle.class_forest.specs.Marks.{with_mark};
ghost use Rattle.class_forest.specs.declared.merge.Merge.{Merge};

use crate::marks::Marks;
use crate::merge::Merge;
use crate::moving::move_items;
use index_lists::IndexLists;
use std::alloc::{AllocError, Global};
use std::marker::Model;

/// Classes of the nodes below a number, joined by merges and parted again by taking the last merge back.
///
/// Contracts see the merges in their order. Which class a node is in, and which members a class has in which order,
/// are functions of them.
#[derive(Debug, Drop)]
pub struct ClassForest {
    // By class its members.
    pub(crate) lists: IndexLists,
    // By class how many members it has, or had when it went.
    pub(crate) sizes: Vec<usize>,
    // By class the number of the merge in which it went.
    pub(crate) gone: Vec<Option<usize>>,
    // There is room for as many merges as there are nodes.
    pub(crate) log: Vec<Merge>,
    pub(crate) marks: Marks,
}

impl Model for ClassForest {
    ghost use Rattle.std.specs.Prelude.{◌≡◌, ◌≤◌, vec_capacity, vec_len};
    ghost use Rattle.class_forest.specs.Forest.{Forest};
    ghost use Rattle.class_forest.specs.Kept.{IsKept};

    ghost Value = { Forest };

    ghost view = { λ f. record { nodes = vec_len f.sizes; log = f.log.items; marks = f.marks.marks } };

    ghost invariant = { λ f. IsKept (vec_len f.sizes) f.log.items f.lists f.sizes.items f.gone.items × (vec_len f.sizes ≤ vec_capacity f.log) × (f.marks.room ≡ vec_len f.sizes) };
}

impl ClassForest {
    /// So many nodes, each a class of its own. This call alone takes memory.
    pub fn new(alloc: Global, nodes: usize) -> Result<ClassForest, AllocError>
        ensures { IfOk result (λ forest. forest ≡ record { nodes = nodes; log = []; marks = [] }) }
    {
        let lists = IndexLists::each_alone(alloc, nodes)?;
        let sizes = vec![in alloc; 1; nodes]?;
        let gone = vec![in alloc; None; nodes]?;
        let log = Vec::with_capacity(alloc, nodes)?;
        let marks = Marks::new(alloc, nodes)?;
        Ok(ClassForest {
            lists,
            sizes,
            gone,
            log,
            marks,
        })
    }

    /// The class of a node.
    pub fn class(&self, node: usize) -> usize
        requires { node < self.now.nodes }
        ensures value { result ≡ class_of self.now.log node }
        ensures within { result < self.now.nodes }
    {
        self.lists.list_of(node)
    }

    /// How many members the class has. One that went has none.
    pub fn size(&self, class: usize) -> usize
        requires { class < self.now.nodes }
        ensures { result ≡ length (members self.now.log class) }
    {
        match self.gone[class] {
            Some(_) => 0,
            None => self.sizes[class],
        }
    }

    /// The first member of the class, if it has any.
    pub fn first(&self, class: usize) -> Option<usize>
        requires { class < self.now.nodes }
        ensures { result ≡ slice_get (members self.now.log class) 0 }
    {
        self.lists.first(class)
    }

    /// The member that stands behind this one in its class, if any does.
    pub fn next(&self, node: usize) -> Option<usize>
        requires { node < self.now.nodes }
        ensures { result ≡ slice_get (behind node (members self.now.log (class_of self.now.log node))) 0 }
    {
        self.lists.next(node)
    }

    /// Joins the classes of two nodes. The members of the smaller class go over to the larger one, those of the right
    /// one if both have one size. The reason is a number that is only kept.
    pub fn merge(&mut self, left: usize, right: usize, reason: usize)
        requires left_within { left < self.old.nodes }
        requires right_within { right < self.old.nodes }
        requires apart { class_of self.old.log left ≢ class_of self.old.log right }
        ensures { self.new ≡ record self.old { log = self.old.log ++ merge_of self.old.log left right reason ∷ [] } }
    {
        let merge = self.merge_of(left, right, reason);
        self.join(merge);
    }

    /// Takes the last merge back. Marks stay as they are.
    pub fn undo(&mut self)
        requires { 0 < length self.old.log }
        ensures { self.new ≡ record self.old { log = take (length self.old.log - 1) self.old.log } }
    {
        let merge = self.log.pop().unwrap();
        let size = self.sizes[merge.went];
        move_items(&mut self.lists, size, merge.stayed, merge.went);
        self.sizes[merge.stayed] -= size;
        self.gone[merge.went] = None;
    }

    /// How many merges there were, without those that were taken back.
    pub fn merges(&self) -> usize
        ensures { result ≡ length self.now.log }
    {
        self.log.len()
    }

    /// The merge of this number, the first one's being 0.
    pub fn merge_at(&self, number: usize) -> Merge
        requires { number < length self.now.log }
        ensures { slice_get self.now.log number ≡ Some result }
    {
        self.log[number]
    }

    /// Makes a merge that can come after those before.
    fn join(&mut self, merge: Merge)
        requires { IsMerge self.old.nodes self.old.log merge }
        ensures { self.new ≡ record self.old { log = self.old.log ++ merge ∷ [] } }
    {
        let number = self.log.len();
        let size = self.sizes[merge.went];
        move_items(&mut self.lists, size, merge.went, merge.stayed);
        self.sizes[merge.stayed] += size;
        self.gone[merge.went] = Some(number);
        self.log.push(merge).unwrap();
    }

    /// Whether the merge of this number is marked.
    pub fn is_marked(&self, number: usize) -> bool
        requires { number < length self.now.log }
        ensures { IsTrue result ↔ Contains self.now.marks number }
    {
        self.marks.is_marked(number)
    }

    /// The numbers of the marked merges, each once, in the order in which they were marked.
    pub fn marked(&self) -> &[usize]
        ensures marks { result.now ≡ self.now.marks }
        ensures once { IsDistinct nat_eq self.now.marks }
    {
        self.marks.marked()
    }

    /// Takes all marks away, in as many steps as there are.
    pub fn unmark_all(&mut self)
        ensures { self.new ≡ record self.old { marks = [] } }
    {
        self.marks.unmark_all();
    }

    /// What the merges say of the classes: each could come after those before it, there are no more of them than nodes,
    /// two nodes have one class exactly where merges join them, and the members of a class are the nodes whose class it is.
    pub fn laws(&self)
        ensures valid { IsLog self.now.nodes self.now.log }
        ensures fewer { length self.now.log ≤ self.now.nodes }
        ensures joined { (x y : ℕ) → (class_of self.now.log x ≡ class_of self.now.log y) ↔ IsJoined self.now.log x y }
        ensures members { (class node : ℕ) → IsTrue (has node (members self.now.log class)) ↔ (class_of self.now.log node ≡ class) }
    {
        let _log = &self.log;
    }

    /// Marks a merge, if it isn't marked.
    pub(crate) fn mark(&mut self, number: usize)
        requires { number < length self.old.log }
        ensures { self.new ≡ record self.old { marks = with_mark self.old.marks number } }
    {
        self.marks.mark(number);
    }

    /// The merge that joining the classes of two nodes would be.
    fn merge_of(&self, left: usize, right: usize, reason: usize) -> Merge
        requires left_within { left < self.now.nodes }
        requires right_within { right < self.now.nodes }
        ensures { result ≡ merge_of self.now.log left right reason }
    {
        let one = self.class(left);
        let other = self.class(right);
        let (went, stayed) = if self.size(one) < self.size(other) {
            (one, other)
        } else {
            (other, one)
        };
        Merge {
            left,
            right,
            went,
            stayed,
            reason,
        }
    }
}
