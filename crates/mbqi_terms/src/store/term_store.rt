//! The store itself.

ghost use Rattle.std.specs.Prelude.{◌≡◌, ◌↔◌, ◌<◌, ◌≤◌, [], length, Some, All, IsTrue, slice_get, IfOk, OnErr};
ghost use Rattle.mbqi_terms.specs.Distinct.{AreDistinct};
ghost use Rattle.mbqi_terms.specs.Lists.{sort_of_term};
ghost use Rattle.mbqi_terms.specs.Store.{IsSound, IsNode, IsVariable, Interns, InternsSum, HasTree, tree_of_node, first};
ghost use Rattle.mbqi_terms.specs.Tree.{number_of, plus_of};
ghost use Rattle.mbqi_terms.specs.Form.{Suits};
ghost use Rattle.mbqi_values.specs.Sum.{IsBelow};
ghost use Rattle.mbqi_terms.specs.declared.sort.Sort.TheVariants.{Int};
ghost use Rattle.mbqi_terms.specs.declared.term.Term.{Term};

mod find;
mod put;

use crate::arrays::{Arrays, SkolemSorts};
use crate::script::Functions;
use crate::sort::Sort;
use crate::store::build::term_of;
use crate::store::ids::TermIds;
use crate::store::lists::Lists;
use crate::store::node::Node;
use crate::store::node_set::NodeSet;
use crate::store::sorts::sort_of_node;
use crate::term::Term;
use crate::term_id::TermId;
use mbqi_values::plus;
use sqlite_items::Items;
use std::alloc::{AllocError, Global};
use std::marker::Model;

/// A store of terms: each term once, and numbered by its place from 0.
#[derive(Drop)]
pub struct TermStore {
    lists: Lists,
    nodes: NodeSet,
}

impl Model for TermStore {
    ghost use Rattle.std.specs.Coded.{codes};
    ghost use Rattle.mbqi_terms.specs.contracts.term.ArrayTerm as array;
    ghost use Rattle.mbqi_terms.specs.Store.{Store, IsSound};

    ghost Value = { Store };

    ghost coded = { Prim.hlevel (codes, array.the_row.coded) };

    ghost view = { λ s. record { lists = s.lists; nodes = s.nodes } };

    ghost invariant = { λ s. IsSound (record { lists = s.lists; nodes = s.nodes }) };
}

impl TermStore {
    /// A store without terms, over the lists that heads number. It takes no memory.
    pub fn new(
        alloc: Global,
        functions: Functions,
        skolems: SkolemSorts,
        arrays: Arrays,
    ) -> TermStore
        requires terms { AreDistinct arrays.terms }
        requires pairs { AreDistinct arrays.atoms }
        ensures { result ≡ record { lists = record { functions = functions; skolems = skolems; arrays = arrays }; nodes = [] } }
    {
        TermStore {
            lists: Lists {
                functions,
                skolems,
                arrays,
            },
            nodes: NodeSet::new(alloc),
        }
    }

    /// The declared functions that the store was made with.
    pub fn functions(&self) -> &Functions
        ensures { result.now ≡ self.now.lists.functions }
    {
        &self.lists.functions
    }

    /// The Skolem symbols that the store was made with.
    pub fn skolems(&self) -> &SkolemSorts
        ensures { result.now ≡ self.now.lists.skolems }
    {
        &self.lists.skolems
    }

    /// The array terms and pairs that the store was made with.
    pub fn arrays(&self) -> &Arrays
        ensures { result.now ≡ self.now.lists.arrays }
    {
        &self.lists.arrays
    }

    /// How many terms there are.
    pub fn len(&self) -> usize
        ensures value { result ≡ length self.now.nodes }
        ensures sound { IsSound self.now }
    {
        self.nodes.len()
    }

    /// Whether there are none.
    pub fn is_empty(&self) -> bool
        ensures { IsTrue result ↔ (self.now.nodes ≡ []) }
    {
        self.nodes.len() == 0
    }

    /// A mark to which `release` brings the store back.
    pub fn mark(&self) -> usize
        ensures { result ≡ length self.now.nodes }
    {
        self.nodes.len()
    }

    /// Gives back all terms that came since the mark. The others keep their numbers.
    pub fn release(&mut self, mark: usize)
        requires { mark ≤ length self.old.nodes }
        ensures { self.new ≡ first mark self.old }
    {
        self.nodes.truncate(mark);
    }

    /// The node of a number.
    pub fn node(&self, id: TermId) -> &Node
        requires { id.0 < length self.now.nodes }
        ensures node { slice_get self.now.nodes id.0 ≡ Some result.now }
        ensures form { IsNode self.now result.now }
        ensures before { All (λ arg. arg.0 < id.0) result.now.args }
        ensures tree { HasTree self.now id (tree_of_node self.now result.now) }
        ensures plus { number_of (tree_of_node self.now result.now) ≡ result.now.plus }
    {
        &self.nodes.as_slice()[id.0]
    }

    /// The sort of a term by the store's lists.
    pub fn sort_of(&self, id: TermId) -> Sort
        requires stored { id.0 < length self.now.nodes }
        requires no_variable { (node : Node) → slice_get self.now.nodes id.0 ≡ Some node → ¬ IsVariable node.head }
        ensures { (t : Term) → HasTree self.now id t → sort_of_term self.now.lists t ≡ Some result }
    {
        match sort_of_node(&self.lists, self.node(id)) {
            Some(sort) => sort,
            None => unreachable!(),
        }
    }

    /// The number of the term of a node: the number that it has, or else the next one. After want of memory the
    /// store is as before.
    pub fn intern(&mut self, _alloc: Global, node: Node) -> Result<TermId, AllocError>
        requires { IsNode self.old node }
        ensures node { IfOk result (λ id. slice_get self.new.nodes id.0 ≡ Some node) }
        ensures tree { IfOk result (λ id. HasTree self.new id (tree_of_node self.old node)) }
        ensures store { IfOk result (λ id. Interns self.old node id self.new) }
        ensures err { OnErr result (self.new ≡ self.old) }
    {
        let place = self.nodes.insert(node)?;
        Ok(TermId(place))
    }

    /// The term of a number.
    pub fn tree(&self, alloc: Global, id: TermId) -> Result<Term, AllocError>
        requires { id.0 < length self.now.nodes }
        ensures { IfOk result (HasTree self.now id) }
    {
        let node = self.node(id);
        let mut args = Items::new(alloc);
        for arg in node.args.as_slice() {
            args.push(self.tree(alloc, *arg)?)?;
        }
        term_of(alloc, &self.lists, node.head, args, node.plus)
    }

    /// The number of the term plus `by`: numerals and sums take it up. After want of memory the store is as before.
    pub fn shift(&mut self, alloc: Global, id: TermId, by: i128) -> Result<TermId, AllocError>
        requires stored { id.0 < length self.old.nodes }
        requires integer { (t : Term) → HasTree self.old id t → Suits self.old.lists Int t }
        requires number { (t : Term) → HasTree self.old id t → IsBelow (number_of t) 124 }
        requires by { IsBelow by 124 }
        ensures tree { IfOk result (λ sum. (t : Term) → HasTree self.old id t → HasTree self.new sum (plus_of t by)) }
        ensures store { IfOk result (λ sum. InternsSum self.old id by sum self.new) }
        ensures err { OnErr result (self.new ≡ self.old) }
    {
        let node = self.node(id);
        let head = node.head;
        let args = TermIds::from_slice(alloc, node.args.as_slice())?;
        let plus = plus(node.plus, by);
        self.intern(alloc, Node { head, args, plus })
    }
}
