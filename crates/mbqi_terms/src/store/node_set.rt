//! The nodes of a store, each once, in the order in which they came.

ghost use Rattle.std.specs.Prelude.{◌≡◌, ◌≢◌, ℕ, ◌<◌, [], ◌∷◌, ◌++◌, length, take, None, Some, slice_get, IfSome, IfOk, OnErr};
ghost use Rattle.mbqi_terms.specs.Distinct.{Puts, AreDistinct};

use crate::store::node::Node;
use indexmap::IndexSet;
use std::alloc::{AllocError, Global};
use std::marker::Model;

/// A set of nodes that contracts see as the list of the nodes in order.
#[derive(Drop)]
pub(crate) struct NodeSet {
    nodes: IndexSet<Node>,
}

impl Model for NodeSet {
    ghost use Rattle.std.specs.Prelude.{List};
    ghost use Rattle.mbqi_terms.specs.declared.store.node.Node.{Node};

    ghost Value = { List Node };

    ghost view = { λ s. s.nodes.keys };
}

impl NodeSet {
    /// An empty set, which takes no memory.
    pub(crate) fn new(alloc: Global) -> NodeSet
        ensures { result ≡ [] }
    {
        NodeSet {
            nodes: IndexSet::new(alloc),
        }
    }

    /// How many nodes there are.
    pub(crate) fn len(&self) -> usize
        ensures { result ≡ length self.now }
    {
        self.nodes.len()
    }

    /// The nodes in order, no two of which are equal.
    pub(crate) fn as_slice(&self) -> &[Node]
        ensures nodes { result.now ≡ self.now }
        ensures distinct { AreDistinct self.now }
    {
        self.nodes.as_slice()
    }

    /// The place of the node, if it is there.
    pub(crate) fn place_of(&self, node: &Node) -> Option<usize>
        ensures found { IfSome result (λ place. slice_get self.now place ≡ Some node.now) }
        ensures missing { result ≡ None → (place : ℕ) → slice_get self.now place ≢ Some node.now }
    {
        self.nodes.get_index_of(node)
    }

    /// Puts the node last, where it isn't there yet, and gives its place.
    pub(crate) fn insert(&mut self, node: Node) -> Result<usize, AllocError>
        ensures ok { IfOk result (λ place. Puts self.old node place self.new) }
        ensures err { OnErr result (self.new ≡ self.old) }
    {
        let (place, _) = self.nodes.insert_full(node)?;
        Ok(place)
    }

    /// Keeps the first nodes alone.
    pub(crate) fn truncate(&mut self, len: usize)
        ensures { self.new ≡ take len self.old }
    {
        self.nodes.truncate(len);
    }
}
