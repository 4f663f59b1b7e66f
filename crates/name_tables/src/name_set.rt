//! Names in the order in which they came, each once.

ghost use Rattle.std.specs.Prelude.{◌≡◌, ℕ, [], ◌∷◌, ◌++◌, false, length, position, nat_eq, take, slice_get, Some, is_some, IfSome, OnOk, OnErr};
ghost use Rattle.std.specs.Cmp.Lexicographic.{pointwise};
ghost use Rattle.std.specs.List.{list_any};
ghost use Rattle.name_tables.specs.Names.{with_name};

use indexmap::IndexSet;
use std::alloc::{AllocError, Global};
use std::marker::Model;

/// Names in the order in which they came, each once. Contracts see the list.
#[derive(Drop)]
pub struct NameSet {
    names: IndexSet<Vec<u8>>,
}

impl Model for NameSet {
    ghost use Rattle.std.specs.Prelude.{List, ℕ, map, nat_eq};
    ghost use Rattle.std.specs.Cmp.Lexicographic.{pointwise};
    ghost use Rattle.indexmap.specs.IndexSet.{IsUnique};

    ghost Value = { List (List ℕ) };

    ghost view = { λ s. map (λ v. v.items) s.names.keys };

    ghost invariant = { λ s. IsUnique (λ v w. pointwise nat_eq v.items w.items) s.names };
}

impl NameSet {
    /// An empty set, which takes no memory.
    pub fn new(alloc: Global) -> NameSet
        ensures { result ≡ [] }
    {
        NameSet {
            names: IndexSet::new(alloc),
        }
    }

    /// How many names there are.
    pub fn len(&self) -> usize
        ensures { result ≡ length self.now }
    {
        self.names.len()
    }

    /// The place of the name, counted from 0, if it is there.
    pub fn place_of(&self, name: &[u8]) -> Option<usize>
        ensures value { result ≡ position (λ other. pointwise nat_eq name.now other) self.now }
        ensures there { is_some result ≡ list_any (λ other. pointwise nat_eq other name.now) self.now }
        ensures found { IfSome result (λ place. slice_get self.now place ≡ Some name.now) }
        ensures only { IfSome result (λ place. (k : ℕ) → slice_get self.now k ≡ Some name.now → k ≡ place) }
    {
        self.names.get_index_of(name)
    }

    /// Whether the name is there.
    pub fn contains(&self, name: &[u8]) -> bool
        ensures { result ≡ list_any (λ other. pointwise nat_eq other name.now) self.now }
    {
        self.names.contains(name)
    }

    /// Puts the name last, unless it is there. The one error is want of memory: the set is then as before.
    pub fn insert(&mut self, alloc: Global, name: &[u8]) -> Result<(), AllocError>
        ensures ok { OnOk result (self.new ≡ with_name self.old name.now) }
        ensures err { OnErr result (self.new ≡ self.old) }
    {
        if self.contains(name) {
            return Ok(());
        }
        self.add(alloc, name)
    }

    /// Puts a name last that isn't there yet. After want of memory the set is as before.
    pub(crate) fn add(&mut self, alloc: Global, name: &[u8]) -> Result<(), AllocError>
        requires { list_any (λ other. pointwise nat_eq other name.now) self.old ≡ false }
        ensures ok { OnOk result (self.new ≡ self.old ++ name.now ∷ []) }
        ensures err { OnErr result (self.new ≡ self.old) }
    {
        self.names.insert(Vec::from_slice(alloc, name)?)?;
        Ok(())
    }

    /// Keeps the first names alone.
    pub fn truncate(&mut self, len: usize)
        ensures { self.new ≡ take len self.old }
    {
        self.names.truncate(len);
    }
}
