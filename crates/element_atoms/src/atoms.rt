//! Ground atoms and their table.

ghost use Rattle.std.specs.Prelude.{◌≡◌, [], length, IfOk, OnErr};
ghost use Rattle.mbqi_terms.specs.Distinct.{Puts, AreDistinct};
ghost use Rattle.element_atoms.specs.Atoms.{truth_in};

use indexmap::IndexSet;
use mbqi_terms::TermIds;
use std::alloc::{AllocError, Global};
use std::marker::Model;

/// A predicate, by its number among the functions, of terms of a pool, by their numbers there.
#[derive(PartialEq, Eq, Hash, Drop)]
pub struct GroundAtom {
    pub predicate: usize,
    pub args: TermIds,
}

/// Atoms in the order in which they came, each once and numbered by its place from 0. Contracts see the list.
#[derive(Drop)]
pub struct AtomTable {
    atoms: IndexSet<GroundAtom>,
}

impl Model for AtomTable {
    ghost use Rattle.std.specs.Prelude.{List};
    ghost use Rattle.element_atoms.specs.declared.atoms.GroundAtom.{GroundAtom};

    ghost Value = { List GroundAtom };

    ghost view = { λ table. table.atoms.keys };
}

impl AtomTable {
    /// A table without atoms, which takes no memory.
    pub fn new(alloc: Global) -> AtomTable
        ensures { result ≡ [] }
    {
        AtomTable {
            atoms: IndexSet::new(alloc),
        }
    }

    /// How many atoms there are.
    pub fn len(&self) -> usize
        ensures { result ≡ length self.now }
    {
        self.atoms.len()
    }

    /// The atoms in order, no two of which are equal.
    pub fn as_slice(&self) -> &[GroundAtom]
        ensures atoms { result.now ≡ self.now }
        ensures distinct { AreDistinct self.now }
    {
        self.atoms.as_slice()
    }

    /// The number of the atom, which comes last where it isn't there yet. After want of memory the table is as
    /// before.
    pub fn number(&mut self, atom: GroundAtom) -> Result<usize, AllocError>
        ensures ok { IfOk result (λ place. Puts self.old atom place self.new) }
        ensures err { OnErr result (self.new ≡ self.old) }
    {
        let (place, _) = self.atoms.insert_full(atom)?;
        Ok(place)
    }

    /// The truth of the atom, where each atom of the table has a truth, in order: false where it isn't there.
    pub fn truth(&self, truths: &[bool], atom: &GroundAtom) -> bool
        requires { length truths.now ≡ length self.now }
        ensures { result ≡ truth_in self.now truths.now atom.now }
    {
        match self.atoms.get_index_of(atom) {
            Some(place) => truths[place],
            None => false,
        }
    }
}
