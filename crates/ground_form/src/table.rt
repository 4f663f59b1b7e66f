//! Formulas in the order in which they came, each once.

ghost use Rattle.std.specs.Prelude.{◌≡◌, ◌≢◌, ◌<◌, ℕ, false, [], ◌∷◌, ◌++◌, length, Option, Some, slice_get, IfOk, IfNone, IfSome, OnErr};
ghost use Rattle.mbqi_terms.specs.Distinct.{AreDistinct, Puts};
ghost use Rattle.ground_form.specs.Chains.{IsTable, formulas_of, last_before};
ghost use Rattle.ground_form.specs.Definitions.{is_not};
ghost use Rattle.ground_form.specs.Digests.{digest_of};

use crate::digest::digest_of;
use indexmap::IndexMap;
use mbqi_terms::{Formula, copy_formula, same_formula};
use std::alloc::{AllocError, Global};
use std::marker::Model;

/// Formulas in the order in which they came, each once and numbered by its place from 0: the atoms of clauses. None of them is
/// a negation, which has its part's atom. Contracts see the list.
#[derive(Drop)]
pub struct AtomTable {
    entries: Vec<Entry>,
    // By digest, the last formula that has it.
    lasts: IndexMap<u64, usize>,
}

/// A formula, with the place of the one of its digest that came before it, if there is one.
#[derive(Drop)]
struct Entry {
    formula: Formula,
    earlier: Option<usize>,
}

impl Model for AtomTable {
    ghost use Rattle.std.specs.Coded.{codes};
    ghost use Rattle.std.specs.Prelude.{List, nat_eq};
    ghost use Rattle.mbqi_terms.specs.contracts.formula.Formula as formulas;
    ghost use Rattle.mbqi_terms.specs.contracts.term.ArrayTerm as arrays;
    ghost use Rattle.indexmap.specs.IndexMap.{get};
    ghost use Rattle.mbqi_terms.specs.declared.formula.Formula.{Formula};
    ghost use Rattle.ground_form.specs.Chains.{IsTable, formulas_of};

    ghost Value = { List Formula };

    ghost coded = { Prim.hlevel (codes, formulas.the_row.coded, arrays.the_row.coded) };

    ghost view = { λ s. formulas_of s.entries.items };

    ghost invariant = { λ s. IsTable s.entries.items (get nat_eq s.lasts) };
}

impl AtomTable {
    /// A table without formulas, which takes no memory.
    pub fn new(alloc: Global) -> AtomTable
        ensures { result ≡ [] }
    {
        AtomTable {
            entries: Vec::new(alloc),
            lasts: IndexMap::new(alloc),
        }
    }

    /// How many formulas there are.
    pub fn len(&self) -> usize
        ensures { result ≡ length self.now }
    {
        self.entries.len()
    }

    /// The formula of an atom.
    pub fn formula(&self, atom: usize) -> &Formula
        requires { atom < length self.now }
        ensures formula { slice_get self.now atom ≡ Some result.now }
        ensures distinct { AreDistinct self.now }
        ensures positive { is_not result.now ≡ false }
    {
        &self.entries[atom].formula
    }

    /// The number of the formula, which comes last where it isn't there yet. After want of memory the table is as before.
    /// It takes time linear in the formula, and for each other one of its digest the time to tell the two apart.
    pub fn number(&mut self, alloc: Global, f: &Formula) -> Result<usize, AllocError>
        requires { is_not f.now ≡ false }
        ensures ok { IfOk result (λ atom. Puts self.old f.now atom self.new) }
        ensures err { OnErr result (self.new ≡ self.old) }
    {
        let digest = digest_of(f);
        let last = self.lasts.get(&digest).copied();
        if let Some(place) = place_of(self.entries.as_slice(), last, f) {
            return Ok(place);
        }
        self.add(copy_formula(alloc, f)?, digest, last)
    }

    /// No formula stands twice: a law, for the proof of a call that has the table.
    pub(crate) fn are_distinct(&self)
        ensures { AreDistinct self.now }
    {
        let _entries = &self.entries;
    }

    // Puts a formula last that isn't there yet, and whose digest the last one given has.
    fn add(
        &mut self,
        formula: Formula,
        digest: u64,
        last: Option<usize>,
    ) -> Result<usize, AllocError>
        requires new { (k : ℕ) → slice_get self.old k ≢ Some formula }
        requires positive { is_not formula ≡ false }
        requires digest { digest ≡ digest_of formula }
        requires last { last ≡ last_before self.old digest (length self.old) }
        ensures ok { IfOk result (λ atom. (atom ≡ length self.old) × (self.new ≡ self.old ++ formula ∷ [])) }
        ensures err { OnErr result (self.new ≡ self.old) }
    {
        let place = self.entries.len();
        self.entries.push(Entry {
            formula,
            earlier: last,
        })?;
        match self.lasts.insert(digest, place) {
            Ok(_) => Ok(place),
            Err(_) => {
                self.entries.pop();
                Err(AllocError)
            }
        }
    }
}

// The place of the formula, if it is there, where the last one of its digest is given.
fn place_of(entries: &[Entry], last: Option<usize>, f: &Formula) -> Option<usize>
    requires table { (lasts : ℕ → Option ℕ) × IsTable entries.now lasts }
    requires last { last ≡ last_before (formulas_of entries.now) (digest_of f.now) (length entries.now) }
    ensures found { IfSome result (λ place. slice_get (formulas_of entries.now) place ≡ Some f.now) }
    ensures absent { IfNone result ((k : ℕ) → slice_get (formulas_of entries.now) k ≢ Some f.now) }
{
    let mut next = last;
    while let Some(place) = next {
        let entry = &entries[place];
        if same_formula(&entry.formula, f) {
            return Some(place);
        }
        next = entry.earlier;
    }
    None
}
