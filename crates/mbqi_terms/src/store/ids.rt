//! Lists of term numbers.

ghost use Rattle.std.specs.Prelude.{◌≡◌, ◌↔◌, [], ◌∷◌, ◌++◌, length, IsTrue, IfOk, OnOk, OnErr};
ghost use Rattle.std.specs.Cmp.Lexicographic.{pointwise};
ghost use Rattle.std.specs.Hash as fed;

use crate::term_id::TermId;
use smallvec::SmallVec;
use std::alloc::{AllocError, Global};
use std::hash::{Hash, Hasher};
use std::marker::Model;

/// The numbers of a term's arguments, in order. Up to two lie in the value itself, so most terms need no memory
/// for them. Contracts see the list.
#[derive(Drop)]
pub struct TermIds {
    ids: SmallVec<TermId, 2>,
}

impl Model for TermIds {
    ghost use Rattle.std.specs.Prelude.{List};
    ghost use Rattle.mbqi_terms.specs.declared.term_id.TermId.{TermId};

    ghost Value = { List TermId };

    ghost view = { λ s. s.ids.items };
}

impl TermIds {
    /// An empty list, which takes no memory.
    pub fn new(alloc: Global) -> TermIds
        ensures { result ≡ [] }
    {
        TermIds {
            ids: SmallVec::new(alloc),
        }
    }

    /// A copy of a list.
    pub fn from_slice(alloc: Global, ids: &[TermId]) -> Result<TermIds, AllocError>
        ensures { IfOk result (λ list. list ≡ ids.now) }
    {
        let ids = SmallVec::from_slice(alloc, ids)?;
        Ok(TermIds { ids })
    }

    /// Adds a number at the end. After want of memory the list is as before.
    pub fn push(&mut self, id: TermId) -> Result<(), AllocError>
        ensures ok { OnOk result (self.new ≡ self.old ++ id ∷ []) }
        ensures err { OnErr result (self.new ≡ self.old) }
    {
        self.ids.push(id)?;
        Ok(())
    }

    /// The numbers.
    pub fn as_slice(&self) -> &[TermId]
        ensures { result.now ≡ self.now }
    {
        self.ids.as_slice()
    }

    /// How many there are.
    pub fn len(&self) -> usize
        ensures { result ≡ length self.now }
    {
        self.ids.len()
    }

    /// Whether there is none.
    pub fn is_empty(&self) -> bool
        ensures { IsTrue result ↔ (self.now ≡ []) }
    {
        self.ids.is_empty()
    }
}

impl PartialEq for TermIds {
    ghost use Rattle.std.specs.Cmp.Lexicographic.{lists_per};
    ghost use Rattle.mbqi_terms.specs.contracts.term_id.TermIdPartialEq.TheImpl as id;
    ghost use Rattle.mbqi_terms.specs.contracts.term_id.TermIdPartialEq.TheImpl.Laws as of_id;

    ghost eq = { λ a b. pointwise id.ghosts.eq a b };

    ghost laws = { lists_per of_id.laws-law };

    fn eq(&self, other: &Self) -> bool {
        self.as_slice() == other.as_slice()
    }
}

impl Eq for TermIds {
    ghost use Rattle.std.specs.Cmp.Lexicographic.{lists_equiv};
    ghost use Rattle.mbqi_terms.specs.contracts.term_id.TermIdEq.TheImpl.Laws as of_id;

    ghost laws = { lists_equiv of_id.laws-law };
}

impl Hash for TermIds {
    ghost use Rattle.std.specs.Hash.{items_Alike};
    ghost use Rattle.mbqi_terms.specs.contracts.term_id.TermIdHash.TheImpl as id;
    ghost use Rattle.mbqi_terms.specs.contracts.term_id.TermIdHash.TheImpl.Laws as of_id;

    ghost hash_input = { λ a. fed.slice id.ghosts.hash_input a };

    ghost respects_eq = { (items_Alike (record { fed = of_id.respects_eq-law })).fed };

    fn hash<H: Hasher>(&self, state: &mut H) {
        self.as_slice().hash(state);
    }
}
