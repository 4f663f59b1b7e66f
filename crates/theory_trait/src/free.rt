//! The plainest theory. It shows that the contract of a theory can be met, and serves where no theory is needed.

ghost use Rattle.std.specs.Prelude.{◌≡◌, [], None};
ghost use Rattle.theory_trait.specs.Content.{AtomsDiffer};
ghost use Rattle.theory_trait.specs.Free.{IsFreelyLawful};
ghost use Rattle.theory_trait.specs.Valuation.{HasValuation};

use crate::theory::{Assumed, Theory};
use mbqi_values::{Lit, Values};
use std::alloc::{AllocError, Global};
use std::marker::Model;

/// The plainest theory: each truth of each of its atoms is lawful, and it has no terms.
#[derive(Debug, Drop)]
pub struct FreeTheory {
    atoms: usize,
    content: Vec<Lit>,
    // The length of the content at the opening of each open frame.
    frames: Vec<usize>,
    // So many places behind the content and the frames are reserved.
    spare: usize,
    spare_frames: usize,
}

impl Model for FreeTheory {
    ghost use Rattle.std.specs.Prelude.{◌+◌, ◌≤◌, vec_len, vec_capacity};
    ghost use Rattle.theory_trait.specs.Free.{Free, IsInOrder};

    ghost Value = { Free };

    ghost view = { λ t. record {
      atoms = t.atoms;
      content = t.content.items;
      frames = t.frames.items;
      spare = t.spare;
      spare_frames = t.spare_frames;
    } };

    ghost invariant = { λ t. IsInOrder t.content.items t.frames.items
        × (vec_len t.content + t.spare ≤ vec_capacity t.content)
        × (vec_len t.frames + t.spare_frames ≤ vec_capacity t.frames) };
}

impl FreeTheory {
    /// The theory of the atoms below this number, with no content, no open frame and no room. It takes no memory.
    pub fn new(alloc: Global, atoms: usize) -> FreeTheory
        ensures state { result ≡ record { atoms = atoms; content = []; frames = []; spare = 0; spare_frames = 0 } }
        ensures has { HasValuation (IsFreelyLawful atoms) [] }
    {
        FreeTheory {
            atoms,
            content: Vec::new(alloc),
            frames: Vec::new(alloc),
            spare: 0,
            spare_frames: 0,
        }
    }

    /// The literals that were assumed, in their order. No two have one atom.
    pub fn content(&self) -> &[Lit]
        ensures content { result.now ≡ self.now.content }
        ensures differ { AtomsDiffer self.now.content }
    {
        self.content.as_slice()
    }

    /// The lengths of the content at which the open frames were opened, in their order.
    pub fn frames(&self) -> &[usize]
        ensures { result.now ≡ self.now.frames }
    {
        self.frames.as_slice()
    }
}

impl Theory for FreeTheory {
    type Problem = usize;

    ghost problem = { λ t. t.atoms };

    ghost atoms = { λ p. p };

    ghost lawful = { IsFreelyLawful };

    ghost content = { λ t. t.content };

    ghost frames = { λ t. t.frames };

    ghost spare = { λ t. t.spare };

    ghost spare_frames = { λ t. t.spare_frames };

    ghost clashed = { λ t. None };

    fn reserve(&mut self, literals: usize) -> Result<(), AllocError> {
        self.content.reserve(literals)?;
        self.spare = self.spare.max(literals);
        self.frames.reserve(literals)?;
        self.spare_frames = self.spare_frames.max(literals);
        Ok(())
    }

    fn assume(&mut self, lit: Lit) -> Assumed {
        self.content.push(lit).unwrap();
        self.spare -= 1;
        Assumed::Agree
    }

    fn clash(&self) -> &[Lit] {
        &[]
    }

    fn push(&mut self) {
        self.frames.push(self.content.len()).unwrap();
        self.spare_frames -= 1;
    }

    fn pop(&mut self) {
        let len = self.frames.pop().unwrap();
        self.spare_frames += 1;
        self.spare += self.content.len() - len;
        self.content.truncate(len);
    }

    fn settle(&self, alloc: Global) -> Result<Values, AllocError> {
        let _content = &self.content;
        Ok(Values::new(alloc))
    }
}
