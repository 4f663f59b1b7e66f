//! A theory of the tests.

ghost use Rattle.std.specs.Prelude.{◌≡◌, [], find, IsTrue};
ghost use Rattle.clause_search.specs.AtMostOne.{at_most_one, keeps_clash, refused_by, IsLawful};

use mbqi_values::{Lit, Values};
use std::alloc::{AllocError, Global};
use theory_trait::{Assumed, FreeTheory, Theory};

/// At most one atom is true.
#[derive(Debug, Drop)]
pub(crate) struct AtMostOne {
    literals: FreeTheory,
    clashed: bool,
    // After a clash: the true literal of the content, and the one that clashed.
    pair: [Lit; 2],
    ghost one: { IsTrue (at_most_one literals.content) },
    ghost kept: { IsTrue (keeps_clash clashed literals.content pair) },
}

// The first literal that takes its atom as true.
fn true_literal(lits: &[Lit]) -> Option<Lit>
    ensures { result ≡ find (λ lit. lit.yes) lits.now }
{
    lits.iter().copied().find(|lit| lit.yes)
}

impl AtMostOne {
    pub(crate) fn new(alloc: Global, atoms: usize) -> AtMostOne
        ensures atoms { result.literals.atoms ≡ atoms }
        ensures content { result.literals.content ≡ [] }
        ensures frames { result.literals.frames ≡ [] }
    {
        let none = Lit {
            atom: 0,
            yes: false,
        };
        AtMostOne {
            literals: FreeTheory::new(alloc, atoms),
            clashed: false,
            pair: [none, none],
        }
    }

    pub(crate) fn content(&self) -> &[Lit]
        ensures { result.now ≡ self.now.literals.content }
    {
        self.literals.content()
    }

    pub(crate) fn frames(&self) -> &[usize]
        ensures { result.now ≡ self.now.literals.frames }
    {
        self.literals.frames()
    }
}

impl Theory for AtMostOne {
    type Problem = usize;

    ghost problem = { λ t. t.literals.atoms };

    ghost atoms = { λ p. p };

    ghost lawful = { IsLawful };

    ghost content = { λ t. t.literals.content };

    ghost frames = { λ t. t.literals.frames };

    ghost spare = { λ t. t.literals.spare };

    ghost spare_frames = { λ t. t.literals.spare_frames };

    ghost clashed = { λ t. refused_by t.clashed t.pair };

    fn reserve(&mut self, literals: usize) -> Result<(), AllocError> {
        self.clashed = false;
        self.literals.reserve(literals)
    }

    fn assume(&mut self, lit: Lit) -> Assumed {
        match true_literal(self.literals.content()) {
            Some(other) if lit.yes => {
                self.pair = [other, lit];
                self.clashed = true;
                Assumed::Clash
            }
            _ => {
                self.clashed = false;
                self.literals.assume(lit)
            }
        }
    }

    fn clash(&self) -> &[Lit] {
        if self.clashed { &self.pair } else { &[] }
    }

    fn push(&mut self) {
        self.clashed = false;
        self.literals.push();
    }

    fn pop(&mut self) {
        self.clashed = false;
        self.literals.pop();
    }

    fn settle(&self, alloc: Global) -> Result<Values, AllocError> {
        let _content = self.literals.content();
        Ok(Values::new(alloc))
    }
}
