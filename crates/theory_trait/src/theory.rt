//! What the search asks of a theory.
//!
//! A theory is handed literals one by one and says whether they go together. Its states, and the calls between them:
//!
//! ```text
//!            .-- reserve, push, pop, assume: Agree --.
//!            v                                       |
//!   new --> open ------------------------------------'
//!            |  ^
//!  assume:   |  |  reserve, push, pop, assume: Agree
//!  Clash     v  |
//!          clashed ------ clash lends the reason
//! ```
//!
//! `settle` may be called in each of them.

ghost use Rattle.std.specs.Prelude.{◌≡◌, ℕ, ◌+◌, ◌-◌, ◌<◌, ◌≤◌, ◌∷◌, ◌++◌, [], Bool, List, Option, None, length, take, IfOk, OnOk, IfSome, OnSome};
ghost use Rattle.mbqi_values.specs.declared.lit.Lit.{Lit};
ghost use Rattle.mbqi_values.specs.declared.value.Value.{Value};
ghost use Rattle.theory_trait.specs.Assumed.{clashed_by, OnAgree, OnClash};
ghost use Rattle.theory_trait.specs.Content.{AreAmong, IsFree};
ghost use Rattle.theory_trait.specs.Frames.{last_frame};
ghost use Rattle.theory_trait.specs.Valuation.{HasNone, HasValuation, Satisfies};

use mbqi_values::{Lit, Values};
use std::alloc::{AllocError, Global};

/// What a theory says of one more literal.
#[derive(Clone, Copy, Debug, PartialEq, Eq)]
pub enum Assumed {
    /// The literal is added to the content.
    Agree,
    /// With the literal the content has no lawful valuation. The content stays.
    Clash,
}

/// Which truths of numbered atoms go together (satisfiability modulo theories; Nieuwenhuis, Oliveras and Tinelli 2006).
///
/// The content of a theory is the list of the literals that were assumed. It always has a lawful valuation. A frame
/// remembers a length of the content, to go back to.
pub trait Theory {
    /// What no call changes: which atoms the theory knows, and which valuations are lawful.
    type Problem;

    ghost problem: { Self → Self.Problem };

    /// It knows the atoms below this number.
    ghost atoms: { Self.Problem → ℕ };

    /// These values, one a term, may go with these truths of the atoms.
    ghost lawful: { Self.Problem → List Value → (ℕ → Bool) → Type 0 };

    /// The literals that were assumed, in their order.
    ghost content: { Self → List Lit };

    /// The lengths of the content at which the open frames were opened, in their order.
    ghost frames: { Self → List ℕ };

    /// For so many more literals, and for so many more frames, there is room.
    ghost spare: { Self → ℕ };

    ghost spare_frames: { Self → ℕ };

    /// The literal that the last call refused, if that call was an `assume` and answered Clash.
    ghost clashed: { Self → Option Lit };

    /// Sees to it that there is room for so many more literals, and for as many more frames. The error is want of memory.
    fn reserve(&mut self, literals: usize) -> Result<(), AllocError>
        ensures problem { problem self.new ≡ problem self.old }
        ensures content { content self.new ≡ content self.old }
        ensures frames { frames self.new ≡ frames self.old }
        ensures clashed { clashed self.new ≡ None }

        // Room that was there stays.
        ensures room { length (content self.old) + spare self.old ≤ length (content self.new) + spare self.new }
        ensures frame_room { length (frames self.old) + spare_frames self.old ≤ length (frames self.new) + spare_frames self.new }
        ensures enough { OnOk result (literals ≤ spare self.new) }
        ensures enough_frames { OnOk result (literals ≤ spare_frames self.new) };

    /// Adds a literal to the content, unless it then has no lawful valuation.
    fn assume(&mut self, lit: Lit) -> Assumed
        requires spare { 0 < spare self.old }
        requires known { lit.atom < atoms (problem self.old) }
        requires free { IsFree (content self.old) lit.atom }
        ensures problem { problem self.new ≡ problem self.old }
        ensures frames { frames self.new ≡ frames self.old }
        ensures clashed { clashed self.new ≡ clashed_by result lit }
        ensures room { length (content self.old) + spare self.old ≤ length (content self.new) + spare self.new }
        ensures frame_room { length (frames self.old) + spare_frames self.old ≤ length (frames self.new) + spare_frames self.new }

        // What the content then is.
        ensures agree { OnAgree result (content self.new ≡ content self.old ++ lit ∷ []) }
        ensures clash { OnClash result (content self.new ≡ content self.old) }

        // Clash comes exactly where the literal can't be added.
        ensures has { HasValuation (lawful (problem self.new)) (content self.new) }
        ensures none { OnClash result (HasNone (lawful (problem self.new)) (content self.old ++ lit ∷ [])) };

    /// Lends literals that have no lawful valuation, after a Clash. Each of them is of the content or the one that clashed.
    fn clash(&self) -> &[Lit]
        ensures part { IfSome (clashed self.now) (λ lit. AreAmong (content self.now ++ lit ∷ []) result.now) }
        ensures none { OnSome (clashed self.now) (HasNone (lawful (problem self.now)) result.now) };

    /// Opens a frame.
    fn push(&mut self)
        requires { 0 < spare_frames self.old }
        ensures problem { problem self.new ≡ problem self.old }
        ensures content { content self.new ≡ content self.old }
        ensures frames { frames self.new ≡ frames self.old ++ length (content self.old) ∷ [] }
        ensures clashed { clashed self.new ≡ None }
        ensures room { length (content self.old) + spare self.old ≤ length (content self.new) + spare self.new }
        ensures frame_room { length (frames self.old) + spare_frames self.old ≤ length (frames self.new) + spare_frames self.new };

    /// Closes the last frame. The content is then what it was when the frame was opened.
    fn pop(&mut self)
        requires { 0 < length (frames self.old) }
        ensures problem { problem self.new ≡ problem self.old }
        ensures content { content self.new ≡ take (last_frame (frames self.old)) (content self.old) }
        ensures frames { frames self.new ≡ take (length (frames self.old) - 1) (frames self.old) }
        ensures clashed { clashed self.new ≡ None }
        ensures room { length (content self.old) + spare self.old ≤ length (content self.new) + spare self.new }
        ensures frame_room { length (frames self.old) + spare_frames self.old ≤ length (frames self.new) + spare_frames self.new };

    /// Values, one for each term of the theory, that with some truths of the atoms are lawful and make the content true.
    /// The error is want of memory.
    fn settle(&self, alloc: Global) -> Result<Values, AllocError>
        ensures { IfOk result (Satisfies (lawful (problem self.now)) (content self.now)) };
}
