ghost use Rattle.std.specs.Prelude.{◌≡◌, ℕ, ◌+◌, ◌<◌, ◌≤◌, List, [], ◌∷◌, ◌++◌, length, map, take, sum_by, max, IsOk, OnOk, OnErr};
ghost use Rattle.clause_region.specs.ClauseRegion.{AreLive, EndsRun, KeepsRuns, LiesWithin, literals_of, used_in};
ghost use Rattle.clause_region.specs.Run.{packed};
ghost use Rattle.clause_region.specs.declared.run.Run.{Run};

use crate::packing::pack;
use crate::run::{Mark, Run};
use mbqi_values::lit::Lit;
use std::alloc::{AllocError, Global};
use std::marker::Model;

/// One block that holds the literals of many clauses, each as a run of its own.
#[derive(Debug, Drop)]
pub struct ClauseRegion {
    lits: Vec<Lit>,
    // So many places behind the literals are reserved. The block may have more, of which nobody was told.
    spare: usize,
}

impl Model for ClauseRegion {
    ghost use Rattle.std.specs.Prelude.{◌+◌, ◌≤◌, vec_len, vec_capacity};
    ghost use Rattle.clause_region.specs.ClauseRegion.{Region};

    ghost Value = { Region };

    ghost view = { λ r. record { block = r.lits.items; spare = r.spare } };

    ghost invariant = { λ r. vec_len r.lits + r.spare ≤ vec_capacity r.lits };
}

impl ClauseRegion {
    /// A region without runs, which takes no memory.
    pub fn new(alloc: Global) -> ClauseRegion
        ensures { result ≡ record { block = []; spare = 0 } }
    {
        ClauseRegion {
            lits: Vec::new(alloc),
            spare: 0,
        }
    }

    /// Sees to it that at least `n` more literals can be placed. After want of memory the region is as before.
    pub fn reserve(&mut self, n: usize) -> Result<(), AllocError>
        ensures ok { OnOk result (self.new ≡ record self.old { spare = max self.old.spare n }) }
        ensures err { OnErr result (self.new ≡ self.old) }
        ensures enough { n ≤ self.old.spare → IsOk result }
    {
        self.lits.reserve(n)?;
        self.spare = self.spare.max(n);
        Ok(())
    }

    /// How many literals can still be placed.
    pub fn spare(&self) -> usize
        ensures { result ≡ self.now.spare }
    {
        self.spare
    }

    /// How many literals lie between the start of the block and its end in use.
    pub fn used(&self) -> usize
        ensures { result ≡ used_in self.now }
    {
        self.lits.len()
    }

    /// Copies the literals to the end in use, and gives the run that reads them.
    pub fn place(&mut self, lits: &[Lit]) -> Run
        requires some { 0 < length lits.now }
        requires room { length lits.now ≤ self.old.spare }
        ensures run { result ≡ record { start = used_in self.old; len = length lits.now } }
        ensures block { self.new.block ≡ self.old.block ++ lits.now }
        ensures spare { self.new.spare + length lits.now ≡ self.old.spare }

        // The new run reads what was placed, the others read as before, and it is live beside them.
        ensures reads { literals_of self.new result ≡ lits.now }
        ensures others { KeepsRuns (used_in self.old) self.old self.new }
        ensures live { (runs : List Run) → AreLive self.old runs → AreLive self.new (runs ++ result ∷ []) }
    {
        let start = self.lits.len();
        self.lits.extend_from_slice(lits).unwrap();
        self.spare -= lits.len();
        Run {
            start,
            len: lits.len(),
        }
    }

    /// Lends the literals of a run.
    pub fn run(&self, run: &Run) -> &[Lit]
        requires { LiesWithin (used_in self.now) run.now }
        ensures { result.now ≡ literals_of self.now run.now }
    {
        &self.lits[run.start..run.start + run.len]
    }

    /// A mark that `release` goes back to.
    pub fn mark(&self) -> Mark
        ensures { result.used ≡ used_in self.now }
    {
        Mark {
            used: self.lits.len(),
        }
    }

    /// Ends the runs that were placed after the mark. A sweep, or a release to an earlier mark, makes a mark
    /// void: what lies behind it may then be a part of a run.
    pub fn release(&mut self, mark: Mark)
        requires { mark.used ≤ used_in self.old }
        ensures block { self.new.block ≡ take mark.used self.old.block }
        ensures used { used_in self.new ≡ mark.used }
        ensures spare { self.new.spare + mark.used ≡ self.old.spare + used_in self.old }
        ensures others { KeepsRuns mark.used self.old self.new }
    {
        self.spare += self.lits.len() - mark.used;
        self.lits.truncate(mark.used);
    }

    /// Ends a run. Nothing moves: its places come back with the next sweep, which isn't told of it.
    pub fn drop_run(&mut self, run: Run)
        requires { LiesWithin (used_in self.old) run }
        ensures others { EndsRun run self.old self.new }
        ensures region { self.new ≡ self.old }
    {
        let _ended = run;
    }

    /// Moves the given runs together, to the start of the block, and gives the other places free. The slice
    /// holds the live runs by rising start. Empty runs are passed over and stay as they are. Marks are void
    /// afterwards.
    pub fn sweep(&mut self, runs: &mut [Run])
        requires { AreLive self.old runs.old }
        ensures reads { map (literals_of self.new) runs.new ≡ map (literals_of self.old) runs.old }
        ensures runs { runs.new ≡ packed 0 runs.old }
        ensures live { AreLive self.new runs.new }
        ensures used { used_in self.new ≡ sum_by (λ run. run.len) runs.old }
        ensures spare { self.new.spare + used_in self.new ≡ self.old.spare + used_in self.old }
    {
        let end = pack(&mut self.lits, runs);
        self.spare += self.lits.len() - end;
        self.lits.truncate(end);
    }
}
