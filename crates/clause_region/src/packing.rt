ghost use Rattle.std.specs.Prelude.{◌≡◌, ℕ, ◌+◌, ◌<◌, ◌≤◌, length, take, drop, ◌++◌, map, sum_by, vec_capacity, vec_len};
ghost use Rattle.clause_region.specs.ClauseRegion.{LiesWithin, part};
ghost use Rattle.clause_region.specs.Run.{AreInOrder, moved_to, packed};

use crate::run::Run;
use mbqi_values::lit::Lit;

/// Moves a run to `end`, unless it is empty, and gives the place where it then ends.
fn move_run(lits: &mut Vec<Lit>, run: &mut Run, end: usize) -> usize
    requires within { 0 < run.old.len → LiesWithin (length lits.old.items) run.old }
    requires behind { 0 < run.old.len → end ≤ run.old.start }
    requires end_within { end ≤ length lits.old.items }
    ensures end { result ≡ end + run.old.len }
    ensures run { run.new ≡ moved_to end run.old }
    ensures front { take result lits.new.items ≡ take end lits.old.items ++ part lits.old.items run.old }
    ensures rest { drop result lits.new.items ≡ drop result lits.old.items }
    ensures len { vec_len lits.new ≡ vec_len lits.old }
    ensures capacity { vec_capacity lits.new ≡ vec_capacity lits.old }
{
    if run.len == 0 {
        return end;
    }
    lits.copy_within(run.start..run.start + run.len, end);
    run.start = end;
    end + run.len
}

/// Moves the runs together from the start of the block on, and gives the place where they end.
pub fn pack(lits: &mut Vec<Lit>, runs: &mut [Run]) -> usize
    requires { AreInOrder 0 (length lits.old.items) runs.old }
    ensures reads { map (part (take result lits.new.items)) runs.new ≡ map (part lits.old.items) runs.old }
    ensures runs { runs.new ≡ packed 0 runs.old }
    ensures order { AreInOrder 0 result runs.new }
    ensures end { result ≡ sum_by (λ run. run.len) runs.old }
    ensures within { result ≤ length lits.new.items }
    ensures len { vec_len lits.new ≡ vec_len lits.old }
    ensures capacity { vec_capacity lits.new ≡ vec_capacity lits.old }
{
    let mut end = 0;
    for run in runs.iter_mut() {
        end = move_run(lits, run, end);
    }
    end
}
