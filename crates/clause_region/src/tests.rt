ghost use Rattle.clause_region.specs.ClauseRegion.{LiesWithin, used_in};

use crate::{ClauseRegion, Run};
use mbqi_values::lit::Lit;
use std::process::Abort;
use std::test::Fail;

fn lit(atom: usize) -> Lit {
    Lit { atom, yes: true }
}

/// Asserts that the run reads the literals of these atoms.
fn assert_reads(rt: &impl Abort, region: &ClauseRegion, run: &Run, atoms: &[usize])
    requires { LiesWithin (used_in region.now) run.now }
{
    let lits = region.run(run);
    assert_eq!(rt; lits.len(), atoms.len());
    for (found, atom) in lits.iter().zip(atoms) {
        assert_eq!(rt; *found, lit(*atom));
    }
}

#[test]
fn swept_runs_lie_together(rt: HostRuntime) -> Result<(), Fail> {
    let mut region = ClauseRegion::new(rt.alloc());
    region.reserve(7)?;
    let first = region.place(&[lit(1), lit(2), lit(3)]);
    let second = region.place(&[lit(4), lit(5)]);
    let third = region.place(&[lit(6), lit(7)]);
    region.drop_run(second);
    let mut runs = [first, third];
    region.sweep(&mut runs);
    assert_eq!(rt; runs, [Run { start: 0, len: 3 }, Run { start: 3, len: 2 }]);
    assert_reads(&rt, &region, &runs[0], &[1, 2, 3]);
    assert_reads(&rt, &region, &runs[1], &[6, 7]);
    assert_eq!(rt; region.used(), 5);
    assert_eq!(rt; region.spare(), 2);
    Ok(())
}

#[test]
fn runs_read_as_placed_after_each_call(rt: HostRuntime) -> Result<(), Fail> {
    let mut region = ClauseRegion::new(rt.alloc());
    region.reserve(6)?;
    let first = region.place(&[lit(1), lit(2)]);
    let second = region.place(&[lit(3)]);
    let mark = region.mark();
    let third = region.place(&[lit(4), lit(5)]);
    assert_reads(&rt, &region, &third, &[4, 5]);

    // The third run ends, and another takes its place.
    region.release(mark);
    assert_eq!(rt; region.spare(), 3);
    let fourth = region.place(&[lit(6), lit(7), lit(8)]);
    assert_reads(&rt, &region, &first, &[1, 2]);
    assert_reads(&rt, &region, &second, &[3]);
    assert_reads(&rt, &region, &fourth, &[6, 7, 8]);

    // The first run ends, and the others move to its place.
    region.drop_run(first);
    let mut runs = [second, fourth];
    region.sweep(&mut runs);
    assert_reads(&rt, &region, &runs[0], &[3]);
    assert_reads(&rt, &region, &runs[1], &[6, 7, 8]);

    // A larger block, and a run behind the others.
    region.reserve(9)?;
    let fifth = region.place(&[lit(9)]);
    assert_reads(&rt, &region, &runs[0], &[3]);
    assert_reads(&rt, &region, &runs[1], &[6, 7, 8]);
    assert_reads(&rt, &region, &fifth, &[9]);
    Ok(())
}

#[test]
fn a_sweep_passes_empty_runs_over(rt: HostRuntime) -> Result<(), Fail> {
    let mut region = ClauseRegion::new(rt.alloc());
    region.sweep(&mut []);
    assert_eq!(rt; region.used(), 0);

    region.reserve(4)?;
    let first = region.place(&[lit(1)]);
    let second = region.place(&[lit(2), lit(3)]);
    region.drop_run(first);
    let mut runs = [Run { start: 0, len: 0 }, second, Run { start: 9, len: 0 }];
    region.sweep(&mut runs);
    assert_eq!(rt;
        runs,
        [
            Run { start: 0, len: 0 },
            Run { start: 0, len: 2 },
            Run { start: 9, len: 0 }
        ]
    );
    assert_reads(&rt, &region, &runs[1], &[2, 3]);
    Ok(())
}

#[test]
fn a_release_right_after_a_mark_ends_nothing(rt: HostRuntime) -> Result<(), Fail> {
    let mut region = ClauseRegion::new(rt.alloc());
    region.reserve(2)?;
    let run = region.place(&[lit(1)]);
    let mark = region.mark();
    region.release(mark);
    assert_reads(&rt, &region, &run, &[1]);
    assert_eq!(rt; region.used(), 1);
    assert_eq!(rt; region.spare(), 1);
    Ok(())
}
