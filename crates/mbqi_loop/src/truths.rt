//! Truths of numbered atoms under which clauses are true, by the search.

ghost use Rattle.std.specs.Prelude.{◌≡◌, ◌<◌, ℕ, Bool, true, false, length, IfOk, IfSome, IfNone};
ghost use Rattle.mbqi_values.specs.Clauses.{all_true, AreBelow};
ghost use Rattle.mbqi_loop.specs.Assigned.{is_made_true, truth_at};

use clause_search::{Searched, search};
use mbqi_values::{Lit, LitLists, Truths};
use std::alloc::{AllocError, Global};
use theory_trait::FreeTheory;

/// Truths of the atoms below `atoms`, which those of the clauses are, under which each clause is true; none where no truths
/// do that. An atom that is in no clause is false. The error is want of memory.
pub(crate) fn truths_of(
    alloc: Global,
    clauses: &LitLists,
    atoms: usize,
) -> Result<Option<Truths>, AllocError>
    requires { AreBelow atoms clauses.now }
    ensures length { IfOk result (λ found. IfSome found (λ truths. length truths ≡ atoms)) }
    ensures model { IfOk result (λ found. IfSome found (λ truths. all_true (truth_at truths) clauses.now ≡ true)) }
    ensures none { IfOk result (λ found. IfNone found ((v : ℕ → Bool) → all_true v clauses.now ≡ false)) }
{
    let mut theory = FreeTheory::new(alloc, atoms);
    match search(alloc, clauses, &mut theory)? {
        Searched::Found(trail) => Ok(Some(made_true(alloc, trail.as_slice(), atoms)?)),
        Searched::Closed => Ok(None),
    }
}

/// For each atom below `atoms`, whether it is true by one of the literals.
fn made_true(alloc: Global, lits: &[Lit], atoms: usize) -> Result<Truths, AllocError>
    ensures length { IfOk result (λ truths. length truths ≡ atoms) }
    ensures made { IfOk result (λ truths. (atom : ℕ) → atom < atoms → truth_at truths atom ≡ is_made_true lits.now atom) }
{
    let mut truths = vec![in alloc; false; atoms]?;
    for lit in lits {
        if lit.yes && lit.atom < truths.len() {
            truths[lit.atom] = true;
        }
    }
    Ok(Truths::from_vec(truths))
}
