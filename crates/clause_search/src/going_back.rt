//! What becomes of a conflict: the trail is walked back from its end, each implied literal is resolved out of the conflict
//! with its reason, and the last choice that the conflict has is turned.

ghost use Rattle.std.specs.Prelude.{◌≡◌, ◌<◌, List, [], ◌∷◌, ◌++◌, None, length, true, false, IfOk, IfSome, IfNone, OnSome};
ghost use Rattle.std.specs.Bool.{OnTrue, OnFalse};
ghost use Rattle.clause_search.specs.Course.{reason_lits, truths_of, with_lit, with_step, IsNumbered};
ghost use Rattle.clause_search.specs.Following.{HasNoModel, IsConflict};
ghost use Rattle.clause_search.specs.Rank.{rank_of};
ghost use Rattle.clause_search.specs.Resolvent.{negation, resolved_by};
ghost use Rattle.clause_search.specs.Standing.{Covers, IsSound, Stands};
ghost use Rattle.clause_search.specs.Truths.{atom_on};
ghost use Rattle.clause_search.specs.declared.step.Reason.TheVariants.{Derived};
ghost use Rattle.clause_search.specs.declared.step.Step.{Step};

use crate::adding::imply;
use crate::resolvent::{mentions, resolvent};
use crate::step::{Reason, Step};
use crate::trail::Trail;
use mbqi_values::{Lit, Lits};
use std::alloc::{AllocError, Global};
use theory_trait::Theory;

// The conflict without the literal of a step that is implied.
fn resolved(
    alloc: Global,
    clauses: &[Lits],
    step: &Step,
    conflict: Lits,
) -> Result<Lits, AllocError>
    requires { IsNumbered clauses.now step.now.reason }
    ensures { IfOk result (λ next. next ≡ resolved_by conflict (reason_lits clauses.now step.now.reason) step.now.lit.atom) }
{
    if !mentions(conflict.as_slice(), step.lit.atom) {
        return Ok(conflict);
    }
    resolvent(
        alloc,
        conflict.as_slice(),
        step.reason.lits(clauses),
        step.lit.atom,
    )
}

// After a choice went: its negation is added, with the conflict as the reason, if the conflict has it. Otherwise, and
// where the theory refuses the negation, there is a conflict still.
fn turn<T: Theory>(
    alloc: Global,
    clauses: &[Lits],
    theory: &mut T,
    trail: &mut Trail,
    lit: Lit,
    conflict: Lits,
) -> Result<Option<Lits>, AllocError>
    requires stands { Stands T.Theory theory.old trail.old }
    requires sound { IsSound (T.lawful (T.problem theory.old)) clauses.now trail.old }
    requires within { lit.atom < trail.old.atoms }
    requires free { atom_on (truths_of trail.old) lit.atom ≡ None }
    requires conflict { IsConflict (T.lawful (T.problem theory.old)) clauses.now (with_lit (truths_of trail.old) lit) conflict }
    ensures problem { T.problem theory.new ≡ T.problem theory.old }
    ensures atoms { trail.new.atoms ≡ trail.old.atoms }
    ensures stands { Stands T.Theory theory.new trail.new }
    ensures sound { IsSound (T.lawful (T.problem theory.new)) clauses.now trail.new }
    ensures turned { IfOk result (λ next. IfNone next (trail.new ≡ with_step trail.old (negation lit) (Derived conflict))) }
    ensures kept { IfOk result (λ next. OnSome next (trail.new ≡ trail.old)) }
    ensures conflict { IfOk result (λ next. IfSome next (IsConflict (T.lawful (T.problem theory.new)) clauses.now (truths_of trail.new))) }
{
    if !mentions(conflict.as_slice(), lit.atom) {
        return Ok(Some(conflict));
    }
    imply(
        alloc,
        clauses,
        theory,
        trail,
        lit.negated(),
        Reason::Derived(conflict),
    )
}

// Takes the last literal of the trail back. If it was a choice that the conflict has, its negation is there now;
// otherwise there is a conflict without it.
fn undo_last<T: Theory>(
    alloc: Global,
    clauses: &[Lits],
    theory: &mut T,
    trail: &mut Trail,
    conflict: Lits,
) -> Result<Option<Lits>, AllocError>
    requires some { 0 < length trail.old.steps }
    requires covers { Covers T.Theory theory.old trail.old }
    requires sound { IsSound (T.lawful (T.problem theory.old)) clauses.now trail.old }
    requires conflict { IsConflict (T.lawful (T.problem theory.old)) clauses.now (truths_of trail.old) conflict }
    ensures problem { T.problem theory.new ≡ T.problem theory.old }
    ensures atoms { trail.new.atoms ≡ trail.old.atoms }
    ensures covers { Covers T.Theory theory.new trail.new }
    ensures sound { IsSound (T.lawful (T.problem theory.new)) clauses.now trail.new }
    ensures turned { IfOk result (λ next. IfNone next (Stands T.Theory theory.new trail.new)) }
    ensures rises { IfOk result (λ next.
        IfNone next ((rest : List Step) → rank_of (record trail.old { steps = trail.old.steps ++ rest }) < rank_of trail.new)) }
    ensures front { IfOk result (λ next. OnSome next ((last : Step) × (trail.old.steps ≡ trail.new.steps ++ last ∷ []))) }
    ensures conflict { IfOk result (λ next. IfSome next (IsConflict (T.lawful (T.problem theory.new)) clauses.now (truths_of trail.new))) }
{
    let step = trail.take_last().unwrap();
    if step.reason.is_chosen() {
        theory.pop();
        trail.is_fresh();
        return turn(alloc, clauses, theory, trail, step.lit, conflict);
    }
    Ok(Some(resolved(alloc, clauses, &step, conflict)?))
}

/// Goes back until a choice is turned, or to the start, where the conflict has no literal left and so the clauses have no
/// model. It answers whether a choice was turned.
pub(crate) fn go_back<T: Theory>(
    alloc: Global,
    clauses: &[Lits],
    theory: &mut T,
    trail: &mut Trail,
    conflict: Lits,
) -> Result<bool, AllocError>
    requires covers { Covers T.Theory theory.old trail.old }
    requires sound { IsSound (T.lawful (T.problem theory.old)) clauses.now trail.old }
    requires conflict { IsConflict (T.lawful (T.problem theory.old)) clauses.now (truths_of trail.old) conflict }
    ensures problem { T.problem theory.new ≡ T.problem theory.old }
    ensures atoms { trail.new.atoms ≡ trail.old.atoms }
    ensures covers { Covers T.Theory theory.new trail.new }
    ensures sound { IsSound (T.lawful (T.problem theory.new)) clauses.now trail.new }
    ensures turned { IfOk result (λ turned. OnTrue turned (Stands T.Theory theory.new trail.new)) }
    ensures rises { IfOk result (λ turned. OnTrue turned (rank_of trail.old < rank_of trail.new)) }
    ensures none { IfOk result (λ turned. OnFalse turned (HasNoModel (T.lawful (T.problem theory.new)) clauses.now)) }
{
    let mut conflict = conflict;
    'back: while trail.len() > 0 {
        match undo_last(alloc, clauses, theory, trail, conflict)? {
            Some(next) => conflict = next,
            None => return Ok(true),
        }
    }
    Ok(false)
}
