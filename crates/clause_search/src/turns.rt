//! The search, turn by turn.

ghost use Rattle.std.specs.Prelude.{◌≡◌, ◌<◌, ◌≤◌, ◌^◌, ℕ, [], ◌∷◌, All, IfOk, IfSome, IfNone};
ghost use Rattle.std.specs.Bool.{OnTrue, OnFalse};
ghost use Rattle.mbqi_values.specs.Clauses.{AreBelow};
ghost use Rattle.theory_trait.specs.Content.{AtomsDiffer};
ghost use Rattle.clause_search.specs.Course.{choices_from, truths_of};
ghost use Rattle.clause_search.specs.Following.{HasNoModel};
ghost use Rattle.clause_search.specs.Found.{GivesAtoms, MakesTrue};
ghost use Rattle.clause_search.specs.Rank.{rank_of};
ghost use Rattle.clause_search.specs.Searched.{is_found, IfFound, OnClosed, UnlessFound};
ghost use Rattle.clause_search.specs.Standing.{Covers, IsFull, IsSound, Stands};
ghost use Rattle.clause_search.specs.Turn.{OnEnded, OnFull, OnTurned};

use crate::going_back::go_back;
use crate::passes::{Advanced, advance};
use crate::trail::Trail;
use mbqi_values::{Lit, LitLists, Lits};
use std::alloc::{AllocError, Global};
use theory_trait::Theory;

/// What the search answers.
#[derive(Debug, Drop)]
pub enum Searched {
    /// Literals that the theory agrees on, in the order in which they were found. They make each clause true.
    Found(Lits),
    /// No lawful valuation makes each clause true.
    Closed,
}

/// What a turn of the search ends with.
#[derive(Clone, Copy, Debug)]
enum Turn {
    /// The trail is found.
    Full,
    /// The trail stands higher.
    Turned,
    /// The clauses have no model.
    Ended,
}

/// Searches for literals on which the theory agrees and which make each clause true, with one for each atom of the clauses.
/// The theory's content is what is found. The error is want of memory; then, and where nothing is found, the theory has
/// no content and no open frame, as it had before.
///
/// A pass over the clauses takes time linear in their length, and adds each literal that a unit clause implies. Passes go
/// on until one adds nothing; then a literal is chosen, the first free one of a clause with the fewest free ones. There
/// may be exponentially many choices. A conflict is resolved with time in the product of the clauses' lengths.
pub fn search<T: Theory>(
    alloc: Global,
    clauses: &LitLists,
    theory: &mut T,
) -> Result<Searched, AllocError>
    requires content { T.content theory.old ≡ [] }
    requires frames { T.frames theory.old ≡ [] }
    requires known { AreBelow (T.atoms (T.problem theory.old)) clauses.now }
    ensures problem { T.problem theory.new ≡ T.problem theory.old }

    // What is found is the content, has no atom twice and each atom of the clauses, and makes each clause true.
    ensures trail { IfFound result (λ trail. T.content theory.new ≡ trail) }
    ensures once { IfFound result AtomsDiffer }
    ensures all { IfFound result (λ trail. All (GivesAtoms trail) clauses.now) }
    ensures model { IfFound result (λ trail. All (MakesTrue trail) clauses.now) }
    ensures none { OnClosed result (HasNoModel (T.lawful (T.problem theory.old)) clauses.now) }
    ensures left_content { UnlessFound result (T.content theory.new ≡ []) }
    ensures left_frames { UnlessFound result (T.frames theory.new ≡ []) }
{
    let atoms = atom_count(clauses.as_slice()).ok_or(AllocError)?;
    theory.reserve(atoms.checked_add(1).ok_or(AllocError)?)?;
    let mut trail = Trail::new(alloc, atoms)?;
    theory.push();
    let searched = search_from(alloc, clauses.as_slice(), theory, &mut trail);
    if !is_found(&searched) {
        close(theory, &mut trail);
    }
    searched
}

// One more than the greatest atom of the clause, and at least the number that is handed in; `None` where that is no usize.
fn counted(clause: &[Lit], start: usize) -> Option<usize>
    ensures above { IfSome result (λ count. start ≤ count) }
    ensures below { IfSome result (λ count. All (λ lit. lit.atom < count) clause.now) }
    ensures least { IfSome result (λ count. (limit : ℕ) → start ≤ limit → All (λ lit. lit.atom < limit) clause.now → count ≤ limit) }
    ensures none { IfNone result ((limit : ℕ) → All (λ lit. lit.atom < limit) clause.now → 2 ^ 64 ≤ limit) }
{
    let mut count = start;
    for lit in clause {
        count = count.max(lit.atom.checked_add(1)?);
    }
    Some(count)
}

// One more than the greatest atom of the clauses, or 0 where they have none; `None` where that is no usize.
fn atom_count(clauses: &[Lits]) -> Option<usize>
    ensures below { IfSome result (λ count. AreBelow count clauses.now) }
    ensures least { IfSome result (λ count. (limit : ℕ) → AreBelow limit clauses.now → count ≤ limit) }
    ensures none { IfNone result ((limit : ℕ) → AreBelow limit clauses.now → 2 ^ 64 ≤ limit) }
{
    let mut count = 0;
    for clause in clauses {
        count = counted(clause.as_slice(), count)?;
    }
    Some(count)
}

// One turn: the trail grows or, after a conflict, a choice is turned.
fn take_turn<T: Theory>(
    alloc: Global,
    clauses: &[Lits],
    theory: &mut T,
    trail: &mut Trail,
) -> Result<Turn, AllocError>
    requires below { AreBelow trail.old.atoms clauses.now }
    requires stands { Stands T.Theory theory.old trail.old }
    requires sound { IsSound (T.lawful (T.problem theory.old)) clauses.now trail.old }
    ensures problem { T.problem theory.new ≡ T.problem theory.old }
    ensures atoms { trail.new.atoms ≡ trail.old.atoms }
    ensures covers { Covers T.Theory theory.new trail.new }
    ensures sound { IsSound (T.lawful (T.problem theory.new)) clauses.now trail.new }
    ensures full { IfOk result (λ turn. OnFull turn (IsFull clauses.now (truths_of trail.new))) }
    ensures full_stands { IfOk result (λ turn. OnFull turn (Stands T.Theory theory.new trail.new)) }
    ensures stands { IfOk result (λ turn. OnTurned turn (Stands T.Theory theory.new trail.new)) }
    ensures rises { IfOk result (λ turn. OnTurned turn (rank_of trail.old < rank_of trail.new)) }
    ensures none { IfOk result (λ turn. OnEnded turn (HasNoModel (T.lawful (T.problem theory.new)) clauses.now)) }
{
    match advance(alloc, clauses, theory, trail)? {
        Advanced::Full => Ok(Turn::Full),
        Advanced::Grown => {
            trail.is_fresh();
            Ok(Turn::Turned)
        }
        Advanced::Conflict(conflict) => {
            let turned = go_back(alloc, clauses, theory, trail, conflict)?;
            Ok(if turned { Turn::Turned } else { Turn::Ended })
        }
    }
}

// Turns until the trail is full or the clauses are known to have no model. It answers whether the trail is full.
fn run<T: Theory>(
    alloc: Global,
    clauses: &[Lits],
    theory: &mut T,
    trail: &mut Trail,
) -> Result<bool, AllocError>
    requires below { AreBelow trail.old.atoms clauses.now }
    requires stands { Stands T.Theory theory.old trail.old }
    requires sound { IsSound (T.lawful (T.problem theory.old)) clauses.now trail.old }
    ensures problem { T.problem theory.new ≡ T.problem theory.old }
    ensures covers { Covers T.Theory theory.new trail.new }
    ensures full { IfOk result (λ full. OnTrue full (IsFull clauses.now (truths_of trail.new))) }
    ensures stands { IfOk result (λ full. OnTrue full (Stands T.Theory theory.new trail.new)) }
    ensures none { IfOk result (λ full. OnFalse full (HasNoModel (T.lawful (T.problem theory.new)) clauses.now)) }
{
    'turns: loop {
        match take_turn(alloc, clauses, theory, trail)? {
            Turn::Full => return Ok(true),
            Turn::Turned => {}
            Turn::Ended => return Ok(false),
        }
    }
}

// The search from an empty trail.
fn search_from<T: Theory>(
    alloc: Global,
    clauses: &[Lits],
    theory: &mut T,
    trail: &mut Trail,
) -> Result<Searched, AllocError>
    requires below { AreBelow trail.old.atoms clauses.now }
    requires empty { trail.old.steps ≡ [] }
    requires stands { Stands T.Theory theory.old trail.old }
    ensures problem { T.problem theory.new ≡ T.problem theory.old }
    ensures covers { Covers T.Theory theory.new trail.new }
    ensures trail { IfFound result (λ found. T.content theory.new ≡ found) }
    ensures once { IfFound result AtomsDiffer }
    ensures all { IfFound result (λ found. All (GivesAtoms found) clauses.now) }
    ensures model { IfFound result (λ found. All (MakesTrue found) clauses.now) }
    ensures none { OnClosed result (HasNoModel (T.lawful (T.problem theory.new)) clauses.now) }
{
    if !run(alloc, clauses, theory, trail)? {
        return Ok(Searched::Closed);
    }
    trail.is_fresh();
    Ok(Searched::Found(trail.lits(alloc)?))
}

fn is_found(searched: &Result<Searched, AllocError>) -> bool
    ensures { result ≡ is_found searched.now }
{
    matches!(searched, Ok(Searched::Found(_)))
}

// Closes each frame that the search opened.
fn close<T: Theory>(theory: &mut T, trail: &mut Trail)
    requires { T.frames theory.old ≡ 0 ∷ choices_from 0 trail.old.steps }
    ensures problem { T.problem theory.new ≡ T.problem theory.old }
    ensures content { T.content theory.new ≡ [] }
    ensures frames { T.frames theory.new ≡ [] }
{
    'steps: while let Some(step) = trail.take_last() {
        if step.reason.is_chosen() {
            theory.pop();
        }
    }
    theory.pop();
}
