//! What the search does where there is no conflict. A pass over the clauses adds each literal that a unit clause implies.
//! Where a pass adds nothing, a literal is chosen; where each clause is true, the atoms that are left become false.

ghost use Rattle.std.specs.Prelude.{◌≡◌, ◌<◌, true, All, length, is_some, IfOk, IfSome, IfNone};
ghost use Rattle.std.specs.List.{list_all};
ghost use Rattle.mbqi_values.specs.Clauses.{AreBelow};
ghost use Rattle.clause_search.specs.Advanced.{IfConflict, OnFull, OnGrown};
ghost use Rattle.clause_search.specs.Course.{truths_of, Extends};
ghost use Rattle.clause_search.specs.Following.{IsConflict};
ghost use Rattle.clause_search.specs.Standing.{IsFull, IsSound, Stands};
ghost use Rattle.clause_search.specs.Truths.{decided_on, lit_on, true_on};

use crate::adding::{choose, imply};
use crate::clause_truth::{ClauseTruth, clause_truth, free_lit, is_free_lit, shortest_open};
use crate::step::Reason;
use crate::trail::Trail;
use mbqi_values::{Lit, Lits};
use std::alloc::{AllocError, Global};
use theory_trait::Theory;

/// How far the search came.
#[derive(Debug, Drop)]
pub(crate) enum Advanced {
    /// Each clause is true, and each of their atoms has a truth.
    Full,
    /// There are more literals on the trail.
    Grown,
    /// A clause that follows is false on the trail.
    Conflict(Lits),
}

// Looks at one clause: where it is a unit clause, its literal is added. It gives the conflict, if there is one.
fn visit<T: Theory>(
    alloc: Global,
    clauses: &[Lits],
    theory: &mut T,
    trail: &mut Trail,
    number: usize,
) -> Result<Option<Lits>, AllocError>
    requires number { number < length clauses.now }
    requires below { AreBelow trail.old.atoms clauses.now }
    requires stands { Stands T.Theory theory.old trail.old }
    requires sound { IsSound (T.lawful (T.problem theory.old)) clauses.now trail.old }
    ensures problem { T.problem theory.new ≡ T.problem theory.old }
    ensures stands { Stands T.Theory theory.new trail.new }
    ensures sound { IsSound (T.lawful (T.problem theory.new)) clauses.now trail.new }
    ensures extends { Extends trail.old trail.new }
    ensures conflict { IfOk result (λ conflict.
        IfSome conflict (IsConflict (T.lawful (T.problem theory.new)) clauses.now (truths_of trail.new))) }
{
    let clause = clauses[number].as_slice();
    match clause_truth(trail.truths(), clause) {
        ClauseTruth::True => Ok(None),
        ClauseTruth::Open => Ok(None),
        ClauseTruth::False => Ok(Some(Lits::from_slice(alloc, clause)?)),
        ClauseTruth::Implied(lit) => imply(
            alloc,
            clauses,
            theory,
            trail,
            lit,
            Reason::Clause(number),
        ),
    }
}

// One pass over the clauses. It gives the conflict, if there is one.
fn propagate<T: Theory>(
    alloc: Global,
    clauses: &[Lits],
    theory: &mut T,
    trail: &mut Trail,
) -> Result<Option<Lits>, AllocError>
    requires below { AreBelow trail.old.atoms clauses.now }
    requires stands { Stands T.Theory theory.old trail.old }
    requires sound { IsSound (T.lawful (T.problem theory.old)) clauses.now trail.old }
    ensures problem { T.problem theory.new ≡ T.problem theory.old }
    ensures stands { Stands T.Theory theory.new trail.new }
    ensures sound { IsSound (T.lawful (T.problem theory.new)) clauses.now trail.new }
    ensures extends { Extends trail.old trail.new }
    ensures conflict { IfOk result (λ conflict.
        IfSome conflict (IsConflict (T.lawful (T.problem theory.new)) clauses.now (truths_of trail.new))) }
{
    for number in 0..clauses.len() {
        if let Some(conflict) = visit(alloc, clauses, theory, trail, number)? {
            return Ok(Some(conflict));
        }
    }
    Ok(None)
}

// Makes the literal's atom false if it is free, or true where the theory refuses that. It gives the conflict, if there is
// one.
fn fill_atom<T: Theory>(
    alloc: Global,
    clauses: &[Lits],
    theory: &mut T,
    trail: &mut Trail,
    lit: Lit,
) -> Result<Option<Lits>, AllocError>
    requires within { lit.atom < trail.old.atoms }
    requires stands { Stands T.Theory theory.old trail.old }
    requires sound { IsSound (T.lawful (T.problem theory.old)) clauses.now trail.old }
    ensures problem { T.problem theory.new ≡ T.problem theory.old }
    ensures stands { Stands T.Theory theory.new trail.new }
    ensures sound { IsSound (T.lawful (T.problem theory.new)) clauses.now trail.new }
    ensures extends { Extends trail.old trail.new }
    ensures decided { IfOk result (λ conflict. IfNone conflict (is_some (lit_on (truths_of trail.new) lit) ≡ true)) }
    ensures conflict { IfOk result (λ conflict.
        IfSome conflict (IsConflict (T.lawful (T.problem theory.new)) clauses.now (truths_of trail.new))) }
{
    if !is_free_lit(trail.truths(), lit) {
        return Ok(None);
    }
    let choice = Lit {
        atom: lit.atom,
        yes: false,
    };
    choose(alloc, clauses, theory, trail, choice)
}

// The same for each atom of a clause.
fn fill_clause<T: Theory>(
    alloc: Global,
    clauses: &[Lits],
    theory: &mut T,
    trail: &mut Trail,
    clause: &[Lit],
) -> Result<Option<Lits>, AllocError>
    requires below { All (λ lit. lit.atom < trail.old.atoms) clause.now }
    requires stands { Stands T.Theory theory.old trail.old }
    requires sound { IsSound (T.lawful (T.problem theory.old)) clauses.now trail.old }
    ensures problem { T.problem theory.new ≡ T.problem theory.old }
    ensures stands { Stands T.Theory theory.new trail.new }
    ensures sound { IsSound (T.lawful (T.problem theory.new)) clauses.now trail.new }
    ensures extends { Extends trail.old trail.new }
    ensures decided { IfOk result (λ conflict. IfNone conflict (decided_on (truths_of trail.new) clause.now ≡ true)) }
    ensures conflict { IfOk result (λ conflict.
        IfSome conflict (IsConflict (T.lawful (T.problem theory.new)) clauses.now (truths_of trail.new))) }
{
    for lit in clause {
        if let Some(conflict) = fill_atom(alloc, clauses, theory, trail, *lit)? {
            return Ok(Some(conflict));
        }
        trail.is_fresh();
    }
    Ok(None)
}

// The same for each clause.
fn fill<T: Theory>(
    alloc: Global,
    clauses: &[Lits],
    theory: &mut T,
    trail: &mut Trail,
) -> Result<Option<Lits>, AllocError>
    requires below { AreBelow trail.old.atoms clauses.now }
    requires stands { Stands T.Theory theory.old trail.old }
    requires sound { IsSound (T.lawful (T.problem theory.old)) clauses.now trail.old }
    ensures problem { T.problem theory.new ≡ T.problem theory.old }
    ensures stands { Stands T.Theory theory.new trail.new }
    ensures sound { IsSound (T.lawful (T.problem theory.new)) clauses.now trail.new }
    ensures extends { Extends trail.old trail.new }
    ensures decided { IfOk result (λ conflict. IfNone conflict (list_all (decided_on (truths_of trail.new)) clauses.now ≡ true)) }
    ensures conflict { IfOk result (λ conflict.
        IfSome conflict (IsConflict (T.lawful (T.problem theory.new)) clauses.now (truths_of trail.new))) }
{
    for clause in clauses {
        if let Some(conflict) = fill_clause(alloc, clauses, theory, trail, clause.as_slice())? {
            return Ok(Some(conflict));
        }
        trail.is_fresh();
    }
    Ok(None)
}

// Where each clause is true: the atoms that are left get their truths.
fn finish<T: Theory>(
    alloc: Global,
    clauses: &[Lits],
    theory: &mut T,
    trail: &mut Trail,
) -> Result<Advanced, AllocError>
    requires below { AreBelow trail.old.atoms clauses.now }
    requires stands { Stands T.Theory theory.old trail.old }
    requires sound { IsSound (T.lawful (T.problem theory.old)) clauses.now trail.old }
    requires holds { list_all (true_on (truths_of trail.old)) clauses.now ≡ true }
    ensures problem { T.problem theory.new ≡ T.problem theory.old }
    ensures stands { Stands T.Theory theory.new trail.new }
    ensures sound { IsSound (T.lawful (T.problem theory.new)) clauses.now trail.new }
    ensures extends { Extends trail.old trail.new }
    ensures full { IfOk result (λ advanced. OnFull advanced (IsFull clauses.now (truths_of trail.new))) }
    ensures grown { IfOk result (λ advanced. OnGrown advanced (length trail.old.steps < length trail.new.steps)) }
    ensures conflict { IfOk result (λ advanced.
        IfConflict advanced (IsConflict (T.lawful (T.problem theory.new)) clauses.now (truths_of trail.new))) }
{
    match fill(alloc, clauses, theory, trail)? {
        Some(conflict) => Ok(Advanced::Conflict(conflict)),
        None => {
            trail.is_fresh();
            Ok(Advanced::Full)
        }
    }
}

// A literal is chosen: the first free one of the first clause with the fewest free ones among those that aren't true.
fn decide<T: Theory>(
    alloc: Global,
    clauses: &[Lits],
    theory: &mut T,
    trail: &mut Trail,
) -> Result<Advanced, AllocError>
    requires below { AreBelow trail.old.atoms clauses.now }
    requires stands { Stands T.Theory theory.old trail.old }
    requires sound { IsSound (T.lawful (T.problem theory.old)) clauses.now trail.old }
    ensures problem { T.problem theory.new ≡ T.problem theory.old }
    ensures stands { Stands T.Theory theory.new trail.new }
    ensures sound { IsSound (T.lawful (T.problem theory.new)) clauses.now trail.new }
    ensures extends { Extends trail.old trail.new }
    ensures full { IfOk result (λ advanced. OnFull advanced (IsFull clauses.now (truths_of trail.new))) }
    ensures grown { IfOk result (λ advanced. OnGrown advanced (length trail.old.steps < length trail.new.steps)) }
    ensures conflict { IfOk result (λ advanced.
        IfConflict advanced (IsConflict (T.lawful (T.problem theory.new)) clauses.now (truths_of trail.new))) }
{
    let Some(clause) = shortest_open(trail.truths(), clauses) else {
        return finish(alloc, clauses, theory, trail);
    };
    let Some(lit) = free_lit(trail.truths(), clause) else {
        return Ok(Advanced::Conflict(Lits::from_slice(alloc, clause)?));
    };
    match choose(alloc, clauses, theory, trail, lit)? {
        Some(conflict) => Ok(Advanced::Conflict(conflict)),
        None => Ok(Advanced::Grown),
    }
}

/// Goes on from a trail without a conflict.
pub(crate) fn advance<T: Theory>(
    alloc: Global,
    clauses: &[Lits],
    theory: &mut T,
    trail: &mut Trail,
) -> Result<Advanced, AllocError>
    requires below { AreBelow trail.old.atoms clauses.now }
    requires stands { Stands T.Theory theory.old trail.old }
    requires sound { IsSound (T.lawful (T.problem theory.old)) clauses.now trail.old }
    ensures problem { T.problem theory.new ≡ T.problem theory.old }
    ensures stands { Stands T.Theory theory.new trail.new }
    ensures sound { IsSound (T.lawful (T.problem theory.new)) clauses.now trail.new }
    ensures extends { Extends trail.old trail.new }
    ensures full { IfOk result (λ advanced. OnFull advanced (IsFull clauses.now (truths_of trail.new))) }
    ensures grown { IfOk result (λ advanced. OnGrown advanced (length trail.old.steps < length trail.new.steps)) }
    ensures conflict { IfOk result (λ advanced.
        IfConflict advanced (IsConflict (T.lawful (T.problem theory.new)) clauses.now (truths_of trail.new))) }
{
    let before = trail.len();
    if let Some(conflict) = propagate(alloc, clauses, theory, trail)? {
        return Ok(Advanced::Conflict(conflict));
    }
    if before < trail.len() {
        return Ok(Advanced::Grown);
    }
    decide(alloc, clauses, theory, trail)
}
