//! How literals come onto the trail: implied by a reason, or chosen in a frame of their own. What the theory refuses
//! becomes a clause, the negation of what `clash` lends.

ghost use Rattle.std.specs.Prelude.{◌≡◌, ◌<◌, false, true, None, Some, length, is_some, IfOk, OnErr, IfSome, IfNone, OnSome};
ghost use Rattle.clause_search.specs.Course.{is_chosen, lits_of, truths_of, with_lit, with_step, Extends};
ghost use Rattle.clause_search.specs.Following.{IsConflict, IsLemma};
ghost use Rattle.clause_search.specs.Standing.{Implies, IsOpen, IsSound, Stands};
ghost use Rattle.clause_search.specs.Truths.{atom_on, false_on};
ghost use Rattle.clause_search.specs.declared.step.Reason.TheVariants.{Chosen};

use crate::resolvent::{negations, resolvent};
use crate::step::Reason;
use crate::trail::Trail;
use mbqi_values::{Lit, Lits};
use std::alloc::{AllocError, Global};
use theory_trait::{Assumed, Theory};

// The negation of what the theory lends after a clash of the literal: a clause that holds in the theory, and is false
// once the literal is true.
fn refusal<T: Theory>(
    alloc: Global,
    theory: &T,
    trail: &Trail,
    lit: Lit,
) -> Result<Lits, AllocError>
    requires clashed { T.clashed theory.now ≡ Some lit }
    requires content { T.content theory.now ≡ lits_of trail.now.steps }
    requires within { lit.atom < trail.now.atoms }
    requires free { atom_on (truths_of trail.now) lit.atom ≡ None }
    ensures lemma { IfOk result (IsLemma (T.lawful (T.problem theory.now))) }
    ensures is_false { IfOk result (λ clause. false_on (with_lit (truths_of trail.now) lit) clause ≡ true) }
{
    trail.is_fresh();
    negations(alloc, theory.clash())
}

// The conflict where the theory refuses a literal that is implied: it is resolved out of the refusal with its reason.
fn refuted<T: Theory>(
    alloc: Global,
    clauses: &[Lits],
    theory: &T,
    trail: &Trail,
    lit: Lit,
    reason: Reason,
) -> Result<Lits, AllocError>
    requires clashed { T.clashed theory.now ≡ Some lit }
    requires content { T.content theory.now ≡ lits_of trail.now.steps }
    requires within { lit.atom < trail.now.atoms }
    requires free { atom_on (truths_of trail.now) lit.atom ≡ None }
    requires implied { Implies (T.lawful (T.problem theory.now)) clauses.now (truths_of trail.now) lit reason }
    ensures { IfOk result (IsConflict (T.lawful (T.problem theory.now)) clauses.now (truths_of trail.now)) }
{
    let clause = refusal(alloc, theory, trail, lit)?;
    resolvent(alloc, clause.as_slice(), reason.lits(clauses), lit.atom)
}

/// Adds a literal that a reason implies, or gives the conflict where the theory refuses it.
pub(crate) fn imply<T: Theory>(
    alloc: Global,
    clauses: &[Lits],
    theory: &mut T,
    trail: &mut Trail,
    lit: Lit,
    reason: Reason,
) -> Result<Option<Lits>, AllocError>
    requires stands { Stands T.Theory theory.old trail.old }
    requires sound { IsSound (T.lawful (T.problem theory.old)) clauses.now trail.old }
    requires within { lit.atom < trail.old.atoms }
    requires free { atom_on (truths_of trail.old) lit.atom ≡ None }
    requires implied { Implies (T.lawful (T.problem theory.old)) clauses.now (truths_of trail.old) lit reason }
    requires reason { is_chosen reason ≡ false }
    ensures problem { T.problem theory.new ≡ T.problem theory.old }
    ensures stands { Stands T.Theory theory.new trail.new }
    ensures sound { IsSound (T.lawful (T.problem theory.new)) clauses.now trail.new }
    ensures added { IfOk result (λ conflict. IfNone conflict (trail.new ≡ with_step trail.old lit reason)) }
    ensures kept { IfOk result (λ conflict. OnSome conflict (trail.new ≡ trail.old)) }
    ensures extends { Extends trail.old trail.new }
    ensures conflict { IfOk result (λ conflict.
        IfSome conflict (IsConflict (T.lawful (T.problem theory.new)) clauses.now (truths_of trail.new))) }
{
    trail.is_fresh();
    match theory.assume(lit) {
        Assumed::Agree => {
            trail.add(lit, reason);
            Ok(None)
        }
        Assumed::Clash => Ok(Some(refuted(alloc, clauses, theory, trail, lit, reason)?)),
    }
}

// Adds a literal in a frame of its own. Where the theory refuses it, nothing changes, and the refusal is given.
fn try_choice<T: Theory>(
    alloc: Global,
    theory: &mut T,
    trail: &mut Trail,
    lit: Lit,
) -> Result<Option<Lits>, AllocError>
    requires stands { Stands T.Theory theory.old trail.old }
    requires within { lit.atom < trail.old.atoms }
    requires free { atom_on (truths_of trail.old) lit.atom ≡ None }
    ensures problem { T.problem theory.new ≡ T.problem theory.old }
    ensures stands { Stands T.Theory theory.new trail.new }
    ensures added { IfOk result (λ refusal. IfNone refusal (trail.new ≡ with_step trail.old lit Chosen)) }
    ensures kept { IfOk result (λ refusal. OnSome refusal (trail.new ≡ trail.old)) }
    ensures err { OnErr result (trail.new ≡ trail.old) }
    ensures lemma { IfOk result (λ refusal. IfSome refusal (IsLemma (T.lawful (T.problem theory.new)))) }
    ensures is_false { IfOk result (λ refusal. IfSome refusal (λ clause. false_on (with_lit (truths_of trail.old) lit) clause ≡ true)) }
{
    trail.is_fresh();
    theory.push();
    match theory.assume(lit) {
        Assumed::Agree => {
            trail.add(lit, Reason::Chosen);
            Ok(None)
        }
        Assumed::Clash => {
            let refusal = refusal(alloc, theory, trail, lit);
            theory.pop();
            Ok(Some(refusal?))
        }
    }
}

/// Adds a literal as a choice or, where the theory refuses it, its negation with the refusal as the reason. Where it
/// refuses that too, there is a conflict.
pub(crate) fn choose<T: Theory>(
    alloc: Global,
    clauses: &[Lits],
    theory: &mut T,
    trail: &mut Trail,
    lit: Lit,
) -> Result<Option<Lits>, AllocError>
    requires stands { Stands T.Theory theory.old trail.old }
    requires sound { IsSound (T.lawful (T.problem theory.old)) clauses.now trail.old }
    requires within { lit.atom < trail.old.atoms }
    requires free { atom_on (truths_of trail.old) lit.atom ≡ None }
    ensures problem { T.problem theory.new ≡ T.problem theory.old }
    ensures stands { Stands T.Theory theory.new trail.new }
    ensures sound { IsSound (T.lawful (T.problem theory.new)) clauses.now trail.new }
    ensures extends { Extends trail.old trail.new }
    ensures more { IfOk result (λ conflict. IfNone conflict (length trail.old.steps < length trail.new.steps)) }
    ensures decided { IfOk result (λ conflict. IfNone conflict (is_some (atom_on (truths_of trail.new) lit.atom) ≡ true)) }
    ensures conflict { IfOk result (λ conflict.
        IfSome conflict (IsConflict (T.lawful (T.problem theory.new)) clauses.now (truths_of trail.new))) }
{
    let Some(refusal) = try_choice(alloc, theory, trail, lit)? else {
        return Ok(None);
    };
    imply(
        alloc,
        clauses,
        theory,
        trail,
        lit.negated(),
        Reason::Derived(refusal),
    )
}
