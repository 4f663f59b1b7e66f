//! The trail of the search: the literals that are true, in the order in which they became so.

ghost use Rattle.std.specs.Prelude.{◌≡◌, ◌<◌, [], ◌∷◌, ◌++◌, None, length, IfOk, IfSome, IfNone};
ghost use Rattle.clause_search.specs.Course.{lits_of, no_truths, truths_of, with_step, AreFresh};
ghost use Rattle.clause_search.specs.Truths.{atom_on};

use crate::step::{Reason, Step};
use mbqi_values::{Lit, Lits};
use std::alloc::{AllocError, Global};
use std::marker::Model;

/// Literals of different atoms below a number, with their reasons. Contracts see the steps from first to last.
#[derive(Debug, Drop)]
pub(crate) struct Trail {
    // By atom its truth, or none while it is free.
    truths: Vec<Option<bool>>,
    // There is room for a step for each atom.
    steps: Vec<Step>,
}

fn lits_of(alloc: Global, steps: &[Step]) -> Result<Vec<Lit>, AllocError>
    ensures { IfOk result (λ lits. lits.items ≡ lits_of steps.now) }
{
    steps.iter().map(|step| step.lit).collect(alloc)
}

impl Model for Trail {
    ghost use Rattle.std.specs.Prelude.{◌≡◌, ◌≤◌, vec_capacity, vec_len};
    ghost use Rattle.clause_search.specs.Course.{no_truths, truths_after, AreFresh, Course};

    ghost Value = { Course };

    ghost view = { λ t. record { atoms = vec_len t.truths; steps = t.steps.items } };

    ghost invariant = { λ t. (t.truths.items ≡ truths_after (no_truths (vec_len t.truths)) t.steps.items)
        × AreFresh (no_truths (vec_len t.truths)) t.steps.items
        × (vec_len t.truths ≤ vec_capacity t.steps) };
}

impl Trail {
    /// The empty trail of so many atoms. This call alone takes memory.
    pub(crate) fn new(alloc: Global, atoms: usize) -> Result<Trail, AllocError>
        ensures { IfOk result (λ trail. trail ≡ record { atoms = atoms; steps = [] }) }
    {
        let truths = vec![in alloc; None; atoms]?;
        let steps = Vec::with_capacity(alloc, atoms)?;
        Ok(Trail { truths, steps })
    }

    /// By atom its truth, or none while it is free.
    pub(crate) fn truths(&self) -> &[Option<bool>]
        ensures truths { result.now ≡ truths_of self.now }
        ensures len { length result.now ≡ self.now.atoms }
    {
        self.truths.as_slice()
    }

    /// How many literals there are.
    pub(crate) fn len(&self) -> usize
        ensures { result ≡ length self.now.steps }
    {
        self.steps.len()
    }

    /// Each literal gave its truth to an atom that was free.
    pub(crate) fn is_fresh(&self)
        ensures { AreFresh (no_truths self.now.atoms) self.now.steps }
    {
        let _steps = &self.steps;
    }

    /// Puts a literal of a free atom last.
    pub(crate) fn add(&mut self, lit: Lit, reason: Reason)
        requires within { lit.atom < self.old.atoms }
        requires free { atom_on (truths_of self.old) lit.atom ≡ None }
        ensures { self.new ≡ with_step self.old lit reason }
    {
        self.truths[lit.atom] = Some(lit.yes);
        self.steps.push(Step { lit, reason }).unwrap();
    }

    /// Takes the last literal away, if there is any. Its atom is free then.
    pub(crate) fn take_last(&mut self) -> Option<Step>
        ensures atoms { self.new.atoms ≡ self.old.atoms }
        ensures none { IfNone result (self.old.steps ≡ []) }
        ensures rest { IfNone result (self.new ≡ self.old) }
        ensures last { IfSome result (λ step. self.old.steps ≡ self.new.steps ++ step ∷ []) }
        ensures within { IfSome result (λ step. step.lit.atom < self.new.atoms) }
        ensures free { IfSome result (λ step. atom_on (truths_of self.new) step.lit.atom ≡ None) }
    {
        let step = self.steps.pop()?;
        self.truths[step.lit.atom] = None;
        Some(step)
    }

    /// The literals. The error is want of memory.
    pub(crate) fn lits(&self, alloc: Global) -> Result<Lits, AllocError>
        ensures { IfOk result (λ lits. lits ≡ lits_of self.now.steps) }
    {
        Ok(Lits::from_vec(lits_of(alloc, self.steps.as_slice())?))
    }
}
