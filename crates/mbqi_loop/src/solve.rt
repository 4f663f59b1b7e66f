//! From a script to its outcome.

ghost use Rattle.std.specs.Prelude.{◌≡◌, ◌+◌, ◌≤◌, ◌++◌, ◌∷◌, [], All, IfOk};
ghost use Rattle.function_model.specs.Fits.{Fits, NoRowsWithoutArguments};
ghost use Rattle.function_model.specs.Holds.{Holds};
ghost use Rattle.element_atoms.specs.Atoms.{IsPool};
ghost use Rattle.element_atoms.specs.Profile.{IsElementary};
ghost use Rattle.rule_form.specs.Rules.{IsChoice, count};
ghost use Rattle.mbqi_loop.specs.Journal.{IsJournal, first_lines, lines_after};
ghost use Rattle.mbqi_loop.specs.Listed.{IsListed};
ghost use Rattle.mbqi_loop.specs.Outcome.{IfSat, IfUnsat, decisions};
ghost use Rattle.mbqi_loop.specs.Refuted.{AreInstances, IsRefuted};
ghost use Rattle.mbqi_loop.specs.declared.outcome.Outcome.TheVariants.{Sat};
ghost use Rattle.function_model.specs.Shown.{shown_of};

use crate::decision::decide;
use crate::listed::{Listed, list, nothing_listed};
use crate::outcome::{Journal, Outcome, Round};
use element_atoms::{Pool, pool_of};
use mbqi_terms::Script;
use mbqi_values::Steps;
use rule_form::{chosen_lines, first_lines};
use std::alloc::{AllocError, Global};
use std::sync::ledger::Ledger;

/// Decides a script of the first profile: a model in which each assertion holds, or instances that are refuted, with the journal of its
/// rounds. The list starts with the instances of the rules without variables; each round decides it, and adds the instances at
/// terms of the pool that are false in the decision's model. The counter rises by each decision, before it is made. The one error is want
/// of memory.
pub fn solve_rules<L: Ledger>(
    alloc: Global,
    script: &Script,
    steps: &mut Steps<L>,
) -> Result<Outcome, AllocError>
    requires { IsElementary script.now }
    ensures fits { IfOk result (λ outcome. IfSat outcome (Fits script.now)) }
    ensures bare { IfOk result (λ outcome. IfSat outcome NoRowsWithoutArguments) }
    ensures holds { IfOk result (λ outcome. IfSat outcome (λ model. Holds model script.now)) }
    ensures refuted { IfOk result (λ outcome. IfUnsat outcome (IsRefuted script.now)) }
    ensures journal { IfOk result (IsJournal script.now) }
    ensures decisions { IfOk result (λ outcome. steps.new ≡ steps.old + decisions outcome) }
    ensures rises { steps.old ≤ steps.new }
    ensures at_most { steps.new ≤ steps.old + count script.now + 1 }
{
    let pool = pool_of(alloc, script.functions.as_slice())?;
    let none = nothing_listed(alloc);
    let first = first_lines(alloc, script)?;
    let listed = list(alloc, script.functions.as_slice(), &pool, none, first)?;
    rounds(alloc, script, &pool, listed, steps)
}

// The rounds from the first list on.
fn rounds<L: Ledger>(
    alloc: Global,
    script: &Script,
    pool: &Pool,
    listed: Listed,
    steps: &mut Steps<L>,
) -> Result<Outcome, AllocError>
    requires elementary { IsElementary script.now }
    requires pool { IsPool script.now.functions pool.now }
    requires listed { IsListed script.now.functions pool.now.terms listed }
    requires first { listed.lines ≡ first_lines script.now }
    requires instances { AreInstances script.now listed.lines }
    ensures fits { IfOk result (λ outcome. IfSat outcome (Fits script.now)) }
    ensures bare { IfOk result (λ outcome. IfSat outcome NoRowsWithoutArguments) }
    ensures holds { IfOk result (λ outcome. IfSat outcome (λ model. Holds model script.now)) }
    ensures refuted { IfOk result (λ outcome. IfUnsat outcome (IsRefuted script.now)) }
    ensures journal { IfOk result (IsJournal script.now) }
    ensures decisions { IfOk result (λ outcome. steps.new ≡ steps.old + decisions outcome) }
    ensures rises { steps.old ≤ steps.new }
    ensures at_most { steps.new ≤ steps.old + count script.now + 1 }
{
    let mut listed = listed;
    let mut journal = Journal::new(alloc);
    loop {
        steps.tick();
        let Some(round) = decide(alloc, script, pool, &listed)? else {
            return Ok(Outcome::Unsat(listed.lines, journal));
        };
        if round.added.is_empty() {
            return model_found(alloc, journal, round);
        }
        listed = add(alloc, script, pool, listed, &round)?;
        journal.push(round)?;
    }
}

// Lists the instances that a round adds.
fn add(
    alloc: Global,
    script: &Script,
    pool: &Pool,
    listed: Listed,
    round: &Round,
) -> Result<Listed, AllocError>
    requires elementary { IsElementary script.now }
    requires pool { IsPool script.now.functions pool.now }
    requires listed { IsListed script.now.functions pool.now.terms listed }
    requires instances { AreInstances script.now listed.lines }
    requires choices { All (IsChoice script.now) round.now.added }
    ensures listed { IfOk result (IsListed script.now.functions pool.now.terms) }
    ensures instances { IfOk result (λ more. AreInstances script.now more.lines) }
    ensures lines { IfOk result (λ more. more.lines ≡ lines_after script.now listed.lines round.now) }
{
    let lines = chosen_lines(alloc, script, round.added.as_slice())?;
    list(alloc, script.functions.as_slice(), pool, listed, lines)
}

// The shown part of the last round's model, with the journal.
fn model_found(alloc: Global, journal: Journal, round: Round) -> Result<Outcome, AllocError>
    ensures { IfOk result (λ outcome. outcome ≡ Sat (shown_of round.model) (journal ++ round ∷ [])) }
{
    let mut journal = journal;
    let model = round.model.shown(alloc)?;
    journal.push(round)?;
    Ok(Outcome::Sat(model, journal))
}
