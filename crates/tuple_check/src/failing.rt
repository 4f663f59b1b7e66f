//! The choices at which rules fail.

ghost use Rattle.std.specs.Prelude.{◌≡◌, ◌<◌, ◌+◌, ◌++◌, [], length, map, false, true, All, IfOk, OnOk};
ghost use Rattle.mbqi_terms.specs.Meanings.{Meanings, truth_of};
ghost use Rattle.mbqi_terms.specs.Distinct.{AreDistinct};
ghost use Rattle.element_atoms.specs.Atoms.{Decides, IsPool};
ghost use Rattle.element_atoms.specs.Profile.{IsArgument, IsClause, IsElementary, IsRule};
ghost use Rattle.rule_form.specs.Rules.{IsChoice, IsOpen, clause_of, line_of, variables_of};
ghost use Rattle.rule_form.specs.declared.choice.Choice.{Choice};
ghost use Rattle.tuple_check.specs.Failing.{choice_of, failing_from, failing_of, fails_at, term_in};
ghost use Rattle.tuple_check.specs.Tuples.{tuples_where};

use crate::clause::is_true_at;
use element_atoms::{AtomTable, Pool};
use mbqi_terms::{Formula, Function, Script, Terms, copy_term};
use rule_form::{Choice, Choices, rule_parts};
use std::alloc::{AllocError, Global};

/// The choices of pool terms at which a rule with variables is false where each atom of the table has its truth and each other atom
/// is false, in order of the rules and then of the terms' numbers. The one error is want of memory.
pub fn failing_choices(
    alloc: Global,
    script: &Script,
    pool: &Pool,
    table: &AtomTable,
    truths: &[bool],
) -> Result<Choices, AllocError>
    requires elementary { IsElementary script.now }
    requires pool { IsPool script.now.functions pool.now }
    requires truths { length truths.now ≡ length table.now }
    ensures choices { IfOk result (All (IsChoice script.now)) }
    ensures open { IfOk result (All IsOpen) }
    ensures distinct { IfOk result AreDistinct }
    ensures false_there { IfOk result (λ choices. (m : Meanings) → Decides script.now.functions pool.now.terms table.now truths.now m
        → All (λ choice. truth_of m (line_of script.now.assertions choice).formula ≡ false) choices) }
    ensures true_elsewhere { IfOk result (λ choices. choices ≡ [] → (m : Meanings) → Decides script.now.functions pool.now.terms table.now truths.now m
        → (choice : Choice) → IsChoice script.now choice → IsOpen choice
        → truth_of m (line_of script.now.assertions choice).formula ≡ true) }
{
    let mut choices = Choices::new(alloc);
    for (rule, assertion) in script.assertions.as_slice().iter().enumerate() {
        push_failing_of(
            alloc,
            script.functions.as_slice(),
            pool,
            table,
            truths,
            rule,
            &assertion.formula,
            &mut choices,
        )?;
    }
    Ok(choices)
}

// Puts the choices of a rule behind the others.
fn push_failing_of(
    alloc: Global,
    functions: &[Function],
    pool: &Pool,
    table: &AtomTable,
    truths: &[bool],
    rule: usize,
    formula: &Formula,
    into: &mut Choices,
) -> Result<(), AllocError>
    requires pool { IsPool functions.now pool.now }
    requires rule { IsRule functions.now formula.now }
    requires truths { length truths.now ≡ length table.now }
    ensures { OnOk result (into.new ≡ into.old ++ failing_of pool.now table.now truths.now rule (variables_of formula.now) (clause_of formula.now)) }
{
    let (variables, clause) = rule_parts(formula);
    if variables == 0 {
        return Ok(());
    }
    let mut tuple = Vec::new(alloc);
    push_failing(
        alloc, functions, pool, table, truths, rule, clause, variables, &mut tuple, into,
    )
}

// Puts behind the others the choices at which the clause is false, whose terms begin with those of the tuple and are so many more.
fn push_failing(
    alloc: Global,
    functions: &[Function],
    pool: &Pool,
    table: &AtomTable,
    truths: &[bool],
    rule: usize,
    clause: &Formula,
    more: usize,
    tuple: &mut Vec<usize>,
    into: &mut Choices,
) -> Result<(), AllocError>
    requires pool { IsPool functions.now pool.now }
    requires clause { IsClause functions.now (IsArgument functions.now (length tuple.old.items + more)) clause.now }
    requires truths { length truths.now ≡ length table.now }
    requires within { All (λ i. i < length pool.now.terms) tuple.old.items }
    ensures choices { OnOk result (into.new ≡ into.old ++ map (choice_of pool.now.terms rule)
        (tuples_where (fails_at pool.now table.now truths.now clause.now) (length pool.now.terms) more tuple.old.items)) }
    ensures tuple { OnOk result (tuple.new.items ≡ tuple.old.items) }
{
    if more == 0 {
        return push_where_false(
            alloc,
            functions,
            pool,
            table,
            truths,
            rule,
            clause,
            tuple.as_slice(),
            into,
        );
    }
    for number in 0..pool.terms.len() {
        tuple.push(number)?;
        push_failing(
            alloc,
            functions,
            pool,
            table,
            truths,
            rule,
            clause,
            more - 1,
            tuple,
            into,
        )?;
        tuple.pop();
    }
    Ok(())
}

// Puts the choice of a tuple behind the others, where the clause is false at it.
fn push_where_false(
    alloc: Global,
    functions: &[Function],
    pool: &Pool,
    table: &AtomTable,
    truths: &[bool],
    rule: usize,
    clause: &Formula,
    tuple: &[usize],
    into: &mut Choices,
) -> Result<(), AllocError>
    requires pool { IsPool functions.now pool.now }
    requires clause { IsClause functions.now (IsArgument functions.now (length tuple.now)) clause.now }
    requires truths { length truths.now ≡ length table.now }
    requires within { All (λ i. i < length pool.now.terms) tuple.now }
    ensures { OnOk result (into.new ≡ into.old ++ map (choice_of pool.now.terms rule)
        (tuples_where (fails_at pool.now table.now truths.now clause.now) (length pool.now.terms) 0 tuple.now)) }
{
    if is_true_at(alloc, functions, pool, table, truths, clause, tuple)? {
        return Ok(());
    }
    let terms = terms_of(alloc, pool, tuple)?;
    into.push(Choice { rule, terms })
}

// The terms of a tuple.
fn terms_of(alloc: Global, pool: &Pool, tuple: &[usize]) -> Result<Terms, AllocError>
    requires { All (λ i. i < length pool.now.terms) tuple.now }
    ensures { IfOk result (λ terms. terms ≡ map (term_in pool.now.terms) tuple.now) }
{
    let mut terms = Terms::new(alloc);
    for number in tuple {
        terms.push(copy_term(alloc, &pool.terms.as_slice()[*number])?)?;
    }
    Ok(terms)
}
