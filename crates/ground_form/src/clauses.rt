//! Clauses of formulas without quantifiers.

ghost use Rattle.std.specs.Prelude.{◌≡◌, ℕ, Bool, true, [], ◌∷◌, ◌++◌, length, map, IfOk, OnOk, All};
ghost use Rattle.std.specs.List.{AllZip, flat_map};
ghost use Rattle.mbqi_values.specs.Clauses.{all_true, AreBelow};
ghost use Rattle.mbqi_terms.specs.Binders.{IsQuantifierFree};
ghost use Rattle.mbqi_terms.specs.Meanings.{Meanings, truth_of};
ghost use Rattle.ground_form.specs.Clauses.{AddsClauses, AgreeOnBase, AreClausesOf, GrowsBy, IsLitOf, negated, truths_in};
ghost use Rattle.ground_form.specs.Definitions.{definitions_in, parts_in};
ghost use Rattle.ground_form.specs.Rows.{choice_rows, conjunction_rows, constant_rows, disjunction_rows, equivalence_rows};

use crate::table::AtomTable;
use mbqi_terms::Formula;
use mbqi_values::{Lit, LitLists, Lits};
use std::alloc::{AllocError, Global};

/// The clauses of a formula without quantifiers (Tseitin 1968): the unit clause of the formula, and the clauses that define each
/// part of it, in the order of the parts. Its atoms are numbered by the table, which keeps those that it has and takes the parts
/// that are new. The one error is want of memory, after which the table may have new formulas.
///
/// The clauses are linear in the formula. The table copies each part, so it takes memory, and this call time, in proportion to
/// the formula's size times its depth.
pub fn clauses_of(alloc: Global, table: &mut AtomTable, g: &Formula) -> Result<LitLists, AllocError>
    requires { IsQuantifierFree g.now }
    ensures grows { GrowsBy (parts_in g.now) table.old table.new }
    ensures below { IfOk result (AreBelow (length table.new)) }
    ensures listed { IfOk result (λ clauses. AreClausesOf table.new clauses ((g.now ∷ []) ∷ definitions_in g.now)) }
    ensures truth { IfOk result (λ clauses. (m : Meanings) → all_true (truths_in m table.new) clauses ≡ truth_of m g.now) }
    ensures forced { IfOk result (λ clauses. (m : Meanings) (truths : ℕ → Bool) → AgreeOnBase m table.new truths
        → all_true truths clauses ≡ true → truth_of m g.now ≡ true) }
{
    let mut clauses = LitLists::new(alloc);
    let lit = lit_of(alloc, table, g)?;
    push_clause(alloc, &mut clauses, &[lit])?;
    push_definitions(alloc, table, &mut clauses, g, lit)?;
    table.are_distinct();
    Ok(clauses)
}

// The literal of a formula. The table takes its atom.
fn lit_of(alloc: Global, table: &mut AtomTable, f: &Formula) -> Result<Lit, AllocError>
    ensures grows { GrowsBy (parts_in f.now) table.old table.new }
    ensures lit { IfOk result (λ lit. IsLitOf table.new lit f.now) }
{
    match f {
        Formula::Not(part) => Ok(lit_of(alloc, table, part.get())?.negated()),
        _ => Ok(Lit {
            atom: table.number(alloc, f)?,
            yes: true,
        }),
    }
}

// The literals of the formulas.
fn lits_of(alloc: Global, table: &mut AtomTable, parts: &[Formula]) -> Result<Lits, AllocError>
    ensures grows { GrowsBy (flat_map parts_in parts.now) table.old table.new }
    ensures lits { IfOk result (λ lits. AllZip (IsLitOf table.new) lits parts.now) }
    ensures count { IfOk result (λ lits. length lits ≡ length parts.now) }
{
    let mut lits = Lits::new(alloc);
    for part in parts {
        lits.push(lit_of(alloc, table, part)?)?;
    }
    Ok(lits)
}

// Pushes the clauses that define the formula, whose literal is given, and its parts.
#[cycle(definitions)]
fn push_definitions(
    alloc: Global,
    table: &mut AtomTable,
    clauses: &mut LitLists,
    f: &Formula,
    lit: Lit,
) -> Result<(), AllocError>
    ensures grows { GrowsBy (parts_in f.now) table.old table.new }
    ensures clauses { IsLitOf table.old lit f.now → OnOk result (AddsClauses table.new clauses.old clauses.new (definitions_in f.now)) }
{
    match f {
        Formula::Truth(truth) => push_constant(alloc, clauses, lit, *truth),
        Formula::Not(part) => push_definitions(alloc, table, clauses, part.get(), lit.negated()),
        Formula::All(parts) => {
            let parts = parts.as_slice();
            let lits = define_all(alloc, table, clauses, lit, parts)?;
            push_all_definitions(alloc, table, clauses, parts, lits.as_slice())
        }
        Formula::Any(parts) => {
            let parts = parts.as_slice();
            let lits = define_any(alloc, table, clauses, lit, parts)?;
            push_all_definitions(alloc, table, clauses, parts, lits.as_slice())
        }
        Formula::Iff(left, right) => {
            let left = left.get();
            let right = right.get();
            let (first, second) = define_iff(alloc, table, clauses, lit, left, right)?;
            push_definitions(alloc, table, clauses, left, first)?;
            push_definitions(alloc, table, clauses, right, second)
        }
        Formula::Choose(condition, yes, no) => {
            let condition = condition.get();
            let yes = yes.get();
            let no = no.get();
            let (chooses, first, second) = define_choice(
                alloc, table, clauses, lit, condition, yes, no,
            )?;
            push_definitions(alloc, table, clauses, condition, chooses)?;
            push_definitions(alloc, table, clauses, yes, first)?;
            push_definitions(alloc, table, clauses, no, second)
        }
        _ => Ok(()),
    }
}

// Pushes the clauses that define each of the formulas, whose literals are given.
#[cycle(definitions)]
fn push_all_definitions(
    alloc: Global,
    table: &mut AtomTable,
    clauses: &mut LitLists,
    parts: &[Formula],
    lits: &[Lit],
) -> Result<(), AllocError>
    requires { length lits.now ≡ length parts.now }
    ensures grows { GrowsBy (flat_map parts_in parts.now) table.old table.new }
    ensures clauses { AllZip (IsLitOf table.old) lits.now parts.now
        → OnOk result (AddsClauses table.new clauses.old clauses.new (flat_map definitions_in parts.now)) }
{
    for at in 0..parts.len() {
        push_definitions(alloc, table, clauses, &parts[at], lits[at])?;
    }
    Ok(())
}

// The clause that says that a literal is true, or that it is false.
fn push_constant(
    alloc: Global,
    clauses: &mut LitLists,
    lit: Lit,
    truth: bool,
) -> Result<(), AllocError>
    ensures { OnOk result (clauses.new ≡ clauses.old ++ constant_rows truth lit) }
{
    let unit = if truth { lit } else { lit.negated() };
    push_clause(alloc, clauses, &[unit])
}

// Pushes the clauses that define a literal as the conjunction of the formulas, and answers their literals.
fn define_all(
    alloc: Global,
    table: &mut AtomTable,
    clauses: &mut LitLists,
    lit: Lit,
    parts: &[Formula],
) -> Result<Lits, AllocError>
    ensures grows { GrowsBy (flat_map parts_in parts.now) table.old table.new }
    ensures lits { IfOk result (λ lits. AllZip (IsLitOf table.new) lits parts.now) }
    ensures count { IfOk result (λ lits. length lits ≡ length parts.now) }
    ensures clauses { IfOk result (λ lits. clauses.new ≡ clauses.old ++ conjunction_rows lit lits) }
{
    let lits = lits_of(alloc, table, parts)?;
    push_conjunction(alloc, clauses, lit, lits.as_slice())?;
    Ok(lits)
}

// Pushes the clauses that define a literal as the disjunction of the formulas, and answers their literals.
fn define_any(
    alloc: Global,
    table: &mut AtomTable,
    clauses: &mut LitLists,
    lit: Lit,
    parts: &[Formula],
) -> Result<Lits, AllocError>
    ensures grows { GrowsBy (flat_map parts_in parts.now) table.old table.new }
    ensures lits { IfOk result (λ lits. AllZip (IsLitOf table.new) lits parts.now) }
    ensures count { IfOk result (λ lits. length lits ≡ length parts.now) }
    ensures clauses { IfOk result (λ lits. clauses.new ≡ clauses.old ++ disjunction_rows lit lits) }
{
    let lits = lits_of(alloc, table, parts)?;
    push_disjunction(alloc, clauses, lit, lits.as_slice())?;
    Ok(lits)
}

// Pushes the clauses that define a literal as that two formulas have one truth, and answers their literals.
fn define_iff(
    alloc: Global,
    table: &mut AtomTable,
    clauses: &mut LitLists,
    lit: Lit,
    left: &Formula,
    right: &Formula,
) -> Result<(Lit, Lit), AllocError>
    ensures grows { GrowsBy (parts_in left.now ++ parts_in right.now) table.old table.new }
    ensures left { IfOk result (λ lits. IsLitOf table.new lits.0 left.now) }
    ensures right { IfOk result (λ lits. IsLitOf table.new lits.1 right.now) }
    ensures clauses { IfOk result (λ lits. clauses.new ≡ clauses.old ++ equivalence_rows lit lits.0 lits.1) }
{
    let first = lit_of(alloc, table, left)?;
    let second = lit_of(alloc, table, right)?;
    push_equivalence(alloc, clauses, lit, first, second)?;
    Ok((first, second))
}

// Pushes the clauses that define a literal as a choice between two formulas, and answers the three formulas' literals.
fn define_choice(
    alloc: Global,
    table: &mut AtomTable,
    clauses: &mut LitLists,
    lit: Lit,
    condition: &Formula,
    yes: &Formula,
    no: &Formula,
) -> Result<(Lit, Lit, Lit), AllocError>
    ensures grows { GrowsBy (parts_in condition.now ++ (parts_in yes.now ++ parts_in no.now)) table.old table.new }
    ensures condition { IfOk result (λ lits. IsLitOf table.new lits.0 condition.now) }
    ensures yes { IfOk result (λ lits. IsLitOf table.new lits.1 yes.now) }
    ensures no { IfOk result (λ lits. IsLitOf table.new lits.2 no.now) }
    ensures clauses { IfOk result (λ lits. clauses.new ≡ clauses.old ++ choice_rows lit lits.0 lits.1 lits.2) }
{
    let chooses = lit_of(alloc, table, condition)?;
    let first = lit_of(alloc, table, yes)?;
    let second = lit_of(alloc, table, no)?;
    push_choice(alloc, clauses, lit, chooses, first, second)?;
    Ok((chooses, first, second))
}

fn push_clause(alloc: Global, clauses: &mut LitLists, lits: &[Lit]) -> Result<(), AllocError>
    ensures { OnOk result (clauses.new ≡ clauses.old ++ lits.now ∷ []) }
{
    clauses.push(Lits::from_slice(alloc, lits)?)
}

// The clauses that say that a literal is true exactly where all others are.
fn push_conjunction(
    alloc: Global,
    clauses: &mut LitLists,
    lit: Lit,
    lits: &[Lit],
) -> Result<(), AllocError>
    ensures { OnOk result (clauses.new ≡ clauses.old ++ conjunction_rows lit lits.now) }
{
    push_each_follows(alloc, clauses, lit.negated(), lits)?;
    push_negated_behind(alloc, clauses, lit, lits)
}

// The clauses that say that a literal is true exactly where some other is.
fn push_disjunction(
    alloc: Global,
    clauses: &mut LitLists,
    lit: Lit,
    lits: &[Lit],
) -> Result<(), AllocError>
    ensures { OnOk result (clauses.new ≡ clauses.old ++ disjunction_rows lit lits.now) }
{
    push_follows_from_each(alloc, clauses, lit, lits)?;
    push_behind(alloc, clauses, lit.negated(), lits)
}

// For each literal the clause of a first one and this one.
fn push_each_follows(
    alloc: Global,
    clauses: &mut LitLists,
    first: Lit,
    lits: &[Lit],
) -> Result<(), AllocError>
    ensures { OnOk result (clauses.new ≡ clauses.old ++ map (λ lit. first ∷ lit ∷ []) lits.now) }
{
    for lit in lits {
        push_clause(alloc, clauses, &[first, *lit])?;
    }
    Ok(())
}

// For each literal the clause of a first one and the negation of this one.
fn push_follows_from_each(
    alloc: Global,
    clauses: &mut LitLists,
    first: Lit,
    lits: &[Lit],
) -> Result<(), AllocError>
    ensures { OnOk result (clauses.new ≡ clauses.old ++ map (λ lit. first ∷ negated lit ∷ []) lits.now) }
{
    for lit in lits {
        push_clause(alloc, clauses, &[first, lit.negated()])?;
    }
    Ok(())
}

// The clause of a first literal and these behind it.
fn push_behind(
    alloc: Global,
    clauses: &mut LitLists,
    first: Lit,
    lits: &[Lit],
) -> Result<(), AllocError>
    ensures { OnOk result (clauses.new ≡ clauses.old ++ (first ∷ lits.now) ∷ []) }
{
    let mut clause = Lits::new(alloc);
    clause.push(first)?;
    for lit in lits {
        clause.push(*lit)?;
    }
    clauses.push(clause)
}

// The clause of a first literal and the negations of these behind it.
fn push_negated_behind(
    alloc: Global,
    clauses: &mut LitLists,
    first: Lit,
    lits: &[Lit],
) -> Result<(), AllocError>
    ensures { OnOk result (clauses.new ≡ clauses.old ++ (first ∷ map negated lits.now) ∷ []) }
{
    let mut clause = Lits::new(alloc);
    clause.push(first)?;
    for lit in lits {
        clause.push(lit.negated())?;
    }
    clauses.push(clause)
}

// The clauses that say that a literal is true exactly where two others have one truth.
fn push_equivalence(
    alloc: Global,
    clauses: &mut LitLists,
    lit: Lit,
    left: Lit,
    right: Lit,
) -> Result<(), AllocError>
    ensures { OnOk result (clauses.new ≡ clauses.old ++ equivalence_rows lit left right) }
{
    push_clause(alloc, clauses, &[lit.negated(), left.negated(), right])?;
    push_clause(alloc, clauses, &[lit.negated(), left, right.negated()])?;
    push_clause(alloc, clauses, &[lit, left, right])?;
    push_clause(alloc, clauses, &[lit, left.negated(), right.negated()])
}

// The clauses that say that a literal has the truth of the second of these where the first is true, and else that of the third.
fn push_choice(
    alloc: Global,
    clauses: &mut LitLists,
    lit: Lit,
    condition: Lit,
    yes: Lit,
    no: Lit,
) -> Result<(), AllocError>
    ensures { OnOk result (clauses.new ≡ clauses.old ++ choice_rows lit condition yes no) }
{
    push_clause(alloc, clauses, &[lit.negated(), condition.negated(), yes])?;
    push_clause(alloc, clauses, &[lit.negated(), condition, no])?;
    push_clause(alloc, clauses, &[lit, condition.negated(), yes.negated()])?;
    push_clause(alloc, clauses, &[lit, condition, no.negated()])
}
