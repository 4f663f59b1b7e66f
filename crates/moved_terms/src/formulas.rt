//! Formulas with their variables moved.

ghost use Rattle.std.specs.Prelude.{◌≡◌, IfOk, map};
ghost use Rattle.smtlib_terms.specs.Meaning.{shifted_binder, shifted_formula, shifted_term};

use crate::copies::measured_array;
use crate::places::{Shift, moved_binders};
use crate::terms::moved_term;
use mbqi_terms::{ArrayTerm, Binder, Formula, Term};
use measured_terms::{MeasuredFormula, MeasuredFormulas};
use sqlite_items::Boxed;
use std::alloc::{AllocError, Global};

/// `=` of two terms with their variables moved.
fn moved_equality(
    alloc: Global,
    shift: Shift,
    s: &Term,
    t: &Term,
) -> Result<MeasuredFormula, AllocError>
    ensures { IfOk result (λ moved. moved ≡ Formula.Equal (shifted_term shift.from shift.by s.now) (shifted_term shift.from shift.by t.now)) }
{
    let left = moved_term(alloc, shift, s)?;
    MeasuredFormula::equal(left, moved_term(alloc, shift, t)?)
}

/// `<=` of two terms with their variables moved.
fn moved_order(
    alloc: Global,
    shift: Shift,
    s: &Term,
    t: &Term,
) -> Result<MeasuredFormula, AllocError>
    ensures { IfOk result (λ moved. moved ≡ Formula.AtMost (shifted_term shift.from shift.by s.now) (shifted_term shift.from shift.by t.now)) }
{
    let left = moved_term(alloc, shift, s)?;
    MeasuredFormula::at_most(left, moved_term(alloc, shift, t)?)
}

/// `=` of two array terms, which stay as they are.
fn copied_equality(
    alloc: Global,
    a: &ArrayTerm,
    b: &ArrayTerm,
) -> Result<MeasuredFormula, AllocError>
    ensures { IfOk result (λ copy. copy ≡ Formula.SameArray a.now b.now) }
{
    let left = measured_array(alloc, a)?;
    MeasuredFormula::same_array(left, measured_array(alloc, b)?)
}

/// Formulas with their variables moved.
#[cycle(formulas)]
fn moved_formulas(
    alloc: Global,
    shift: Shift,
    formulas: &[Formula],
) -> Result<MeasuredFormulas, AllocError>
    ensures { IfOk result (λ moved. moved ≡ map (shifted_formula shift.from shift.by) formulas.now) }
{
    let mut moved = MeasuredFormulas::new(alloc);
    for f in formulas {
        moved.push(moved_formula(alloc, shift, f)?)?;
    }
    Ok(moved)
}

/// `=` of a formula that was moved and of one that is to be moved.
#[cycle(formulas)]
fn moved_iff(
    alloc: Global,
    shift: Shift,
    g: &Boxed<Formula>,
    left: MeasuredFormula,
) -> Result<MeasuredFormula, AllocError>
    ensures { IfOk result (λ moved. moved ≡ Formula.Iff left (shifted_formula shift.from shift.by g.now)) }
{
    MeasuredFormula::iff(alloc, left, moved_formula(alloc, shift, g.get())?)
}

/// `ite` of a condition and a branch that were moved and of a branch that is to be moved.
#[cycle(formulas)]
fn moved_choice(
    alloc: Global,
    shift: Shift,
    g: &Boxed<Formula>,
    condition: MeasuredFormula,
    then: MeasuredFormula,
) -> Result<MeasuredFormula, AllocError>
    ensures { IfOk result (λ moved. moved ≡ Formula.Choose condition then (shifted_formula shift.from shift.by g.now)) }
{
    MeasuredFormula::choose(
        alloc,
        condition,
        then,
        moved_formula(alloc, shift, g.get())?,
    )
}

/// `forall` with its variables moved.
#[cycle(formulas)]
fn moved_forall(
    alloc: Global,
    shift: Shift,
    binders: &[Binder],
    f: &Boxed<Formula>,
) -> Result<MeasuredFormula, AllocError>
    ensures { IfOk result (λ moved. moved ≡ Formula.Forall (map (shifted_binder shift.from shift.by) binders.now) (shifted_formula shift.from shift.by f.now)) }
{
    let moved = moved_binders(alloc, shift, binders)?;
    MeasuredFormula::forall(alloc, moved, moved_formula(alloc, shift, f.get())?)
}

/// `exists` with its variables moved.
#[cycle(formulas)]
fn moved_exists(
    alloc: Global,
    shift: Shift,
    binders: &[Binder],
    f: &Boxed<Formula>,
) -> Result<MeasuredFormula, AllocError>
    ensures { IfOk result (λ moved. moved ≡ Formula.Exists (map (shifted_binder shift.from shift.by) binders.now) (shifted_formula shift.from shift.by f.now)) }
{
    let moved = moved_binders(alloc, shift, binders)?;
    MeasuredFormula::exists(alloc, moved, moved_formula(alloc, shift, f.get())?)
}

/// The formula with its variables moved, free ones and those that its quantifiers bind, and with its measures. Array
/// terms whose equality is stated have no variables, and stay as they are. The only error is want of memory.
///
/// SMT-LIB 2.6 lets names of variables be reused; that variables are told apart by places is this project's own.
#[cycle(formulas)]
#[tactic(auto, using(crate::proofs::FormulaMoves::formula_laws))]
pub fn moved_formula(
    alloc: Global,
    shift: Shift,
    formula: &Formula,
) -> Result<MeasuredFormula, AllocError>
    ensures { IfOk result (λ moved. moved ≡ shifted_formula shift.from shift.by formula.now) }
{
    match formula {
        Formula::Truth(truth) => Ok(MeasuredFormula::truth(*truth)),
        Formula::Atom(t) => Ok(MeasuredFormula::atom(moved_term(alloc, shift, t)?)),
        Formula::Equal(s, t) => moved_equality(alloc, shift, s, t),
        Formula::AtMost(s, t) => moved_order(alloc, shift, s, t),
        Formula::SameArray(a, b) => copied_equality(alloc, a, b),
        Formula::Not(f) => MeasuredFormula::negation(alloc, moved_formula(alloc, shift, f.get())?),
        Formula::All(fs) => MeasuredFormula::all(moved_formulas(alloc, shift, fs.as_slice())?),
        Formula::Any(fs) => MeasuredFormula::any(moved_formulas(alloc, shift, fs.as_slice())?),
        Formula::Iff(f, g) => moved_iff(alloc, shift, g, moved_formula(alloc, shift, f.get())?),
        Formula::Choose(c, f, g) => {
            let condition = moved_formula(alloc, shift, c.get())?;
            let then = moved_formula(alloc, shift, f.get())?;
            moved_choice(alloc, shift, g, condition, then)
        }
        Formula::Forall(binders, f) => moved_forall(alloc, shift, binders.as_slice(), f),
        Formula::Exists(binders, f) => moved_exists(alloc, shift, binders.as_slice(), f),
    }
}
