//! Assertions and the question.

ghost use Rattle.std.specs.Prelude.{◌≡◌};
ghost use Rattle.smtlib_terms.specs.Answers.{Answers};
ghost use Rattle.smtlib_terms.specs.Operators.{as_formula};
ghost use Rattle.smtlib_decls.specs.Commands.{asserted, assertion_command, may_assert, question_command};
ghost use Rattle.smtlib_decls.specs.Takes.{Takes};
ghost use Rattle.operator_arguments.specs.Measured.{meaning_of};

use crate::label::label_of;
use crate::progress::Progress;
use mbqi_terms::Formula;
use mbqi_values::{FaultKind, ReadError, Text};
use operator_arguments::MeasuredMeaning;
use sexpr_text::Sexpr;
use smtlib_terms::refused;
use std::alloc::Global;
use term_reader::read_closed_term;

/// Whether an assertion with this label may stand here. Refused: Unsupported behind the question, Twice where an earlier
/// assertion has the label.
fn may_assert(progress: &Progress, label: &Option<Text>) -> Result<(), ReadError>
    ensures { Answers result (may_assert progress.now label.now) }
{
    if progress.asks {
        return Err(refused(FaultKind::Unsupported));
    }
    if progress.assertions.is_taken(label) {
        return Err(refused(FaultKind::Twice));
    }
    Ok(())
}

/// The formula that a term is. Refused: WrongSort where it is none.
fn formula_of(term: MeasuredMeaning) -> Result<Formula, ReadError>
    ensures { Answers result (as_formula (meaning_of term)) }
{
    match term.into_formula() {
        Some(formula) => Ok(formula.into_formula()),
        None => Err(refused(FaultKind::WrongSort)),
    }
}

/// Asserts a term that was read, with its label. Refused: Unsupported behind the question, Twice where an earlier
/// assertion has the label, and then WrongSort where the term is no formula.
fn take_term(
    alloc: Global,
    progress: &mut Progress,
    label: Option<Text>,
    term: MeasuredMeaning,
) -> Result<(), ReadError>
    ensures { Takes result progress.new (asserted progress.old label (meaning_of term)) }
{
    may_assert(progress, &label)?;
    let formula = formula_of(term)?;
    progress.assertions.push(alloc, label, formula)?;
    Ok(())
}

/// Takes `(assert t)`, behind its word.
pub fn take_assertion(
    alloc: Global,
    progress: &mut Progress,
    parts: &[Sexpr],
) -> Result<(), ReadError>
    ensures { Takes result progress.new (assertion_command progress.old parts.now) }
{
    let [tree] = parts else {
        return Err(refused(FaultKind::BadForm));
    };
    let label = label_of(alloc, tree)?;
    let term = read_closed_term(alloc, &progress.names, tree)?;
    take_term(alloc, progress, label, term)
}

/// Takes `(check-sat)`, behind its word.
pub fn take_question(progress: &mut Progress, parts: &[Sexpr]) -> Result<(), ReadError>
    ensures { Takes result progress.new (question_command progress.old parts.now) }
{
    if !parts.is_empty() {
        return Err(refused(FaultKind::BadForm));
    }
    if progress.asks {
        return Err(refused(FaultKind::Unsupported));
    }
    progress.asks = true;
    Ok(())
}
