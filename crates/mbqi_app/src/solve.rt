//! `solve`: from the bytes of a script to a model, or to instances that are refuted.

ghost use Rattle.std.specs.Prelude.{◌≡◌, ◌+◌, ◌⊎◌, ℕ, List, IfOk, OnOk, IsTrue};
ghost use Rattle.sexpr_text.specs.Forms.{IfRefused};
ghost use Rattle.mbqi_edge.specs.Faults.{Rose};
ghost use Rattle.mbqi_values.specs.declared.fault.Refusal.{Refusal};
ghost use Rattle.mbqi_app.specs.Answer.{IsSolution, TookAll, TookFront, outcome_text, status_of};
ghost use Rattle.mbqi_app.specs.Asked.{CountsReading, CountsSolving};
ghost use Rattle.mbqi_app.specs.Statuses.{ComesFromBytes, IfScriptRefused, IsDecided, IsRefusedBySolve, IsTakenBySolve, is_answered, is_silent};
ghost use Rattle.element_atoms.specs.Profile.{IsElementary};
ghost use Rattle.smtlib_decls.specs.Means.{Means};

use crate::model_text::write_model;
use first_profile::is_elementary;
use mbqi_edge::{Sink, put_all};
use mbqi_loop::{Outcome, solve_rules};
use mbqi_terms::Script;
use mbqi_values::{FaultKind, ReadError, Refusal, Status, Steps};
use refutation_text::write_refutation;
use smtlib_decls::{one_script_or_refusal, read_text};
use std::alloc::{AllocError, Global};
use std::sync::ledger::Ledger;

/// What isn't taken yet is refused at the start.
const OUTSIDE: Refusal = Refusal {
    at: 0,
    kind: FaultKind::Unsupported,
};

/// Decides the script of the bytes, and writes the answer when it is whole.
pub fn solve<W: Sink, L: Ledger>(
    alloc: Global,
    bytes: &[u8],
    out: &mut W,
    steps: &mut Steps<L>,
) -> Status
    ensures refused { IfScriptRefused result (IsRefusedBySolve bytes.now) }
    ensures answer { IsTrue (is_answered result) → (rise : ℕ) × (steps.new ≡ steps.old + rise) × (text : List ℕ) × IsSolution bytes.now rise result text
        × TookAll (W.taken out.old) (W.taken out.new) text }
    ensures write_fault { result ≡ Status.WriteFault → Rose (W.faults out.old) (W.faults out.new)
        × ((status : Status) × (rise : ℕ) × (steps.new ≡ steps.old + rise) × (text : List ℕ) × IsSolution bytes.now rise status text
        × TookFront (W.taken out.old) (W.taken out.new) text) }
    ensures silent { IsTrue (is_silent result) → W.taken out.new ≡ W.taken out.old }
    ensures comes { ComesFromBytes result }
    ensures steps { CountsSolving result steps.old steps.new }
    ensures complete { IsTakenBySolve bytes.now → IsDecided result }
    ensures refuses { (refusal : Refusal) → IsRefusedBySolve bytes.now refusal
        → (result ≡ Status.ScriptRefused refusal) ⊎ (result ≡ Status.Memory) }
{
    one_script_or_refusal();
    match read_answer(alloc, bytes, steps) {
        Ok(answer) => match put_all(out, answer.text.as_slice()) {
            Ok(()) => answer.status,
            Err(_) => Status::WriteFault,
        },
        Err(ReadError::Refused(refusal)) => Status::ScriptRefused(refusal),
        Err(ReadError::Memory) => Status::Memory,
    }
}

/// An answer, whole: its status and its text.
#[derive(Drop)]
struct Answer {
    status: Status,
    text: Vec<u8>,
}

/// The answer to the script of the bytes.
fn read_answer<L: Ledger>(
    alloc: Global,
    bytes: &[u8],
    steps: &mut Steps<L>,
) -> Result<Answer, ReadError>
    ensures text { IfOk result (λ answer. (rise : ℕ) × (steps.new ≡ steps.old + rise) × IsSolution bytes.now rise answer.status answer.text.items) }
    ensures taken { OnOk result (IsTakenBySolve bytes.now) }
    ensures refused { IfRefused result (IsRefusedBySolve bytes.now) }
    ensures steps { CountsReading result steps.old steps.new }
{
    let script = read_taken(alloc, bytes)?;
    let outcome = solve_rules(alloc, &script, steps)?;
    Ok(answer_of(alloc, &script, &outcome)?)
}

/// The script of the bytes, which is one that is taken so far.
fn read_taken(alloc: Global, bytes: &[u8]) -> Result<Script, ReadError>
    ensures means { IfOk result (Means bytes.now) }
    ensures elementary { IfOk result (λ script. IsElementary script) }
    ensures refused { IfRefused result (IsRefusedBySolve bytes.now) }
{
    let script = read_text(alloc, bytes)?;
    if is_elementary(&script) {
        Ok(script)
    } else {
        Err(ReadError::Refused(OUTSIDE))
    }
}

/// The status and the text of an outcome.
fn answer_of(alloc: Global, script: &Script, outcome: &Outcome) -> Result<Answer, AllocError>
    ensures status { IfOk result (λ answer. answer.status ≡ status_of outcome.now) }
    ensures text { IfOk result (λ answer. answer.text.items ≡ outcome_text script.now outcome.now) }
{
    let mut text = Vec::new(alloc);
    match outcome {
        Outcome::Sat(model, _) => {
            write_model(script, model, &mut text)?;
            Ok(Answer {
                status: Status::Sat,
                text,
            })
        }
        Outcome::Unsat(lines, _) => {
            write_refutation(script, lines.as_slice(), &mut text)?;
            Ok(Answer {
                status: Status::Unsat,
                text,
            })
        }
    }
}
