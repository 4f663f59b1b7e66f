//! `print`: from the bytes of a script to its canonical text.

ghost use Rattle.std.specs.Prelude.{◌≡◌, ◌⊎◌, ℕ, List, IfOk, IsTrue};
ghost use Rattle.sexpr_text.specs.Forms.{IfRefused};
ghost use Rattle.mbqi_values.specs.declared.fault.Refusal.{Refusal};
ghost use Rattle.mbqi_values.specs.declared.status.Status.TheVariants.{Done};
ghost use Rattle.mbqi_edge.specs.Faults.{Rose};
ghost use Rattle.mbqi_app.specs.Answer.{IsPrinted, TookAll, TookFront};
ghost use Rattle.mbqi_app.specs.Statuses.{ComesFromBytes, IfScriptRefused, IsDone, IsTakenByPrint, is_answered, is_silent};
ghost use Rattle.smtlib_decls.specs.Means.{Refused};

use mbqi_edge::{Sink, put_all};
use mbqi_values::{ReadError, Status};
use printed_script::printed_means_the_same;
use script_text::write_script;
use smtlib_decls::{one_script_or_refusal, read_text};
use std::alloc::Global;

/// Writes the canonical text of the script of the bytes when it is whole.
pub fn print<W: Sink>(alloc: Global, bytes: &[u8], out: &mut W) -> Status
    ensures refused { IfScriptRefused result (λ refusal. Refused bytes.now refusal) }
    ensures answer { IsTrue (is_answered result)
        → (text : List ℕ) × IsPrinted bytes.now result text × TookAll (W.taken out.old) (W.taken out.new) text }
    ensures write_fault { result ≡ Status.WriteFault → Rose (W.faults out.old) (W.faults out.new)
        × ((status : Status) × (text : List ℕ) × IsPrinted bytes.now status text × TookFront (W.taken out.old) (W.taken out.new) text) }
    ensures silent { IsTrue (is_silent result) → W.taken out.new ≡ W.taken out.old }
    ensures comes { ComesFromBytes result }
    ensures complete { IsTakenByPrint bytes.now → IsDone result }
    ensures refuses { (refusal : Refusal) → Refused bytes.now refusal
        → (result ≡ Status.ScriptRefused refusal) ⊎ (result ≡ Status.Memory) }
{
    one_script_or_refusal();
    match printed(alloc, bytes) {
        Ok(text) => match put_all(out, text.as_slice()) {
            Ok(()) => Status::Done,
            Err(_) => Status::WriteFault,
        },
        Err(ReadError::Refused(refusal)) => Status::ScriptRefused(refusal),
        Err(ReadError::Memory) => Status::Memory,
    }
}

/// The canonical text of the script of the bytes.
fn printed(alloc: Global, bytes: &[u8]) -> Result<Vec<u8>, ReadError>
    ensures text { IfOk result (λ text. IsPrinted bytes.now Done text.items) }
    ensures refused { IfRefused result (Refused bytes.now) }
{
    let script = read_text(alloc, bytes)?;
    let mut text = Vec::new(alloc);
    write_script(&script, &mut text)?;
    printed_means_the_same();
    Ok(text)
}
