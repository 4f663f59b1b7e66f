//! The one call of the program.

ghost use Rattle.std.specs.Prelude.{◌≡◌, ◌↔◌, ◌⊎◌, ◌<◌, length, map, string_bytes, None, IsTrue};
ghost use Rattle.mbqi_edge.specs.Faults.{Rose};
ghost use Rattle.mbqi_edge.specs.Told.{with_more};
ghost use Rattle.mbqi_values.specs.declared.fault.Refusal.{Refusal};
ghost use Rattle.mbqi_app.specs.Answer.{Answers, AnswersFront, TookAll};
ghost use Rattle.mbqi_app.specs.Asked.{AskedFront, Counts, names_of};
ghost use Rattle.mbqi_app.specs.Carried.{CarriesOut, Responds};
ghost use Rattle.mbqi_app.specs.Command.{asked_for};
ghost use Rattle.mbqi_app.specs.Statuses.{Gives, GivesLong, IfScriptRefused, IsFinished, IsOneOf, IsOneOfAll, IsRefusedAs, IsTaken, Of, OfTold, file_limit, is_answered, is_silent};
ghost use Rattle.mbqi_app.specs.Task.{command_of_task};
ghost use Rattle.mbqi_app.specs.Told.{told_of, TookPart};

use crate::command::{Task, task_of};
use crate::fetch::fetch_file;
use crate::print::print;
use crate::solve::solve;
use crate::tell::tell;
use mbqi_edge::{Shelf, Sink};
use mbqi_values::{Status, Steps};
use std::alloc::Global;
use std::sync::ledger::Ledger;

/// Carries out the command of the words, which come without the program's name: fetches the files of its words from the
/// shelf, writes the answer to `out` when it is whole, and the cause to `err` where there is none.
///
/// The status says which: an answer, or the cause why there is none. A fault of `err` changes no status. The counter
/// rises by the ground decisions behind the answer.
pub fn run<F: Shelf, W: Sink, E: Sink, L: Ledger>(
    alloc: Global,
    words: &[String],
    shelf: &mut F,
    out: &mut W,
    err: &mut E,
    steps: &mut Steps<L>,
) -> Status
    // The causes of the statuses without an answer.
    ensures words { (result ≡ Status.Words) ↔ (asked_for (map string_bytes words.now) ≡ None) }
    ensures read_fault { result ≡ Status.ReadFault → Rose (F.faults shelf.old) (F.faults shelf.new) }
    ensures too_long { result ≡ Status.TooLong
        → OfTold (map string_bytes words.now) (F.files shelf.old) (λ bytes. file_limit < length bytes) }
    ensures refused { IfScriptRefused result (λ refusal.
        Of (map string_bytes words.now) (F.files shelf.old) (IsRefusedAs refusal)) }
    ensures comes { IsOneOfAll result }

    // What an answer says, and what was written of it.
    ensures answer { IsTrue (is_answered result) → Answers (map string_bytes words.now) (F.files shelf.old) steps.old steps.new result
        (TookAll (W.taken out.old) (W.taken out.new)) }
    ensures write_fault { result ≡ Status.WriteFault → Rose (W.faults out.old) (W.faults out.new)
        × AnswersFront (map string_bytes words.now) (F.files shelf.old) steps.old steps.new (W.taken out.old) (W.taken out.new) }
    ensures silent { IsTrue (is_silent result) → W.taken out.new ≡ W.taken out.old }
    ensures told { Rose (E.faults err.old) (E.faults err.new)
        ⊎ (E.taken err.new ≡ with_more (E.taken err.old) (told_of result)) }
    ensures part { TookPart (E.taken err.old) (E.taken err.new) (told_of result) }

    // What is asked of the shelf, and what the answer cost.
    ensures files { F.files shelf.new ≡ F.files shelf.old }
    ensures asked { AskedFront (F.asked shelf.old) (F.asked shelf.new) (names_of (asked_for (map string_bytes words.now))) }
    ensures all_asked { IsTrue (is_answered result)
        → F.asked shelf.new ≡ with_more (F.asked shelf.old) (names_of (asked_for (map string_bytes words.now))) }
    ensures steps { Counts (asked_for (map string_bytes words.now)) result steps.old steps.new }

    // A file that is read without a fault has the answer that its bytes call for, or memory runs out, or the answer can't be
    // written.
    ensures complete { Gives (map string_bytes words.now) (F.files shelf.old) IsTaken
        → IsFinished result }
    ensures refuses { (refusal : Refusal) → Gives (map string_bytes words.now) (F.files shelf.old) (IsRefusedAs refusal)
        → IsOneOf result (Status.ScriptRefused refusal) }
    ensures long { GivesLong (map string_bytes words.now) (F.files shelf.old)
        → IsOneOf result Status.TooLong }
{
    let status = carry_out(alloc, words, shelf, out, steps);
    tell(err, &status);
    status
}

/// `run` but for the line on `err`. Each of its other clauses is a field of `CarriesOut`.
fn carry_out<F: Shelf, W: Sink, L: Ledger>(
    alloc: Global,
    words: &[String],
    shelf: &mut F,
    out: &mut W,
    steps: &mut Steps<L>,
) -> Status
    ensures { CarriesOut (map string_bytes words.now)
        (record { files = F.files shelf.old; asked = F.asked shelf.old; faults = F.faults shelf.old })
        (record { files = F.files shelf.new; asked = F.asked shelf.new; faults = F.faults shelf.new })
        (record { taken = W.taken out.old; faults = W.faults out.old; steps = steps.old })
        (record { taken = W.taken out.new; faults = W.faults out.new; steps = steps.new })
        result }
{
    let Some(task) = task_of(words) else {
        return Status::Words;
    };
    match fetch_file(alloc, task.file(), shelf) {
        Ok(bytes) => respond(alloc, task, bytes.as_slice(), out, steps),
        Err(status) => status,
    }
}

/// The command of a task, for a script of these bytes.
fn respond<W: Sink, L: Ledger>(
    alloc: Global,
    task: Task<'_>,
    bytes: &[u8],
    out: &mut W,
    steps: &mut Steps<L>,
) -> Status
    ensures { Responds (command_of_task task.entry) bytes.now
        (record { taken = W.taken out.old; faults = W.faults out.old; steps = steps.old })
        (record { taken = W.taken out.new; faults = W.faults out.new; steps = steps.new })
        result }
{
    match task {
        Task::Solve(_) => solve(alloc, bytes, out, steps),
        Task::Print(_) => print(alloc, bytes, out),
    }
}
