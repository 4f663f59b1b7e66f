//! The line that says why there is no answer.

ghost use Rattle.std.specs.Prelude.{◌≡◌, ◌≤◌, ◌⊎◌, ◌++◌, codes, decimal};
ghost use Rattle.mbqi_values.specs.FaultKind.{name_of};
ghost use Rattle.mbqi_edge.specs.Faults.{Rose};
ghost use Rattle.mbqi_edge.specs.Told.{with_more};
ghost use Rattle.mbqi_app.specs.Told.{told_of, refusal_text, TookPart, Puts};

use itoa::Buffer;
use mbqi_edge::{Sink, SinkFailed, put_all};
use mbqi_values::{FaultKind, Refusal, Status};

/// Writes the status's line, if it has one, without taking memory. A fault of the sink is passed over: it changes
/// no status.
#[tactic(auto, using(crate::proofs::Puts::told, crate::proofs::Puts::part))]
pub fn tell<E: Sink>(err: &mut E, status: &Status)
    ensures told { Rose (E.faults err.old) (E.faults err.new)
        ⊎ (E.taken err.new ≡ with_more (E.taken err.old) (told_of status.now)) }
    ensures part { TookPart (E.taken err.old) (E.taken err.new) (told_of status.now) }
{
    let _passed_over = put_line(err, status);
}

fn put_line<E: Sink>(err: &mut E, status: &Status) -> Result<(), SinkFailed>
    ensures puts { Puts result (E.taken err.old) (E.taken err.new) (E.faults err.old) (E.faults err.new)
        (told_of status.now) }
{
    match status {
        Status::Sat | Status::Unsat | Status::Unknown | Status::Done | Status::No => put_piece(
            err, b"",
        ),
        Status::Words => put_piece(err, b"mbqi: these words are no command\n"),
        Status::ScriptRefused(refusal) => put_refusal(err, b"mbqi: refused at ", refusal),
        Status::ReadFault => put_piece(err, b"mbqi: the file cannot be read\n"),
        Status::TooLong => put_piece(err, b"mbqi: the file is longer than 67108864 bytes\n"),
        Status::WriteFault => put_piece(err, b"mbqi: the answer cannot be written\n"),
        Status::Memory => put_piece(err, b"mbqi: out of memory\n"),
        Status::TooWide(weight) => put_weight(err, *weight),
        Status::ModelRefused(refusal) => put_refusal(
            err,
            b"mbqi: the model is refused at ",
            refusal,
        ),
        Status::RefutationRefused(refusal) => {
            put_refusal(err, b"mbqi: the refutation is refused at ", refusal)
        }
    }
}

fn put_weight<E: Sink>(err: &mut E, weight: u128) -> Result<(), SinkFailed>
    ensures puts { Puts result (E.taken err.old) (E.taken err.new) (E.faults err.old) (E.faults err.new)
        (codes "mbqi: too wide: " ++ decimal weight ++ codes "\n") }
    ensures faults { E.faults err.old ≤ E.faults err.new }
{
    put_number(err, b"mbqi: too wide: ", weight)?;
    put_piece(err, b"\n")
}

/// The line of a refusal, behind its front.
fn put_refusal<E: Sink>(err: &mut E, front: &[u8], refusal: &Refusal) -> Result<(), SinkFailed>
    ensures puts { Puts result (E.taken err.old) (E.taken err.new) (E.faults err.old) (E.faults err.new)
        (refusal_text front.now refusal.now) }
    ensures faults { E.faults err.old ≤ E.faults err.new }
{
    put_number(err, front, refusal.at as u128)?;
    put_kind(err, refusal.kind)
}

fn put_kind<E: Sink>(err: &mut E, kind: FaultKind) -> Result<(), SinkFailed>
    ensures puts { Puts result (E.taken err.old) (E.taken err.new) (E.faults err.old) (E.faults err.new)
        (codes ": " ++ name_of kind ++ codes "\n") }
    ensures faults { E.faults err.old ≤ E.faults err.new }
{
    put_name(err, kind)?;
    put_piece(err, b"\n")
}

/// A number in digits, behind its front.
fn put_number<E: Sink>(err: &mut E, front: &[u8], number: u128) -> Result<(), SinkFailed>
    ensures puts { Puts result (E.taken err.old) (E.taken err.new) (E.faults err.old) (E.faults err.new)
        (front.now ++ decimal number) }
    ensures faults { E.faults err.old ≤ E.faults err.new }
{
    put_two(err, front, Buffer::new().format(number).as_bytes())
}

fn put_name<E: Sink>(err: &mut E, kind: FaultKind) -> Result<(), SinkFailed>
    ensures puts { Puts result (E.taken err.old) (E.taken err.new) (E.faults err.old) (E.faults err.new)
        (codes ": " ++ name_of kind) }
    ensures faults { E.faults err.old ≤ E.faults err.new }
{
    put_two(err, b": ", kind.name().as_bytes())
}

/// Two pieces, one behind the other.
fn put_two<E: Sink>(err: &mut E, first: &[u8], second: &[u8]) -> Result<(), SinkFailed>
    ensures puts { Puts result (E.taken err.old) (E.taken err.new) (E.faults err.old) (E.faults err.new)
        (first.now ++ second.now) }
    ensures faults { E.faults err.old ≤ E.faults err.new }
{
    put_piece(err, first)?;
    put_piece(err, second)
}

/// `put_all`, with its answers as one fact.
#[tactic(auto, using(crate::proofs::Puts::of_piece))]
fn put_piece<E: Sink>(err: &mut E, piece: &[u8]) -> Result<(), SinkFailed>
    ensures puts { Puts result (E.taken err.old) (E.taken err.new) (E.faults err.old) (E.faults err.new)
        piece.now }
    ensures faults { E.faults err.old ≤ E.faults err.new }
{
    put_all(err, piece)
}
