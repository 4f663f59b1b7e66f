ghost use Rattle.std.specs.Prelude.{◌≡◌, ◌<◌, ◌≤◌, ℕ, length, take, OnOk, OnErr, IsOk};
ghost use Rattle.mbqi_edge.specs.Faults.{Rose};
ghost use Rattle.mbqi_edge.specs.Told.{with_more};

use crate::{Sink, SinkFailed};

/// Puts the whole piece into the sink, by as many calls of `put` as that takes: none for an empty piece.
///
/// `SinkFailed`: the sink took a proper front of the piece and then failed; it comes only where the sink's
/// count of faults rose.
pub fn put_all<W: Sink>(sink: &mut W, piece: &[u8]) -> Result<(), SinkFailed>
    ensures all { OnOk result (W.taken sink.new ≡ with_more (W.taken sink.old) piece.now) }
    ensures cause { OnErr result (Rose (W.faults sink.old) (W.faults sink.new)) }
    ensures front { OnErr result ((n : ℕ) × (n < length piece.now)
        × (W.taken sink.new ≡ with_more (W.taken sink.old) (take n piece.now))) }
    ensures faults { W.faults sink.old ≤ W.faults sink.new }
    ensures empty { length piece.now ≡ 0 → IsOk result × (sink.new ≡ sink.old) }
{
    let mut at = 0;
    while at < piece.len() {
        at += sink.put(&piece[at..])?;
    }
    Ok(())
}
