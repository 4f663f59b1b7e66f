ghost use Rattle.std.specs.Prelude.{◌≡◌, ◌<◌, ◌≤◌, ℕ, List, Option, length, take, IfOk, OnErr};
ghost use Rattle.mbqi_edge.specs.Faults.{Rose};
ghost use Rattle.mbqi_edge.specs.Told.{with_more};

use thiserror::Error;

/// A sink that takes nothing more.
#[derive(Clone, Copy, Debug, PartialEq, Eq, Error)]
#[error("the bytes cannot be written")]
pub struct SinkFailed;

/// Where bytes go. A sink may tell what it took, so that contracts can speak of it, or keep it to itself.
pub trait Sink {
    /// The bytes taken so far, where the sink tells them.
    ghost taken: { Self → Option (List ℕ) };

    /// How many faults there were. The count stays at its last value, 2^64 - 1.
    ghost faults: { Self → ℕ };

    /// Takes bytes from the front of the piece, one at least where there is one, and gives their number.
    ///
    /// `SinkFailed`: nothing was taken; it comes only where the count of faults rose.
    fn put(&mut self, piece: &[u8]) -> Result<usize, SinkFailed>
        ensures within { IfOk result (λ n. n ≤ length piece.now) }
        ensures some { IfOk result (λ n. 0 < length piece.now → 0 < n) }
        ensures taken { IfOk result (λ n.
            taken self.new ≡ with_more (taken self.old) (take n piece.now)) }
        ensures cause { OnErr result (Rose (faults self.old) (faults self.new)) }
        ensures err { OnErr result (taken self.new ≡ taken self.old) }
        ensures faults { faults self.old ≤ faults self.new };
}
