ghost use Rattle.std.specs.Prelude.{◌≡◌, ◌<◌, ◌≤◌, ◌++◌, ℕ, List, Option, length, OnOk, OnErr, IsErrOf};
ghost use Rattle.mbqi_edge.specs.Faults.{Rose};
ghost use Rattle.mbqi_edge.specs.Files.{Files, Has, Tells};
ghost use Rattle.mbqi_edge.specs.Asked.{asked_after};
ghost use Rattle.mbqi_edge.specs.declared.shelf.FetchFault.TheVariants.{Memory};

use std::alloc::{AllocError, AllocFailed, Global};
use thiserror::Error;

/// Why a file wasn't fetched.
#[derive(Clone, Copy, Debug, PartialEq, Eq, Error)]
pub enum FetchFault {
    /// The file isn't there, or it can't be read.
    #[error("the file cannot be read")]
    Failed,
    /// The file has more bytes than the limit.
    #[error("the file is longer than the limit")]
    TooLong,
    /// Memory ran out.
    #[error("out of memory")]
    Memory,
}

impl From<AllocError> for FetchFault {
    ghost from_gives = { λ _ fault. fault ≡ Memory };

    fn from(_error: AllocError) -> FetchFault {
        FetchFault::Memory
    }
}

impl<T: Drop> From<AllocFailed<T>> for FetchFault {
    ghost from_gives = { λ _ fault. fault ≡ Memory };

    fn from(_error: AllocFailed<T>) -> FetchFault {
        FetchFault::Memory
    }
}

/// Where files come from. A shelf may tell its files and the names that were asked of it, so that contracts
/// can speak of them, or keep them to itself.
pub trait Shelf {
    /// The files by their names, where the shelf tells them.
    ghost files: { Self → Files };

    /// The names asked so far, the latest last, where the shelf tells them.
    ghost asked: { Self → Option (List (List ℕ)) };

    /// How many faults there were. The count stays at its last value, 2^64 - 1.
    ghost faults: { Self → ℕ };

    /// Adds the bytes of the named file, `limit` of them at most, at the end of `into`. After an error `into`
    /// is as before. A name is noted as asked, but not where memory runs out.
    ///
    /// `Failed`: the file isn't there or can't be read; it comes only where the count of faults rose.
    /// `TooLong`: the file has more than `limit` bytes. `Memory`: memory ran out.
    fn fetch(
        &mut self,
        alloc: Global,
        name: &str,
        limit: usize,
        into: &mut Vec<u8>,
    ) -> Result<(), FetchFault>
        ensures bytes { OnOk result ((bytes : List ℕ) × (into.new.items ≡ into.old.items ++ bytes)
            × (length bytes ≤ limit) × Has (files self.old) name.now bytes) }
        ensures failed { IsErrOf result FetchFault.Failed
            → Rose (faults self.old) (faults self.new) }
        ensures too_long { IsErrOf result FetchFault.TooLong
            → Tells (files self.old) name.now (λ bytes. limit < length bytes) }
        ensures err { OnErr result (into.new.items ≡ into.old.items) }

        ensures files { files self.new ≡ files self.old }
        ensures asked { asked self.new ≡ asked_after result (asked self.old) name.now }
        ensures faults { faults self.old ≤ faults self.new };
}
