ghost use Rattle.std.specs.Prelude.{◌≡◌, ◌≤◌, ◌<◌, ◌+◌, ◌++◌, ℕ, List, None, length, take, IfOk, OnOk, OnErr, IsErrOf};
ghost use Rattle.std.specs.Io.KnownBytes.{IsAtEnd};
ghost use Rattle.mbqi_edge.specs.Faults.{Rose};
ghost use Rattle.mbqi_edge.specs.Files.{Has};
ghost use Rattle.mbqi_edge.specs.Reading.{Adds, AddsAll, TakesCount, TakesAtMost};

use crate::{FetchFault, Shelf};
use std::alloc::Global;
use std::fs;
use std::io::Read;
use std::rt::Files;

// How many bytes are read at a time.
const PIECE: usize = 4096;

/// A shelf over the files of a runtime: a name is a path. It tells nothing of what they hold.
#[derive(Drop)]
pub struct FolderShelf<'a, R: Files> {
    rt: &'a R,
    faults: u64,
}

impl<'a, R: Files> FolderShelf<'a, R> {
    /// A shelf over the runtime's files, with no fault yet.
    pub fn new(rt: &'a R) -> FolderShelf<'a, R>
        ensures faults { ⟦<FolderShelf<'a, R> as Shelf>⟧.faults result ≡ 0 }
    {
        FolderShelf { rt, faults: 0 }
    }
}

impl<'a, R: Files> Shelf for FolderShelf<'a, R> {
    ghost files = { λ _. None };

    ghost asked = { λ _. None };

    ghost faults = { λ shelf. shelf.faults };

    /// Reads one byte more than `limit` at most, so that a file without an end is too long and not read for
    /// ever. Each error of the system is `Failed`.
    fn fetch(
        &mut self,
        _alloc: Global,
        name: &str,
        limit: usize,
        into: &mut Vec<u8>,
    ) -> Result<(), FetchFault>
        // The bytes are all those that an opened file gave, and such a file gave too many.
        ensures whole { OnOk result ((file end : R.File)
            × AddsAll (R.File.remaining file) (R.File.remaining end) limit into.old.items into.new.items) }
        ensures longer { IsErrOf result FetchFault.TooLong → (file end : R.File)
            × TakesCount (R.File.remaining file) (R.File.remaining end) (limit + 1) }

        ensures bytes { OnOk result ((bytes : List ℕ) × (into.new.items ≡ into.old.items ++ bytes)
            × (length bytes ≤ limit) × Has None name.now bytes) }
        ensures failed { IsErrOf result FetchFault.Failed → Rose self.old.faults self.new.faults }
        ensures err { OnErr result (into.new.items ≡ into.old.items) }
        ensures faults { self.old.faults ≤ self.new.faults }
    {
        let fetched = match fs::open(self.rt, name) {
            Ok(mut file) => read_to_limit(&mut file, limit, into),
            Err(_) => Err(FetchFault::Failed),
        };
        if let Err(FetchFault::Failed) = fetched {
            self.faults = self.faults.saturating_add(1);
        }
        fetched
    }
}

// Adds all that the reader has left at the end of `into`, `limit` bytes at most, and takes one byte more than
// that at most. After an error `into` is as before.
fn read_to_limit<F: Read>(file: &mut F, limit: usize, into: &mut Vec<u8>) -> Result<(), FetchFault>
    ensures all { OnOk result (AddsAll (F.remaining file.old) (F.remaining file.new) limit
        into.old.items into.new.items) }
    ensures too_long { IsErrOf result FetchFault.TooLong
        → TakesCount (F.remaining file.old) (F.remaining file.new) (limit + 1) }
    ensures takes { TakesAtMost (F.remaining file.old) (F.remaining file.new) (limit + 1) }
    ensures err { OnErr result (into.new.items ≡ into.old.items) }
{
    let start = into.len();
    let fetched = read_pieces(file, limit, into);
    if fetched.is_err() {
        into.truncate(start);
    }
    fetched
}

// The same, but after an error `into` may have some of the reader's bytes at its end.
fn read_pieces<F: Read>(file: &mut F, limit: usize, into: &mut Vec<u8>) -> Result<(), FetchFault>
    ensures all { OnOk result (AddsAll (F.remaining file.old) (F.remaining file.new) limit
        into.old.items into.new.items) }
    ensures too_long { IsErrOf result FetchFault.TooLong
        → TakesCount (F.remaining file.old) (F.remaining file.new) (limit + 1) }
    ensures takes { TakesAtMost (F.remaining file.old) (F.remaining file.new) (limit + 1) }
    ensures front { take (length into.old.items) into.new.items ≡ into.old.items }
{
    let mut left = limit;
    loop {
        let count = read_piece(file, left.min(PIECE - 1) + 1, into)?;
        if count == 0 {
            return Ok(());
        }
        if count > left {
            return Err(FetchFault::TooLong);
        }
        left -= count;
    }
}

// Adds the bytes of one read, `most` of them at most, and gives their number: 0 at the end alone.
fn read_piece<F: Read>(file: &mut F, most: usize, into: &mut Vec<u8>) -> Result<usize, FetchFault>
    requires some { 0 < most }
    requires fits { most ≤ PIECE }
    ensures adds { IfOk result (λ count. Adds (F.remaining file.old) (F.remaining file.new) count
        into.old.items into.new.items) }
    ensures within { IfOk result (λ count. count ≤ most) }
    ensures end { IfOk result (λ count. count ≡ 0 → IsAtEnd (F.remaining file.new)) }
    ensures not_too_long { IsErrOf result FetchFault.TooLong → ⊥ }
    ensures takes { TakesAtMost (F.remaining file.old) (F.remaining file.new) most }
    ensures err { OnErr result (into.new.items ≡ into.old.items) }
{
    let mut piece = [0; PIECE];
    let Ok(count) = file.read(&mut piece[..most]) else {
        return Err(FetchFault::Failed);
    };
    into.extend_from_slice(&piece[..count])?;
    Ok(count)
}
