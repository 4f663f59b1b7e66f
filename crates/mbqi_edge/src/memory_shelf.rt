ghost use Rattle.std.specs.Prelude.{◌≡◌, ◌⊎◌, ◌<◌, ◌≤◌, [], ◌∷◌, ◌++◌, ℕ, List, length, Some, None, Ok, Err, position, IsErrOf, IsOk, OnOk, OnErr};
ghost use Rattle.std.specs.Option.{option_copied};
ghost use Rattle.std.specs.Str.{bytes_eq};
ghost use Rattle.mbqi_edge.specs.MemoryShelf.{file_of, Gives, FailsAt, IsLonger, shelf_after};

use crate::{FetchFault, Shelf};
use mbqi_values::{Numbers, Text, Texts};
use std::alloc::Global;
use std::marker::Model;

/// A shelf in memory that tells its files and the names asked, and fails where it is told to: for tests, and
/// for callers that have their files as values.
#[derive(Drop)]
pub struct MemoryShelf {
    names: Texts,
    files: Texts,
    failing: Numbers,
    calls: usize,
    asked: Vec<Text>,
    faults: u64,
}

impl Model for MemoryShelf {
    ghost use Rattle.mbqi_edge.specs.MemoryShelf.{ShelfState};

    ghost Value = { ShelfState };

    ghost view = { λ s. record {
      names = s.names;
      files = s.files;
      failing = s.failing;
      calls = s.calls;
      asked = s.asked.items;
      faults = s.faults;
    } };
}

impl MemoryShelf {
    /// A shelf of these files: the file of a name is the one at the first place of that name. A name that has
    /// no such file isn't there. A call, numbered from 0, fails where its number is in `failing`.
    pub fn new(alloc: Global, names: Texts, files: Texts, failing: Numbers) -> MemoryShelf
        ensures { result ≡ record {
          names = names;
          files = files;
          failing = failing;
          calls = 0;
          asked = [];
          faults = 0;
        } }
    {
        MemoryShelf {
            names,
            files,
            failing,
            calls: 0,
            asked: Vec::new(alloc),
            faults: 0,
        }
    }

    // The first place of a name.
    fn place(&self, name: &[u8]) -> Option<usize>
        ensures { result ≡ position (λ known. bytes_eq known name.now) self.now.names }
    {
        self.names.iter().position(|known| known.as_slice() == name)
    }

    // The file of a name.
    fn file(&self, name: &[u8]) -> Option<&[u8]>
        ensures { option_copied result ≡ file_of self.now.names self.now.files name.now }
    {
        let place = self.place(name)?;
        match self.files.get(place) {
            Some(bytes) => Some(bytes.as_slice()),
            None => None,
        }
    }

    // Adds the bytes that the call of this number gives.
    fn read(
        &self,
        call: usize,
        name: &[u8],
        limit: usize,
        into: &mut Vec<u8>,
    ) -> Result<(), FetchFault>
        ensures bytes { OnOk result (Gives self.now name.now limit into.old.items into.new.items) }
        ensures failed { IsErrOf result FetchFault.Failed → FailsAt self.now call name.now }
        ensures fails { FailsAt self.now call name.now → IsErrOf result FetchFault.Failed }
        ensures too_long { IsErrOf result FetchFault.TooLong → IsLonger self.now name.now limit }
        ensures err { OnErr result (into.new.items ≡ into.old.items) }
    {
        if self.failing.as_slice().contains(&call) {
            return Err(FetchFault::Failed);
        }
        let bytes = self.file(name).ok_or(FetchFault::Failed)?;
        if bytes.len() > limit {
            return Err(FetchFault::TooLong);
        }
        into.extend_from_slice(bytes)?;
        Ok(())
    }
}

impl Shelf for MemoryShelf {
    ghost files = { λ shelf. Some (file_of shelf.names shelf.files) };

    ghost asked = { λ shelf. Some shelf.asked };

    ghost faults = { λ shelf. shelf.faults };

    /// Memory is taken for the name, and for the bytes.
    fn fetch(
        &mut self,
        alloc: Global,
        name: &str,
        limit: usize,
        into: &mut Vec<u8>,
    ) -> Result<(), FetchFault>
        ensures bytes { OnOk result (Gives self.old name.now limit into.old.items into.new.items) }
        ensures failed { IsErrOf result FetchFault.Failed
            → FailsAt self.old self.old.calls name.now }
        ensures fails { FailsAt self.old self.old.calls name.now
            → IsErrOf result FetchFault.Failed ⊎ IsErrOf result FetchFault.Memory }
        ensures too_long { IsErrOf result FetchFault.TooLong → IsLonger self.old name.now limit }
        ensures err { OnErr result (into.new.items ≡ into.old.items) }
        ensures after { self.new ≡ shelf_after result self.old name.now }
        ensures faults { self.old.faults ≤ self.new.faults }
    {
        let call = self.calls;
        self.calls = call.saturating_add(1);
        self.asked.push(Text::from_slice(alloc, name.as_bytes())?)?;
        let fetched = self.read(call, name.as_bytes(), limit, into);
        match fetched {
            Err(FetchFault::Failed) => self.faults = self.faults.saturating_add(1),
            Err(FetchFault::Memory) => self.asked.truncate(self.asked.len() - 1),
            _ => {}
        }
        fetched
    }
}
