ghost use Rattle.std.specs.Prelude.{◌≡◌, ◌<◌, ◌≤◌, ◌↔◌, [], ◌∷◌, ◌++◌, length, take, max, Some, IfOk, OnErr, IsErr};
ghost use Rattle.mbqi_edge.specs.Faults.{Rose};
ghost use Rattle.mbqi_edge.specs.Told.{with_more};
ghost use Rattle.mbqi_edge.specs.MemorySink.{FailsAt, room_of, sink_after};

use crate::{Sink, SinkFailed};
use mbqi_values::Numbers;
use std::alloc::{AllocError, Global};
use std::marker::Model;

/// A sink in memory that tells what it took. It takes a bounded number of bytes, so many a call, and fails
/// where it is told to: for tests, and for callers that want the bytes as a value.
#[derive(Drop)]
pub struct MemorySink {
    taken: Vec<u8>,
    capacity: usize,
    most: usize,
    failing: Numbers,
    calls: usize,
    faults: u64,
}

impl Model for MemorySink {
    ghost use Rattle.std.specs.Prelude.{◌≤◌, ◌<◌};
    ghost use Rattle.std.specs.Vec.{vec_len, vec_capacity};
    ghost use Rattle.mbqi_edge.specs.MemorySink.{SinkState};

    ghost Value = { SinkState };

    ghost view = { λ s. record {
      taken = s.taken.items;
      capacity = s.capacity;
      most = s.most;
      failing = s.failing;
      calls = s.calls;
      faults = s.faults;
    } };

    ghost invariant = { λ s. (vec_len s.taken ≤ s.capacity) × (s.capacity ≤ vec_capacity s.taken)
        × (0 < s.most) };
}

impl MemorySink {
    /// An empty sink that takes at most `most` bytes a call, at least 1, and at most `capacity` in all. A
    /// call, numbered from 0, fails where its number is in `failing`. All memory is taken here.
    pub fn new(
        alloc: Global,
        capacity: usize,
        most: usize,
        failing: Numbers,
    ) -> Result<MemorySink, AllocError>
        ensures { IfOk result (λ sink. sink ≡ record {
          taken = [];
          capacity = capacity;
          most = max most 1;
          failing = failing;
          calls = 0;
          faults = 0;
        }) }
    {
        Ok(MemorySink {
            taken: Vec::with_capacity(alloc, capacity)?,
            capacity,
            most: most.max(1),
            failing,
            calls: 0,
            faults: 0,
        })
    }

    /// The bytes taken so far.
    pub fn taken(&self) -> &[u8]
        ensures { result.now ≡ self.now.taken }
    {
        self.taken.as_slice()
    }
}

impl Sink for MemorySink {
    ghost taken = { λ sink. Some sink.taken };

    ghost faults = { λ sink. sink.faults };

    /// Takes as many bytes as the call and the sink still allow, without memory. It fails where the call's
    /// number is listed, or where the sink is full and the piece isn't empty.
    fn put(&mut self, piece: &[u8]) -> Result<usize, SinkFailed>
        ensures fails { IsErr result ↔ FailsAt self.old piece.now }
        ensures some { IfOk result (λ n. 0 < length piece.now → 0 < n) }
        ensures amount { IfOk result (λ n. n ≡ room_of self.old piece.now) }
        ensures after { self.new ≡ sink_after result self.old piece.now }
        ensures faults { self.old.faults ≤ self.new.faults }
    {
        let call = self.calls;
        self.calls = call.saturating_add(1);
        let room = self.most.min(self.capacity - self.taken.len());
        let count = room.min(piece.len());
        let full = count == 0 && !piece.is_empty();
        if full || self.failing.as_slice().contains(&call) {
            self.faults = self.faults.saturating_add(1);
            return Err(SinkFailed);
        }
        self.taken.extend_from_slice(&piece[..count]).unwrap();
        Ok(count)
    }
}
