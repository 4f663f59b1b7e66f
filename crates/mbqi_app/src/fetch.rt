//! A file of the words, from the shelf.

ghost use Rattle.std.specs.Prelude.{◌≡◌, ◌≤◌, ◌<◌, ◌∷◌, [], length, IfOk, IfErr, OnOk};
ghost use Rattle.mbqi_edge.specs.Faults.{Rose};
ghost use Rattle.mbqi_edge.specs.Files.{Has, Tells};
ghost use Rattle.mbqi_edge.specs.Told.{with_more};
ghost use Rattle.mbqi_app.specs.Asked.{AsksOne};
ghost use Rattle.mbqi_app.specs.Statuses.{ComesFromFetch, file_limit};

use mbqi_edge::{FetchFault, Shelf};
use mbqi_values::Status;
use std::alloc::Global;

/// How many bytes a file may have.
const FILE_LIMIT: usize = 67_108_864;

/// The bytes of a file, which is asked for once at most.
///
/// `ReadFault`: the shelf counted a fault. `TooLong`: the file has more bytes than a file may have. `Memory`: memory ran out.
pub fn fetch_file<F: Shelf>(alloc: Global, file: &str, shelf: &mut F) -> Result<Vec<u8>, Status>
    ensures bytes { IfOk result (λ bytes. Has (F.files shelf.old) file.now bytes.items) }
    ensures short { IfOk result (λ bytes. length bytes.items ≤ file_limit) }
    ensures comes { IfErr result ComesFromFetch }
    ensures read_fault { IfErr result (λ status. status ≡ Status.ReadFault → Rose (F.faults shelf.old) (F.faults shelf.new)) }
    ensures too_long { IfErr result (λ status. status ≡ Status.TooLong
        → Tells (F.files shelf.old) file.now (λ bytes. file_limit < length bytes)) }

    ensures files { F.files shelf.new ≡ F.files shelf.old }
    ensures asked { AsksOne (F.asked shelf.old) (F.asked shelf.new) file.now }
    ensures all_asked { OnOk result (F.asked shelf.new ≡ with_more (F.asked shelf.old) (file.now ∷ [])) }
{
    let mut bytes = Vec::new(alloc);
    match shelf.fetch(alloc, file, FILE_LIMIT, &mut bytes) {
        Ok(()) => Ok(bytes),
        Err(FetchFault::Failed) => Err(Status::ReadFault),
        Err(FetchFault::TooLong) => Err(Status::TooLong),
        Err(FetchFault::Memory) => Err(Status::Memory),
    }
}
