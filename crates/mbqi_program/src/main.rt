//! The program `mbqi`: the words, the files and the streams of the system, handed to the one call `run`.

#![tactic(auto)]

ghost use Rattle.std.specs.Prelude.{◌≡◌, ◌<◌};

use mbqi_app::run;
use mbqi_edge::{FolderShelf, Shelf, Sink, WriterSink};
use mbqi_values::Steps;
use std::alloc::Global;
use std::marker::Brand;
use std::process::ExitCode;
use std::sync::ledger::{Blank, Ledger};
use std::{env, io};

/// The exit status where the system gives no words for another cause than want of memory.
const NO_WORDS: u8 = 9;

/// The exit status where memory runs out before the words are there.
const NO_MEMORY: u8 = 6;

fn main(rt: HostRuntime) -> ExitCode {
    let words: Vec<String> = match env::args(&rt) {
        Ok(words) => match words.skip(1).collect(rt.alloc()) {
            Ok(words) => words,
            Err(_) => return ExitCode::from(NO_MEMORY),
        },
        Err(error) if error.kind() == io::ErrorKind::OutOfMemory => return ExitCode::from(
            NO_MEMORY,
        ),
        Err(_) => return ExitCode::from(NO_WORDS),
    };
    let mut shelf = FolderShelf::new(&rt);
    let mut out = WriterSink::new(rt.stdout());
    let mut err = WriterSink::new(rt.stderr());
    let code = start::<_, _, _, Brand>(
        rt.alloc(),
        &words,
        &mut shelf,
        &mut out,
        &mut err,
        Blank::new(1),
    );
    ExitCode::from(code)
}

/// Calls `run` with a counter at 0, over the ledger that the blank is of.
fn start<F: Shelf, W: Sink, E: Sink, L: Ledger>(
    alloc: Global,
    words: &[String],
    shelf: &mut F,
    out: &mut W,
    err: &mut E,
    blank: Blank,
) -> u8
    requires name { blank.name ≡ L.name }
    requires parts { blank.parts ≡ L.parts }
    requires some { 0 < blank.parts }
{
    let mut steps = Steps::<L>::new(blank);
    run(alloc, words, shelf, out, err, &mut steps).code()
}
