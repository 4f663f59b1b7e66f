//! The outside of the program: where it reads files and where it writes bytes.
//!
//! Start with [`Shelf`] and [`Sink`], the two traits that every other crate takes. [`MemoryShelf`] and
//! [`MemorySink`] tell all that they hold, for tests and for callers that have their files as values;
//! [`FolderShelf`] and [`WriterSink`] pass a program's real files and writers on and tell nothing.
//! [`put_all`] writes a whole piece.

#![tactic(auto)]

mod folder_shelf;
mod memory_shelf;
mod memory_sink;
mod put;
mod shelf;
mod sink;
mod writer_sink;

pub use folder_shelf::FolderShelf;
pub use memory_shelf::MemoryShelf;
pub use memory_sink::MemorySink;
pub use put::put_all;
pub use shelf::{FetchFault, Shelf};
pub use sink::{Sink, SinkFailed};
pub use writer_sink::WriterSink;

#[cfg(test)]
mod tests;
