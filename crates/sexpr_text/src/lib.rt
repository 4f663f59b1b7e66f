//! The one reader and the one writer of S-expressions, which every text of mbqi stands on.
//!
//! Start with [`tree::Sexpr`], what a text means, and [`reader::read_forms`], which reads a whole text or
//! names the place and kind of its first fault. [`writer::write_form`] writes a tree's one text. [`laws`] says that
//! each text has one answer, and that what is written is read again; [`equality`] compares and copies trees.
//! [`is_simple`] says which symbols stand without bars.
//!
//! A text goes through two layers: `lexer` tells what stands at the front of some bytes, a byte at a time by its
//! `class`, and `reader` keeps the forms and the open brackets.

#![tactic(auto)]

mod class;
pub mod equality;
pub mod laws;
mod lexer;
pub mod reader;
mod stack;
#[cfg(test)]
mod tests;
mod token;
pub mod tree;
pub mod writer;

pub use class::is_symbol_byte;
pub use equality::{copy_tree, copy_trees, same_tree, same_trees};
pub use reader::read_forms;
pub use tree::{Form, Forms, Sexpr, Sexprs};
pub use writer::{is_simple, write_form};
