//! What the canonical text of a script spells, and what it means: the same script.
//!
//! Start with `specs/Trees.antt`, the S-expressions that the text spells. [`laws`] has the theorems, which speak of scripts
//! in form. There is no code to run.

#![tactic(auto)]

pub mod laws;
