//! Names of a script, and what trees say with them: sorts, binders, parameters and declarations.
//!
//! Start with [`names::Names`], what was declared and defined. `trees` views trees, `sorts` and `binders` read them.

#![tactic(auto)]

pub mod binders;
pub mod names;
pub mod sorts;
mod table;
pub mod trees;
