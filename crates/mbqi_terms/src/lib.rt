//! The plain trees of the solver: sorts, terms, array terms, formulas, scripts and rules.
//!
//! A tree is plain data: contracts see two equal trees as one value, whatever memory holds them, since they see
//! a list as a list and a box as what it holds. [`term::Term`] is the place to start; [`script::Script`] is what
//! a file means. [`same`] and [`copy`] compare and copy trees.
#![tactic(auto)]

pub mod arrays;
pub mod copy;
pub mod formula;
pub mod instance;
pub mod rule;
pub mod same;
pub mod script;
pub mod sort;
pub mod store;
pub mod term;
pub mod term_id;
#[cfg(test)]
mod tests;

pub use arrays::{ArrayPair, ArrayPairs, Arrays, SkolemSort, SkolemSorts};
pub use copy::{
    copy_array, copy_array_terms, copy_binders, copy_formula, copy_formulas, copy_sorts,
    copy_symbol, copy_term, copy_terms, copy_text,
};
pub use formula::{Formula, Formulas};
pub use instance::{InstanceLine, InstanceLines, Valuation};
pub use rule::{ArrayKind, Origin, Rule, Rules};
pub use same::{
    same_array, same_array_terms, same_binders, same_formula, same_formulas, same_sorts,
    same_symbol, same_term, same_terms, same_text,
};
pub use script::{Assertion, Assertions, Function, Functions, Script};
pub use sort::{Binder, Binders, Plain, Sort, Sorts};
pub use store::{Head, Lists, Node, TermIds, TermStore};
pub use term::{ArrayTerm, ArrayTerms, MapOp, Symbol, Term, Terms};
pub use term_id::TermId;
