//! Formulas, terms and array terms with their measures: how deep they are, how many variables their quantifiers bind,
//! and whether a variable stands in them. The measures are kept as the trees are built, so that nobody walks a tree
//! again to learn them.
//!
//! Each constructor is a function whose clause gives the plain tree. Start with [`MeasuredFormula`].

#![tactic(auto)]

mod arrays;
mod formulas;
mod lists;
mod measures;
mod symbols;
mod terms;

pub use arrays::MeasuredArray;
pub use formulas::MeasuredFormula;
pub use lists::{MeasuredArrays, MeasuredFormulas, MeasuredTerms};
pub use symbols::MeasuredSymbol;
pub use terms::{MeasuredSum, MeasuredTerm};
