//! The lists that the heads of a store's nodes number.

use crate::arrays::{Arrays, SkolemSorts};
use crate::script::Functions;

/// The declared functions, the Skolem symbols with their sorts, and the arrays, by which terms have their sorts.
#[derive(Drop)]
pub struct Lists {
    pub functions: Functions,
    pub skolems: SkolemSorts,
    pub arrays: Arrays,
}
