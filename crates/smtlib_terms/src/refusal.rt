//! Refusals of trees.

ghost use Rattle.std.specs.Prelude.{◌≡◌};
ghost use Rattle.smtlib_terms.specs.Meaning.{unless_deep};

use crate::meaning::DEPTH_LIMIT;
use mbqi_values::{FaultKind, ReadError, Refusal};

/// A refusal of this kind. Its place is 0: the reader of commands knows where the form stands.
pub fn refused(kind: FaultKind) -> ReadError
    ensures { result ≡ ReadError.Refused (record { at = 0; kind = kind }) }
{
    ReadError::Refused(Refusal { at: 0, kind })
}

/// A refusal of this kind of what has a tree of this depth all the same: TooDeep where the tree is deeper than 1,000.
pub fn refused_unless_deep(kind: FaultKind, depth: usize) -> ReadError
    ensures { result ≡ ReadError.Refused (record { at = 0; kind = unless_deep kind depth }) }
{
    if depth <= DEPTH_LIMIT {
        refused(kind)
    } else {
        refused(FaultKind::TooDeep)
    }
}
