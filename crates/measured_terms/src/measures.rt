//! Measures by those of the parts.

ghost use Rattle.std.specs.Prelude.{◌≡◌, ◌+◌, IfOk};

use std::alloc::AllocError;

/// One more than a depth. A tree of 2^64 levels has no room in memory.
pub(crate) fn deeper(depth: usize) -> Result<usize, AllocError>
    ensures { IfOk result (λ n. n ≡ depth + 1) }
{
    depth.checked_add(1).ok_or(AllocError)
}

/// The sum of two counts of variables. A formula of 2^64 variables has no room in memory.
pub(crate) fn together(a: usize, b: usize) -> Result<usize, AllocError>
    ensures { IfOk result (λ n. n ≡ a + b) }
{
    a.checked_add(b).ok_or(AllocError)
}
