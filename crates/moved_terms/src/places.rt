//! Places of variables, and where they move to.

ghost use Rattle.std.specs.Prelude.{◌≡◌, IfOk, map};
ghost use Rattle.smtlib_terms.specs.Meaning.{shifted_binder, shifted_place};

use mbqi_terms::{Binder, Binders};
use mbqi_values::Sequence;
use std::alloc::{AllocError, Global};

/// How far variables move: those of the place `from` and later ones, by `by` places.
#[derive(Clone, Copy)]
pub struct Shift {
    pub from: usize,
    pub by: usize,
}

/// The place that a variable moves to. A formula of 2^64 variables has no room in memory.
pub(crate) fn moved_place(shift: Shift, place: usize) -> Result<usize, AllocError>
    ensures { IfOk result (λ p. p ≡ shifted_place shift.from shift.by place) }
{
    if shift.from <= place {
        place.checked_add(shift.by).ok_or(AllocError)
    } else {
        Ok(place)
    }
}

/// A binder with its place moved.
fn moved_binder(shift: Shift, binder: Binder) -> Result<Binder, AllocError>
    ensures { IfOk result (λ moved. moved ≡ shifted_binder shift.from shift.by binder) }
{
    Ok(Binder {
        place: moved_place(shift, binder.place)?,
        sort: binder.sort,
    })
}

/// Binders with their places moved.
pub(crate) fn moved_binders(
    alloc: Global,
    shift: Shift,
    binders: &[Binder],
) -> Result<Binders, AllocError>
    ensures { IfOk result (λ moved. moved ≡ map (shifted_binder shift.from shift.by) binders.now) }
{
    let mut moved = Sequence::new(alloc);
    for binder in binders {
        moved.push(moved_binder(shift, *binder)?)?;
    }
    Ok(moved)
}
