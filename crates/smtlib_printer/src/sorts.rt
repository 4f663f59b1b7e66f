//! Numbers, truths, sorts and binders.

ghost use Rattle.std.specs.Prelude.{◌≡◌, ◌++◌, map, OnOk, OnErr};
ghost use Rattle.std.specs.Io.{StartsWith};
ghost use Rattle.smtlib_printer.specs.Text.{binder_text, binders_text, map_text, number_text, plain_text, sort_text, spaced_rest, truth_text};

use crate::names::{write_function_name, write_sort_name, write_variable};
use itoa::Buffer;
use mbqi_terms::{Binder, MapOp, Plain, Script, Sort};
use std::alloc::AllocError;

/// Appends a number as SMT-LIB 2.6 writes it: -n is `(- n)`. The one error is want of memory.
pub fn write_number(number: i128, into: &mut Vec<u8>) -> Result<(), AllocError>
    ensures ok { OnOk result (into.new.items ≡ into.old.items ++ number_text number) }
    ensures err { OnErr result (StartsWith into.new.items into.old.items) }
{
    let mut buffer = Buffer::new();
    let digits = buffer.format(number.unsigned_abs());
    if number >= 0 {
        return into.extend_from_slice(digits.as_bytes());
    }
    into.extend_from_slice(b"(- ")?;
    into.extend_from_slice(digits.as_bytes())?;
    into.extend_from_slice(b")")
}

/// Appends `true` or `false`. The one error is want of memory.
pub fn write_truth(truth: bool, into: &mut Vec<u8>) -> Result<(), AllocError>
    ensures ok { OnOk result (into.new.items ≡ into.old.items ++ truth_text truth) }
    ensures err { OnErr result (StartsWith into.new.items into.old.items) }
{
    if truth {
        into.extend_from_slice(b"true")
    } else {
        into.extend_from_slice(b"false")
    }
}

fn write_plain(script: &Script, sort: Plain, into: &mut Vec<u8>) -> Result<(), AllocError>
    ensures ok { OnOk result (into.new.items ≡ into.old.items ++ plain_text script.now sort) }
    ensures err { OnErr result (StartsWith into.new.items into.old.items) }
{
    match sort {
        Plain::Truth => into.extend_from_slice(b"Bool"),
        Plain::Int => into.extend_from_slice(b"Int"),
        Plain::Elem(declared) => write_sort_name(script, declared, into),
    }
}

/// Appends a sort of the script: an array sort with those of its indices and its elements. A sort that the script lacks
/// has the empty name. The one error is want of memory.
pub fn write_sort(script: &Script, sort: Sort, into: &mut Vec<u8>) -> Result<(), AllocError>
    ensures ok { OnOk result (into.new.items ≡ into.old.items ++ sort_text script.now sort) }
    ensures err { OnErr result (StartsWith into.new.items into.old.items) }
{
    match sort {
        Sort::Truth => into.extend_from_slice(b"Bool"),
        Sort::Int => into.extend_from_slice(b"Int"),
        Sort::Elem(declared) => write_sort_name(script, declared, into),
        Sort::Array(index, element) => {
            into.extend_from_slice(b"(Array ")?;
            write_plain(script, index, into)?;
            into.extend_from_slice(b" ")?;
            write_plain(script, element, into)?;
            into.extend_from_slice(b")")
        }
    }
}

/// Appends the function or connective of a pointwise map.
pub(crate) fn write_map_op(script: &Script, op: MapOp, into: &mut Vec<u8>) -> Result<(), AllocError>
    ensures ok { OnOk result (into.new.items ≡ into.old.items ++ map_text script.now op) }
    ensures err { OnErr result (StartsWith into.new.items into.old.items) }
{
    match op {
        MapOp::Declared(function) => write_function_name(script, function, into),
        MapOp::And => into.extend_from_slice(b"and"),
        MapOp::Or => into.extend_from_slice(b"or"),
        MapOp::Not => into.extend_from_slice(b"not"),
    }
}

/// Appends the variables of a quantifier with their sorts.
pub(crate) fn write_binders(
    script: &Script,
    marks: usize,
    binders: &[Binder],
    into: &mut Vec<u8>,
) -> Result<(), AllocError>
    ensures ok { OnOk result (into.new.items ≡ into.old.items ++ binders_text script.now marks binders.now) }
    ensures err { OnErr result (StartsWith into.new.items into.old.items) }
{
    into.extend_from_slice(b"(")?;
    if let [first, rest @ ..] = binders {
        write_binder(script, marks, *first, into)?;
        write_more_binders(script, marks, rest, into)?;
    }
    into.extend_from_slice(b")")
}

/// Appends further variables, each behind a blank.
#[tactic(auto, using(crate::proofs::Fronts::behind))]
fn write_more_binders(
    script: &Script,
    marks: usize,
    binders: &[Binder],
    into: &mut Vec<u8>,
) -> Result<(), AllocError>
    ensures ok { OnOk result (into.new.items ≡ into.old.items ++ spaced_rest (map (binder_text script.now marks) binders.now)) }
    ensures err { OnErr result (StartsWith into.new.items into.old.items) }
{
    for binder in binders {
        into.extend_from_slice(b" ")?;
        write_binder(script, marks, *binder, into)?;
    }
    Ok(())
}

#[tactic(auto, using(crate::proofs::Fronts::behind))]
fn write_binder(
    script: &Script,
    marks: usize,
    binder: Binder,
    into: &mut Vec<u8>,
) -> Result<(), AllocError>
    ensures ok { OnOk result (into.new.items ≡ into.old.items ++ binder_text script.now marks binder) }
    ensures err { OnErr result (StartsWith into.new.items into.old.items) }
{
    into.extend_from_slice(b"(")?;
    write_variable(marks, binder.place, into)?;
    into.extend_from_slice(b" ")?;
    write_sort(script, binder.sort, into)?;
    into.extend_from_slice(b")")
}
