//! Names of a script, and those of its variables.

ghost use Rattle.std.specs.Prelude.{◌≡◌, ◌<◌, ℕ, true, false, ◌++◌, ◌==◌, OnOk, OnErr};
ghost use Rattle.std.specs.Io.{StartsWith};
ghost use Rattle.std.specs.List.{list_all, list_any};
ghost use Rattle.smtlib_printer.specs.Names.{begins_with, function_name, is_begun, longest, longest_function, marks_of, name_text, sort_name, variable_text};

use itoa::Buffer;
use mbqi_terms::{Function, Script};
use mbqi_values::Text;
use sexpr_text::is_simple;
use smtlib_terms::word::is_reserved_word;
use std::alloc::AllocError;

/// Appends a name: between bars where it is no simple symbol, or is a reserved word. The one error is want of memory,
/// after which a front of the text may stand there.
pub fn write_name(name: &[u8], into: &mut Vec<u8>) -> Result<(), AllocError>
    ensures ok { OnOk result (into.new.items ≡ into.old.items ++ name_text name.now) }
    ensures err { OnErr result (StartsWith into.new.items into.old.items) }
{
    if is_simple(name) && !is_reserved_word(name) {
        return into.extend_from_slice(name);
    }
    into.extend_from_slice(b"|")?;
    into.extend_from_slice(name)?;
    into.extend_from_slice(b"|")
}

/// Appends the name of a declared sort, or the empty name.
pub(crate) fn write_sort_name(
    script: &Script,
    sort: usize,
    into: &mut Vec<u8>,
) -> Result<(), AllocError>
    ensures ok { OnOk result (into.new.items ≡ into.old.items ++ sort_name script.now sort) }
    ensures err { OnErr result (StartsWith into.new.items into.old.items) }
{
    match script.sorts.get(sort) {
        Some(name) => write_name(name.as_slice(), into),
        None => write_name(b"", into),
    }
}

/// Appends the name of a declared function, or the empty name.
pub(crate) fn write_function_name(
    script: &Script,
    function: usize,
    into: &mut Vec<u8>,
) -> Result<(), AllocError>
    ensures ok { OnOk result (into.new.items ≡ into.old.items ++ function_name script.now function) }
    ensures err { OnErr result (StartsWith into.new.items into.old.items) }
{
    match script.functions.get(function) {
        Some(declared) => write_name(declared.name.as_slice(), into),
        None => write_name(b"", into),
    }
}

/// Appends the variable of a place.
#[tactic(auto, using(std::proofs::lemmas::List::replicate_more))]
pub(crate) fn write_variable(
    marks: usize,
    place: usize,
    into: &mut Vec<u8>,
) -> Result<(), AllocError>
    ensures ok { OnOk result (into.new.items ≡ into.old.items ++ variable_text marks place) }
    ensures err { OnErr result (StartsWith into.new.items into.old.items) }
{
    for _at in 0..marks {
        into.push(b'?')?;
    }
    into.extend_from_slice(Buffer::new().format(place).as_bytes())
}

/// How many question marks begin a variable of the script: the fewest, but at least one, so that no declared name
/// begins with them and then a digit.
#[tactic(auto, using(crate::proofs::Longest::marks_fewest, crate::proofs::Longest::marks_free, crate::proofs::Longest::some_marks))]
pub fn question_marks(script: &Script) -> usize
    ensures value { result ≡ marks_of script.now }
    ensures some { 0 < result }
    ensures free { is_begun script.now result ≡ false }
    ensures fewest { (k : ℕ) → 0 < k → k < result → is_begun script.now k ≡ true }
{
    marks_of(script)
}

#[tactic(auto, using(crate::proofs::Marks::first_free_here, crate::proofs::Marks::first_free_last, crate::proofs::Marks::first_free_next), unfolding(crate::specs::Names::marks_of))]
fn marks_of(script: &Script) -> usize
    ensures { result ≡ marks_of script.now }
{
    let end = longest(script.sorts.as_slice()).max(longest_function(script.functions.as_slice()));
    for marks in 1..end {
        if !is_begun(script, marks) {
            return marks;
        }
    }
    end.max(1)
}

fn longest(names: &[Text]) -> usize
    ensures { result ≡ longest names.now }
{
    names.iter().fold(0, |length, name| length.max(name.len()))
}

fn longest_function(functions: &[Function]) -> usize
    ensures { result ≡ longest_function functions.now }
{
    functions
        .iter()
        .fold(0, |length, function| length.max(function.name.len()))
}

/// Whether a declared name begins with so many question marks and then a digit.
#[tactic(auto, unfolding(crate::specs::Names::is_begun))]
fn is_begun(script: &Script, count: usize) -> bool
    ensures { result ≡ is_begun script.now count }
{
    is_sort_begun(script.sorts.as_slice(), count)
        || is_function_begun(script.functions.as_slice(), count)
}

fn is_sort_begun(names: &[Text], count: usize) -> bool
    ensures { result ≡ list_any (begins_with count) names.now }
{
    names.iter().any(|name| begins_with(name.as_slice(), count))
}

fn is_function_begun(functions: &[Function], count: usize) -> bool
    ensures { result ≡ list_any (λ (f : Function). begins_with count f.name) functions.now }
{
    functions
        .iter()
        .any(|function| begins_with(function.name.as_slice(), count))
}

/// Whether the name begins with so many question marks and then a digit. Only where the digit stands there are the
/// bytes before it looked at.
fn begins_with(name: &[u8], count: usize) -> bool
    ensures { result ≡ begins_with count name.now }
{
    count < name.len() && name[count].is_ascii_digit() && are_marks(&name[..count])
}

fn are_marks(bytes: &[u8]) -> bool
    ensures { result ≡ list_all (λ b. b == 63) bytes.now }
{
    bytes.iter().all(|byte| *byte == b'?')
}
