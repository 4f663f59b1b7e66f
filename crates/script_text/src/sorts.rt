//! The sorts of arguments, as declarations of functions list them.

ghost use Rattle.std.specs.Prelude.{◌≡◌, ◌++◌, map, OnOk, OnErr};
ghost use Rattle.std.specs.Io.{StartsWith};
ghost use Rattle.smtlib_printer.specs.Text.{list_text, sort_text, spaced_rest};

use mbqi_terms::{Script, Sort};
use smtlib_printer::write_sort;
use std::alloc::AllocError;

/// Appends a list of sorts in brackets.
#[tactic(auto, using(smtlib_printer::proofs::Fronts::behind))]
pub(crate) fn write_sort_list(
    script: &Script,
    sorts: &[Sort],
    into: &mut Vec<u8>,
) -> Result<(), AllocError>
    ensures ok { OnOk result (into.new.items ≡ into.old.items ++ list_text (map (sort_text script.now) sorts.now)) }
    ensures err { OnErr result (StartsWith into.new.items into.old.items) }
{
    into.extend_from_slice(b"(")?;
    if let [first, rest @ ..] = sorts {
        write_sort(script, *first, into)?;
        write_more_sorts(script, rest, into)?;
    }
    into.extend_from_slice(b")")
}

/// Appends further sorts, each behind a blank.
#[tactic(auto, using(smtlib_printer::proofs::Fronts::behind))]
fn write_more_sorts(script: &Script, sorts: &[Sort], into: &mut Vec<u8>) -> Result<(), AllocError>
    ensures ok { OnOk result (into.new.items ≡ into.old.items ++ spaced_rest (map (sort_text script.now) sorts.now)) }
    ensures err { OnErr result (StartsWith into.new.items into.old.items) }
{
    for sort in sorts {
        into.extend_from_slice(b" ")?;
        write_sort(script, *sort, into)?;
    }
    Ok(())
}
