//! The text of a refutation: instances of assertions, of which each plainly lawful valuation of their terms makes one false.
//!
//! Start with [`write_refutation`].

#![tactic(auto)]

ghost use Rattle.std.specs.Prelude.{◌≡◌, ◌++◌, OnOk, OnErr};
ghost use Rattle.std.specs.Io.{StartsWith};
ghost use Rattle.refutation_text.specs.RefutationText.{instance_text, instances_text, refutation_text};

#[cfg(test)]
mod tests;

use itoa::Buffer;
use mbqi_terms::{InstanceLine, Script};
use smtlib_printer::{question_marks, write_formula_with, write_terms_with};
use std::alloc::AllocError;

/// Appends the lines of a refutation of the script: `unsat`, the instances in order, and the closing bracket. The
/// one error is want of memory, after which `into` begins with what it held.
#[tactic(auto, unfolding(crate::specs::RefutationText::refutation_text))]
pub fn write_refutation(
    script: &Script,
    lines: &[InstanceLine],
    into: &mut Vec<u8>,
) -> Result<(), AllocError>
    ensures ok { OnOk result (into.new.items ≡ into.old.items ++ refutation_text script.now lines.now) }
    ensures err { OnErr result (StartsWith into.new.items into.old.items) }
{
    into.extend_from_slice(b"unsat\n(refutation 1\n")?;
    write_instances(script, question_marks(script), lines, into)?;
    into.extend_from_slice(b")\n")
}

/// Appends the instances, each with a line feed.
#[tactic(auto, using(smtlib_printer::proofs::Fronts::behind))]
fn write_instances(
    script: &Script,
    marks: usize,
    lines: &[InstanceLine],
    into: &mut Vec<u8>,
) -> Result<(), AllocError>
    ensures ok { OnOk result (into.new.items ≡ into.old.items ++ instances_text script.now marks lines.now) }
    ensures err { OnErr result (StartsWith into.new.items into.old.items) }
{
    for line in lines {
        write_instance(script, marks, line, into)?;
        into.extend_from_slice(b"\n")?;
    }
    Ok(())
}

#[tactic(auto, using(smtlib_printer::proofs::Fronts::behind))]
fn write_instance(
    script: &Script,
    marks: usize,
    line: &InstanceLine,
    into: &mut Vec<u8>,
) -> Result<(), AllocError>
    ensures ok { OnOk result (into.new.items ≡ into.old.items ++ instance_text script.now marks line.now) }
    ensures err { OnErr result (StartsWith into.new.items into.old.items) }
{
    into.extend_from_slice(b"(instance ")?;
    into.extend_from_slice(Buffer::new().format(line.assertion).as_bytes())?;
    into.extend_from_slice(b" ")?;
    write_terms_with(script, marks, line.terms.as_slice(), into)?;
    into.extend_from_slice(b" ")?;
    write_formula_with(script, marks, &line.formula, into)?;
    into.extend_from_slice(b")")
}
