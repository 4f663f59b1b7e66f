//! The lines of a script's commands.

ghost use Rattle.std.specs.Prelude.{◌≡◌, ◌++◌, OnOk, OnErr};
ghost use Rattle.std.specs.Io.{StartsWith};
ghost use Rattle.std.specs.List.{flat_map};
ghost use Rattle.script_text.specs.Text.{assertion_line, declared_text, function_line, labelled_text, question_line, rank_text, sort_line};
ghost use Rattle.smtlib_printer.specs.Names.{marks_of};
ghost use Rattle.smtlib_printer.specs.Text.{formula_text_with};

use crate::sorts::write_sort_list;
use mbqi_terms::{Assertion, Function, Script};
use mbqi_values::Text;
use smtlib_printer::{question_marks, write_formula_with, write_name, write_sort};
use std::alloc::AllocError;

/// Appends the declarations of sorts.
#[tactic(auto, using(smtlib_printer::proofs::Fronts::behind))]
pub(crate) fn write_sorts(names: &[Text], into: &mut Vec<u8>) -> Result<(), AllocError>
    ensures ok { OnOk result (into.new.items ≡ into.old.items ++ flat_map sort_line names.now) }
    ensures err { OnErr result (StartsWith into.new.items into.old.items) }
{
    for name in names {
        write_sort_declaration(name.as_slice(), into)?;
    }
    Ok(())
}

#[tactic(auto, unfolding(crate::specs::Text::sort_line))]
fn write_sort_declaration(name: &[u8], into: &mut Vec<u8>) -> Result<(), AllocError>
    ensures ok { OnOk result (into.new.items ≡ into.old.items ++ sort_line name.now) }
    ensures err { OnErr result (StartsWith into.new.items into.old.items) }
{
    into.extend_from_slice(b"(declare-sort ")?;
    write_name(name, into)?;
    into.extend_from_slice(b" 0)\n")
}

/// Appends the declarations of functions.
#[tactic(auto, using(smtlib_printer::proofs::Fronts::behind))]
pub(crate) fn write_functions(
    script: &Script,
    functions: &[Function],
    into: &mut Vec<u8>,
) -> Result<(), AllocError>
    ensures ok { OnOk result (into.new.items ≡ into.old.items ++ flat_map (function_line script.now) functions.now) }
    ensures err { OnErr result (StartsWith into.new.items into.old.items) }
{
    for function in functions {
        write_function_declaration(script, function, into)?;
    }
    Ok(())
}

#[tactic(auto, unfolding(crate::specs::Text::function_line))]
fn write_function_declaration(
    script: &Script,
    function: &Function,
    into: &mut Vec<u8>,
) -> Result<(), AllocError>
    ensures ok { OnOk result (into.new.items ≡ into.old.items ++ function_line script.now function.now) }
    ensures err { OnErr result (StartsWith into.new.items into.old.items) }
{
    into.extend_from_slice(b"(declare-fun ")?;
    write_declared(script, function, into)?;
    into.extend_from_slice(b")\n")
}

/// Appends a function's name and its rank.
#[tactic(auto, unfolding(crate::specs::Text::declared_text))]
fn write_declared(
    script: &Script,
    function: &Function,
    into: &mut Vec<u8>,
) -> Result<(), AllocError>
    ensures ok { OnOk result (into.new.items ≡ into.old.items ++ declared_text script.now function.now) }
    ensures err { OnErr result (StartsWith into.new.items into.old.items) }
{
    write_name(function.name.as_slice(), into)?;
    write_rank(script, function, into)
}

/// Appends the sorts of a function's arguments and of its result, behind a blank.
#[tactic(auto, using(smtlib_printer::proofs::Fronts::behind), unfolding(crate::specs::Text::rank_text))]
fn write_rank(script: &Script, function: &Function, into: &mut Vec<u8>) -> Result<(), AllocError>
    ensures ok { OnOk result (into.new.items ≡ into.old.items ++ rank_text script.now function.now) }
    ensures err { OnErr result (StartsWith into.new.items into.old.items) }
{
    into.extend_from_slice(b" ")?;
    write_sort_list(script, function.args.as_slice(), into)?;
    into.extend_from_slice(b" ")?;
    write_sort(script, function.result, into)
}

/// Appends the assertions. The question marks of variables are counted once.
#[tactic(auto, using(smtlib_printer::proofs::Fronts::behind))]
pub(crate) fn write_assertions(
    script: &Script,
    assertions: &[Assertion],
    into: &mut Vec<u8>,
) -> Result<(), AllocError>
    ensures ok { OnOk result (into.new.items ≡ into.old.items ++ flat_map (assertion_line script.now (marks_of script.now)) assertions.now) }
    ensures err { OnErr result (StartsWith into.new.items into.old.items) }
{
    let marks = question_marks(script);
    for assertion in assertions {
        write_assertion(script, marks, assertion, into)?;
    }
    Ok(())
}

#[tactic(auto, unfolding(crate::specs::Text::assertion_line))]
fn write_assertion(
    script: &Script,
    marks: usize,
    assertion: &Assertion,
    into: &mut Vec<u8>,
) -> Result<(), AllocError>
    ensures ok { OnOk result (into.new.items ≡ into.old.items ++ assertion_line script.now marks assertion.now) }
    ensures err { OnErr result (StartsWith into.new.items into.old.items) }
{
    into.extend_from_slice(b"(assert ")?;
    write_labelled(script, marks, assertion, into)?;
    into.extend_from_slice(b")\n")
}

/// Appends an asserted formula, with its label where it has one.
#[tactic(auto, unfolding(crate::specs::Text::labelled_text))]
fn write_labelled(
    script: &Script,
    marks: usize,
    assertion: &Assertion,
    into: &mut Vec<u8>,
) -> Result<(), AllocError>
    ensures ok { OnOk result (into.new.items ≡ into.old.items ++ labelled_text assertion.now.label (formula_text_with script.now marks assertion.now.formula)) }
    ensures err { OnErr result (StartsWith into.new.items into.old.items) }
{
    match &assertion.label {
        None => write_formula_with(script, marks, &assertion.formula, into),
        Some(label) => {
            into.extend_from_slice(b"(! ")?;
            write_formula_with(script, marks, &assertion.formula, into)?;
            into.extend_from_slice(b" :named ")?;
            write_name(label.as_slice(), into)?;
            into.extend_from_slice(b")")
        }
    }
}

/// Appends the question, where the script asks it.
#[tactic(auto, unfolding(crate::specs::Text::question_line))]
pub(crate) fn write_question(asks: bool, into: &mut Vec<u8>) -> Result<(), AllocError>
    ensures ok { OnOk result (into.new.items ≡ into.old.items ++ question_line asks) }
    ensures err { OnErr result (StartsWith into.new.items into.old.items) }
{
    if asks {
        into.extend_from_slice(b"(check-sat)\n")?;
    }
    Ok(())
}
