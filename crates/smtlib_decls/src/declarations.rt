//! Declarations and definitions.

ghost use Rattle.std.specs.Prelude.{◌≡◌, []};
ghost use Rattle.smtlib_terms.specs.Answers.{Answers, IsFault};
ghost use Rattle.smtlib_decls.specs.Commands.{constant_command, constant_declared, definition_behind, definition_command, function_command, is_numeral, is_zero, signature_command, signature_declared, sort_command, sorts_read};
ghost use Rattle.smtlib_decls.specs.Takes.{Takes};

use crate::progress::Progress;
use mbqi_terms::{Sort, Sorts};
use mbqi_values::{FaultKind, ReadError};
use sexpr_text::Sexpr;
use smtlib_names::names::{Names, read_sort};
use smtlib_names::trees::{is_list, is_some_symbol, text_of, trees_in};
use smtlib_terms::refused;
use std::alloc::Global;
use term_reader::{check_definition, define_macro};

/// Whether a tree is a numeral.
fn is_numeral(tree: &Sexpr) -> bool
    ensures { result ≡ is_numeral tree.now }
{
    tree.as_numeral().is_some()
}

/// Whether a tree is the numeral 0.
fn is_zero(tree: &Sexpr) -> bool
    ensures { result ≡ is_zero tree.now }
{
    tree.as_numeral() == Some(b"0".as_slice())
}

/// Takes `(declare-sort s 0)`, behind its word.
pub fn take_sort(alloc: Global, progress: &mut Progress, parts: &[Sexpr]) -> Result<(), ReadError>
    ensures { Takes result progress.new (sort_command progress.old parts.now) }
{
    let [name, arity] = parts else {
        return Err(refused(FaultKind::BadForm));
    };
    if !is_some_symbol(name) || !is_numeral(arity) {
        return Err(refused(FaultKind::BadForm));
    }
    if !is_zero(arity) || progress.asks {
        return Err(refused(FaultKind::Unsupported));
    }
    progress.names.declare_sort(alloc, text_of(name))
}

/// The sorts that trees name, each in turn.
#[tactic(auto, using(std::proofs::lemmas::Grind::common_steps, crate::proofs::SortsRead::sorts_laws))]
fn sorts_read(alloc: Global, names: &Names, trees: &[Sexpr]) -> Result<Sorts, ReadError>
    ensures { Answers result (sorts_read names.now trees.now) }
{
    let mut sorts = Sorts::new(alloc);
    for tree in trees {
        sorts.push(read_sort(names, tree)?)?;
    }
    Ok(sorts)
}

/// Declares a function of these sorts.
#[tactic(auto, unfolding(crate::specs::Commands::function_command))]
fn take_function(
    alloc: Global,
    progress: &mut Progress,
    name: &[u8],
    args: &Sorts,
    result_sort: Sort,
) -> Result<(), ReadError>
    ensures { Takes result progress.new (function_command progress.old name.now args.now result_sort) }
{
    if progress.asks {
        return Err(refused(FaultKind::Unsupported));
    }
    progress
        .names
        .declare_function(alloc, name, args, result_sort)
}

/// Declares a constant of the sort that a tree names.
#[tactic(auto, unfolding(crate::specs::Commands::constant_declared))]
fn declare_constant(
    alloc: Global,
    progress: &mut Progress,
    name: &[u8],
    sort: &Sexpr,
) -> Result<(), ReadError>
    ensures { Takes result progress.new (constant_declared progress.old name.now sort.now) }
{
    let sort = read_sort(&progress.names, sort)?;
    let no_sorts = Sorts::new(alloc);
    take_function(alloc, progress, name, &no_sorts, sort)
}

/// Takes `(declare-const f S)`, behind its word.
pub fn take_constant(
    alloc: Global,
    progress: &mut Progress,
    parts: &[Sexpr],
) -> Result<(), ReadError>
    ensures { Takes result progress.new (constant_command progress.old parts.now) }
{
    let [name, sort] = parts else {
        return Err(refused(FaultKind::BadForm));
    };
    if !is_some_symbol(name) {
        return Err(refused(FaultKind::BadForm));
    }
    declare_constant(alloc, progress, text_of(name), sort)
}

/// Declares a function of the sorts that trees name.
#[tactic(auto, unfolding(crate::specs::Commands::signature_declared))]
fn declare_function(
    alloc: Global,
    progress: &mut Progress,
    name: &[u8],
    args: &[Sexpr],
    result_sort: &Sexpr,
) -> Result<(), ReadError>
    ensures { Takes result progress.new (signature_declared progress.old name.now args.now result_sort.now) }
{
    let args = sorts_read(alloc, &progress.names, args)?;
    let result_sort = read_sort(&progress.names, result_sort)?;
    take_function(alloc, progress, name, &args, result_sort)
}

/// Takes `(declare-fun f (S ...) S)`, behind its word.
pub fn take_signature(
    alloc: Global,
    progress: &mut Progress,
    parts: &[Sexpr],
) -> Result<(), ReadError>
    ensures { Takes result progress.new (signature_command progress.old parts.now) }
{
    let [name, args, result_sort] = parts else {
        return Err(refused(FaultKind::BadForm));
    };
    if !is_some_symbol(name) || !is_list(args) {
        return Err(refused(FaultKind::BadForm));
    }
    declare_function(alloc, progress, text_of(name), trees_in(args), result_sort)
}

/// A definition behind the question. What stands in it may have a fault; else it is Unsupported.
#[tactic(auto, unfolding(crate::specs::Commands::definition_behind))]
fn definition_fault(alloc: Global, progress: &Progress, tree: &Sexpr) -> ReadError
    ensures { IsFault result (definition_behind progress.now tree.now) }
{
    match check_definition(alloc, &progress.names, tree) {
        Ok(()) => refused(FaultKind::Unsupported),
        Err(error) => error,
    }
}

/// Takes `(define-fun f ((x S) ...) S t)`.
pub fn take_definition(
    alloc: Global,
    progress: &mut Progress,
    tree: &Sexpr,
) -> Result<(), ReadError>
    ensures { Takes result progress.new (definition_command progress.old tree.now) }
{
    if progress.asks {
        return Err(definition_fault(alloc, progress, tree));
    }
    define_macro(alloc, &mut progress.names, tree)
}
