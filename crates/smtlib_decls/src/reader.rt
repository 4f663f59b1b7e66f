//! The reader of scripts.

ghost use Rattle.std.specs.Prelude.{◌≡◌, IfOk, Ok, Err};
ghost use Rattle.sexpr_text.specs.Forms.{IfRefused};
ghost use Rattle.smtlib_decls.specs.Commands.{by_command, command_meant};
ghost use Rattle.smtlib_decls.specs.Means.{Means, Refused};
ghost use Rattle.smtlib_decls.specs.Scripts.{is_exit, is_exit_word, nothing, script_from, script_meant};
ghost use Rattle.smtlib_decls.specs.Takes.{Reads, Takes, TakesForm};

use crate::assertions::{take_assertion, take_question};
use crate::command::{Command, command_of};
use crate::declarations::{take_constant, take_definition, take_signature, take_sort};
use crate::progress::Progress;
use mbqi_terms::Script;
use mbqi_values::{FaultKind, ReadError, Refusal};
use sexpr_text::{Form, Forms, Sexpr, read_forms};
use smtlib_names::trees::{is_some_symbol, is_symbol, text_of, trees_in};
use smtlib_terms::refused;
use std::alloc::Global;

/// Whether the trees in a list are those of `(exit)`.
fn is_exit_word(trees: &[Sexpr]) -> bool
    ensures { result ≡ is_exit_word trees.now }
{
    match trees {
        [head] => is_symbol(head, b"exit"),
        _ => false,
    }
}

/// Whether a form is `(exit)`.
#[tactic(auto, unfolding(crate::specs::Scripts::is_exit))]
fn is_exit(tree: &Sexpr) -> bool
    ensures { result ≡ is_exit tree.now }
{
    is_exit_word(trees_in(tree))
}

/// Takes a command with what stands behind its word.
fn take_by_command(
    alloc: Global,
    command: Command,
    progress: &mut Progress,
    tree: &Sexpr,
    parts: &[Sexpr],
) -> Result<(), ReadError>
    ensures { Takes result progress.new (by_command command progress.old tree.now parts.now) }
{
    match command {
        Command::PassedOver => Ok(()),
        Command::DeclareSort => take_sort(alloc, progress, parts),
        Command::DeclareConst => take_constant(alloc, progress, parts),
        Command::DeclareFun => take_signature(alloc, progress, parts),
        Command::DefineFun => take_definition(alloc, progress, tree),
        Command::Assert => take_assertion(alloc, progress, parts),
        Command::CheckSat => take_question(progress, parts),
        Command::Exit => Err(refused(FaultKind::BadForm)),
        Command::Unknown => Err(refused(FaultKind::Unsupported)),
    }
}

/// Takes a form that isn't `(exit)`.
#[tactic(auto, unfolding(crate::specs::Commands::command_meant))]
fn take_command(alloc: Global, progress: &mut Progress, tree: &Sexpr) -> Result<(), ReadError>
    ensures { Takes result progress.new (command_meant progress.old tree.now) }
{
    let [head, parts @ ..] = trees_in(tree) else {
        return Err(refused(FaultKind::BadForm));
    };
    if !is_some_symbol(head) {
        return Err(refused(FaultKind::BadForm));
    }
    take_by_command(alloc, command_of(text_of(head)), progress, tree, parts)
}

/// Takes a form, and refuses at its first byte.
fn take_form(alloc: Global, progress: &mut Progress, form: &Form) -> Result<(), ReadError>
    ensures { TakesForm result progress.new form.now.from (command_meant progress.old form.now.tree) }
{
    match take_command(alloc, progress, &form.tree) {
        Ok(()) => Ok(()),
        Err(ReadError::Refused(refusal)) => Err(ReadError::Refused(Refusal {
            at: form.from,
            kind: refusal.kind,
        })),
        Err(ReadError::Memory) => Err(ReadError::Memory),
    }
}

/// The script of the forms, one after the other.
fn read_all(alloc: Global, forms: &[Form]) -> Result<Script, ReadError>
    ensures { Reads result (script_meant forms.now) }
{
    let mut progress = Progress::new(alloc);
    for form in forms {
        if is_exit(&form.tree) {
            return Ok(progress.into_script());
        }
        take_form(alloc, &mut progress, form)?;
    }
    Ok(progress.into_script())
}

/// The script that forms mean.
///
/// Where they mean none, the first form without a meaning is refused, at its first byte and with its kind. Want of memory is
/// the one other error.
pub fn read_script(alloc: Global, forms: &Forms) -> Result<Script, ReadError>
    ensures means { IfOk result (λ script. script_meant forms.now ≡ Ok script) }
    ensures refused { IfRefused result (λ refusal. script_meant forms.now ≡ Err refusal) }
{
    read_all(alloc, forms.as_slice())
}

/// The script that bytes mean.
///
/// Where they mean none, they are refused: at the first fault of the text, or else at the first byte of the first form without
/// a meaning. Want of memory is the one other error.
pub fn read_text(alloc: Global, bytes: &[u8]) -> Result<Script, ReadError>
    ensures means { IfOk result (Means bytes.now) }
    ensures refused { IfRefused result (Refused bytes.now) }
{
    let forms = read_forms(alloc, bytes)?;
    read_script(alloc, &forms)
}
