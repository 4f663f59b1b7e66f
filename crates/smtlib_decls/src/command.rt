//! The words of commands.

ghost use Rattle.std.specs.Prelude.{◌≡◌};
ghost use Rattle.smtlib_decls.specs.Commands.{command_among, command_of, command_words};

use smtlib_terms::word::is_passed_over;

/// A command, by its word (SMT-LIB 2.6, section 3.9).
#[derive(Clone, Copy, Debug, PartialEq, Eq)]
pub enum Command {
    /// A command that changes no script, whatever stands behind its word.
    PassedOver,
    DeclareSort,
    DeclareConst,
    DeclareFun,
    DefineFun,
    Assert,
    CheckSat,
    Exit,
    /// Any other word, also of a command that this profile leaves out.
    Unknown,
}

/// The command of another word, unless the profile has none of that word.
fn known_command(text: &[u8]) -> Option<Command>
    ensures { result ≡ command_among command_words text.now }
{
    if text == b"declare-sort".as_slice() {
        Some(Command::DeclareSort)
    } else if text == b"declare-const".as_slice() {
        Some(Command::DeclareConst)
    } else if text == b"declare-fun".as_slice() {
        Some(Command::DeclareFun)
    } else if text == b"define-fun".as_slice() {
        Some(Command::DefineFun)
    } else if text == b"assert".as_slice() {
        Some(Command::Assert)
    } else if text == b"check-sat".as_slice() {
        Some(Command::CheckSat)
    } else if text == b"exit".as_slice() {
        Some(Command::Exit)
    } else {
        None
    }
}

/// The command of a word.
#[tactic(auto, unfolding(crate::specs::Commands::command_of))]
pub fn command_of(text: &[u8]) -> Command
    ensures { result ≡ command_of text.now }
{
    if is_passed_over(text) {
        return Command::PassedOver;
    }
    known_command(text).unwrap_or(Command::Unknown)
}
