use crate::tree::Sexpr;
use mbqi_values::fault::FaultKind;

/// A token of a text: a bracket, or a tree that isn't a list.
#[derive(Debug, Drop)]
pub enum Token {
    Open,
    Close,
    Atom(Sexpr),
}

/// What stands at the front of a text.
#[derive(Debug, Drop)]
pub enum Front {
    /// White space or a comment, with its number of bytes.
    Blank(usize),
    /// A token, with its number of bytes.
    Token(Token, usize),
    /// A fault, with the number of bytes before it.
    Fault(FaultKind, usize),
}
