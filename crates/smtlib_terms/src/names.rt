//! Names that stand for something, as the definitions speak of them.

use crate::meaning::{Bound, Meaning};
use mbqi_terms::{Binder, Sort};
use mbqi_values::{Sequence, Text};
use sexpr_text::Sexpr;

/// A name with a sort, as a macro's parameters have.
#[derive(Drop)]
pub struct Parameter {
    pub name: Text,
    pub sort: Sort,
}

/// The parameters of a macro, in order.
pub type Parameters = Sequence<Parameter>;

/// The definition of a function as it is written: its name, its parameters, the sort of its result, and its body.
#[derive(Drop)]
pub struct Definition {
    pub name: Text,
    pub parameters: Parameters,
    pub result: Sort,
    pub body: Sexpr,
}

/// What is kept of the body of a defined function.
#[derive(Drop)]
pub enum MacroBody {
    /// What the body meant at its definition, its variables counted from 0: where there are no parameters.
    Meaning(Meaning),
    /// The tree, which each application reads anew: where there are parameters.
    Tree(Sexpr),
}

/// A defined function: its name, its parameters, and its body.
#[derive(Drop)]
pub struct Macro {
    pub name: Text,
    pub parameters: Parameters,
    pub body: MacroBody,
}

/// A name in scope, with what it stands for.
#[derive(Drop)]
pub struct Binding {
    pub name: Text,
    pub bound: Bound,
}

/// A variable of a quantifier, with its name.
#[derive(Drop)]
pub struct Variable {
    pub name: Text,
    pub binder: Binder,
}

/// The variables of a quantifier, in order.
pub type Variables = Sequence<Variable>;
