//! The label of an asserted term.

ghost use Rattle.std.specs.Prelude.{◌≡◌};
ghost use Rattle.std.specs.List.{list_any, position};
ghost use Rattle.smtlib_terms.specs.Answers.{Answers};
ghost use Rattle.smtlib_decls.specs.Labels.{attributes_in, first_symbol, is_named, label_among, label_behind, label_of};

use mbqi_values::{FaultKind, ReadError, Text};
use sexpr_text::Sexpr;
use smtlib_names::trees::{is_some_symbol, is_symbol, text_of, trees_in};
use smtlib_terms::refused;
use std::alloc::Global;

/// Whether a tree is the keyword `:named`.
fn is_named(tree: &Sexpr) -> bool
    ensures { result ≡ is_named tree.now }
{
    tree.as_keyword() == Some(b"named".as_slice())
}

/// Whether one of the trees is `:named`.
fn is_any_named(trees: &[Sexpr]) -> bool
    ensures { result ≡ list_any is_named trees.now }
{
    trees.iter().any(|tree| is_named(tree))
}

/// The place of the first `:named`, counted from 0.
fn place_of_named(trees: &[Sexpr]) -> Option<usize>
    ensures { result ≡ position is_named trees.now }
{
    trees.iter().position(|tree| is_named(tree))
}

/// The symbol that comes first.
fn first_symbol(alloc: Global, trees: &[Sexpr]) -> Result<Option<Text>, ReadError>
    ensures { Answers result (first_symbol trees.now) }
{
    match trees {
        [tree, ..] if is_some_symbol(tree) => Ok(Some(Text::from_slice(alloc, text_of(tree))?)),
        _ => Err(refused(FaultKind::BadForm)),
    }
}

/// The label behind the first `:named`.
fn label_behind(alloc: Global, trees: &[Sexpr]) -> Result<Option<Text>, ReadError>
    ensures { Answers result (label_behind trees.now) }
{
    if is_any_named(trees) {
        return Err(refused(FaultKind::BadForm));
    }
    first_symbol(alloc, trees)
}

/// The label that attributes give.
fn label_among(alloc: Global, attributes: &[Sexpr]) -> Result<Option<Text>, ReadError>
    ensures { Answers result (label_among attributes.now) }
{
    match place_of_named(attributes) {
        Some(at) => label_behind(alloc, &attributes[at + 1..]),
        None => Ok(None),
    }
}

/// The attributes of `(! t ...)`; none in another list.
fn attributes_in(trees: &[Sexpr]) -> &[Sexpr]
    ensures { result.now ≡ attributes_in trees.now }
{
    match trees {
        [head, _, attributes @ ..] if is_symbol(head, b"!") => attributes,
        _ => &[],
    }
}

/// The label of an asserted term, where `!` is the whole term. Refused: BadForm where no symbol stands behind `:named`, or
/// a second `:named` does.
#[tactic(auto, unfolding(crate::specs::Labels::label_of))]
pub fn label_of(alloc: Global, tree: &Sexpr) -> Result<Option<Text>, ReadError>
    ensures { Answers result (label_of tree.now) }
{
    label_among(alloc, attributes_in(trees_in(tree)))
}
