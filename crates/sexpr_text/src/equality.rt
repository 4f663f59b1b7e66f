ghost use Rattle.std.specs.Prelude.{◌≡◌, ◌↔◌, IsTrue, IfOk};

use crate::tree::{Sexpr, Sexprs};
use mbqi_values::sequence::Text;
use sqlite_items::Items;
use std::alloc::{AllocError, Global};

/// Whether two texts have the same bytes.
fn same_text(left: &Text, right: &Text) -> bool
    ensures { IsTrue result ↔ (left.now ≡ right.now) }
{
    left.as_slice() == right.as_slice()
}

/// Whether two trees are equal. It goes as deep as the trees' brackets.
#[cycle(same)]
pub fn same_tree(left: &Sexpr, right: &Sexpr) -> bool
    ensures { IsTrue result ↔ (left.now ≡ right.now) }
{
    match (left, right) {
        (Sexpr::Numeral(a), Sexpr::Numeral(b)) => same_text(a, b),
        (Sexpr::Decimal(a), Sexpr::Decimal(b)) => same_text(a, b),
        (Sexpr::Hex(a), Sexpr::Hex(b)) => same_text(a, b),
        (Sexpr::Binary(a), Sexpr::Binary(b)) => same_text(a, b),
        (Sexpr::Str(a), Sexpr::Str(b)) => same_text(a, b),
        (Sexpr::Symbol(a), Sexpr::Symbol(b)) => same_text(a, b),
        (Sexpr::Keyword(a), Sexpr::Keyword(b)) => same_text(a, b),
        (Sexpr::List(a), Sexpr::List(b)) => same_trees(a.as_slice(), b.as_slice()),
        _ => false,
    }
}

/// Whether two lists of trees are equal.
#[cycle(same)]
pub fn same_trees(left: &[Sexpr], right: &[Sexpr]) -> bool
    ensures { IsTrue result ↔ (left.now ≡ right.now) }
{
    if left.len() != right.len() {
        return false;
    }
    for i in 0..left.len() {
        if !same_tree(&left[i], &right[i]) {
            return false;
        }
    }
    true
}

/// A copy of a text.
fn copy_text(alloc: Global, text: &Text) -> Result<Text, AllocError>
    ensures { IfOk result (λ copy. copy ≡ text.now) }
{
    Text::from_slice(alloc, text.as_slice())
}

/// A copy of a tree. It goes as deep as the tree's brackets.
#[cycle(copy)]
pub fn copy_tree(alloc: Global, tree: &Sexpr) -> Result<Sexpr, AllocError>
    ensures { IfOk result (λ copy. copy ≡ tree.now) }
{
    match tree {
        Sexpr::Numeral(text) => Ok(Sexpr::Numeral(copy_text(alloc, text)?)),
        Sexpr::Decimal(text) => Ok(Sexpr::Decimal(copy_text(alloc, text)?)),
        Sexpr::Hex(text) => Ok(Sexpr::Hex(copy_text(alloc, text)?)),
        Sexpr::Binary(text) => Ok(Sexpr::Binary(copy_text(alloc, text)?)),
        Sexpr::Str(text) => Ok(Sexpr::Str(copy_text(alloc, text)?)),
        Sexpr::Symbol(text) => Ok(Sexpr::Symbol(copy_text(alloc, text)?)),
        Sexpr::Keyword(text) => Ok(Sexpr::Keyword(copy_text(alloc, text)?)),
        Sexpr::List(trees) => Ok(Sexpr::List(copy_trees(alloc, trees.as_slice())?)),
    }
}

/// A copy of a list of trees.
#[cycle(copy)]
pub fn copy_trees(alloc: Global, trees: &[Sexpr]) -> Result<Sexprs, AllocError>
    ensures { IfOk result (λ copies. copies ≡ trees.now) }
{
    let mut copies = Items::new(alloc);
    for tree in trees {
        copies.push(copy_tree(alloc, tree)?)?;
    }
    Ok(copies)
}
