//! Trees as lists, symbols and binders.

ghost use Rattle.std.specs.Prelude.{◌≡◌};
ghost use Rattle.std.specs.List.{list_all};
ghost use Rattle.smtlib_terms.specs.Names.{is_symbol};
ghost use Rattle.smtlib_terms.specs.Reading.{are_binders, binder_name, is_binder, is_list, is_some_symbol, text_of, trees_in};

use sexpr_text::Sexpr;

/// The trees in a list; none in another tree.
#[tactic(auto, unfolding(smtlib_terms::specs::Reading::trees_in))]
pub fn trees_in(tree: &Sexpr) -> &[Sexpr]
    ensures { result.now ≡ trees_in tree.now }
{
    tree.as_list().unwrap_or(&[])
}

/// Whether a tree is a list.
pub fn is_list(tree: &Sexpr) -> bool
    ensures { result ≡ is_list tree.now }
{
    tree.as_list().is_some()
}

/// Whether a tree is a symbol.
pub fn is_some_symbol(tree: &Sexpr) -> bool
    ensures { result ≡ is_some_symbol tree.now }
{
    tree.as_symbol().is_some()
}

/// The text of a symbol; nothing of another tree.
pub fn text_of(tree: &Sexpr) -> &[u8]
    ensures { result.now ≡ text_of tree.now }
{
    tree.as_symbol().unwrap_or(&[])
}

/// Whether a tree is a binder or binding: a list of a symbol and one more tree.
pub fn is_binder(tree: &Sexpr) -> bool
    ensures { result ≡ is_binder tree.now }
{
    match trees_in(tree) {
        [first, _] => is_some_symbol(first),
        _ => false,
    }
}

/// Whether each tree is a binder.
pub fn each_is_binder(trees: &[Sexpr]) -> bool
    ensures { result ≡ list_all is_binder trees.now }
{
    trees.iter().all(|tree| is_binder(tree))
}

/// Whether trees are binders, of which there is at least one.
pub fn are_binders(trees: &[Sexpr]) -> bool
    ensures { result ≡ are_binders trees.now }
{
    match trees {
        [] => false,
        [_, ..] => each_is_binder(trees),
    }
}

/// The name that a binder binds.
pub fn binder_name(tree: &Sexpr) -> &[u8]
    ensures { result.now ≡ binder_name tree.now }
{
    match trees_in(tree) {
        [first, ..] => text_of(first),
        [] => &[],
    }
}

/// Whether a tree is this symbol.
pub fn is_symbol(tree: &Sexpr, name: &[u8]) -> bool
    ensures { result ≡ is_symbol name.now tree.now }
{
    tree.as_symbol() == Some(name)
}
