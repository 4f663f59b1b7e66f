//! Sorts as trees name them.

ghost use Rattle.smtlib_terms.specs.Answers.{Answers};
ghost use Rattle.smtlib_terms.specs.Names.{array_of_plain, array_sort, sort_meant, sort_named};

use crate::trees::is_symbol;
use mbqi_terms::{Plain, Sort};
use mbqi_values::{FaultKind, ReadError};
use name_tables::NameSet;
use sexpr_text::Sexpr;
use smtlib_terms::refused;

/// The sort of arrays with this index.
fn array_of(index: Plain, element: Sort) -> Result<Sort, ReadError>
    ensures { Answers result (array_of_plain index element) }
{
    match element {
        Sort::Truth => Ok(Sort::Array(index, Plain::Truth)),
        Sort::Int => Ok(Sort::Array(index, Plain::Int)),
        Sort::Elem(sort) => Ok(Sort::Array(index, Plain::Elem(sort))),
        Sort::Array(_, _) => Err(refused(FaultKind::Unsupported)),
    }
}

/// The sort of arrays with these sorts of index and element.
fn array_sort(index: Sort, element: Sort) -> Result<Sort, ReadError>
    ensures { Answers result (array_sort index element) }
{
    match index {
        Sort::Int => array_of(Plain::Int, element),
        Sort::Elem(sort) => array_of(Plain::Elem(sort), element),
        Sort::Truth | Sort::Array(_, _) => Err(refused(FaultKind::Unsupported)),
    }
}

/// The sort of a name.
fn sort_named(sorts: &NameSet, name: &[u8]) -> Result<Sort, ReadError>
    ensures { Answers result (sort_named sorts.now name.now) }
{
    if name == b"Bool".as_slice() {
        return Ok(Sort::Truth);
    }
    if name == b"Int".as_slice() {
        return Ok(Sort::Int);
    }
    match sorts.place_of(name) {
        Some(sort) => Ok(Sort::Elem(sort)),
        None => Err(refused(FaultKind::UnknownName)),
    }
}

/// The sort that a tree names, by the declared sorts. Refused: BadForm where the tree is neither a symbol nor
/// `(Array I E)`, UnknownName where no sort has the name, Unsupported where the profile has no such arrays.
#[tactic(auto, using(smtlib_terms::proofs::SortTrees::sort_laws))]
pub fn sort_of_tree(sorts: &NameSet, tree: &Sexpr) -> Result<Sort, ReadError>
    ensures { Answers result (sort_meant tree.now sorts.now) }
{
    match tree {
        Sexpr::Symbol(name) => sort_named(sorts, name.as_slice()),
        Sexpr::List(items) => {
            let [head, index, element] = items.as_slice() else {
                return Err(refused(FaultKind::BadForm));
            };
            if !is_symbol(head, b"Array") {
                return Err(refused(FaultKind::BadForm));
            }
            let index = sort_of_tree(sorts, index)?;
            let element = sort_of_tree(sorts, element)?;
            array_sort(index, element)
        }
        Sexpr::Numeral(_)
        | Sexpr::Decimal(_)
        | Sexpr::Hex(_)
        | Sexpr::Binary(_)
        | Sexpr::Str(_)
        | Sexpr::Keyword(_) => Err(refused(FaultKind::BadForm)),
    }
}
