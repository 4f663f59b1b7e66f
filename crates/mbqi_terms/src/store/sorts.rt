//! The sorts of array terms and of heads, by the lists of a store.

ghost use Rattle.std.specs.Prelude.{◌≡◌, List, map};
ghost use Rattle.mbqi_terms.specs.declared.term.Term.{Term};
ghost use Rattle.mbqi_terms.specs.Lists.{result_of, mapped, with_element, map_sort, array_sort, index_sort, element_sort, skolem_of, layer_sort};
ghost use Rattle.mbqi_terms.specs.Store.{head_layer, HasShape};
ghost use Rattle.std.specs.Option.{option_map};

use crate::arrays::SkolemSort;
use crate::script::Function;
use crate::sort::{Plain, Sort};
use crate::store::lists::Lists;
use crate::store::node::{Head, Node};
use crate::term::{ArrayTerm, MapOp};

fn result_sort(functions: &[Function], function: usize) -> Option<Sort>
    ensures { result ≡ result_of functions.now function }
{
    let function = functions.get(function)?;
    Some(function.result)
}

fn mapped_sort(functions: &[Function], op: MapOp) -> Option<Plain>
    ensures { result ≡ mapped functions.now op }
{
    match op {
        MapOp::Declared(function) => result_sort(functions, function)?.as_plain(),
        MapOp::And | MapOp::Or | MapOp::Not => Some(Plain::Truth),
    }
}

fn with_elements(sort: Sort, element: Plain) -> Option<Sort>
    ensures { result ≡ with_element sort element }
{
    match sort {
        Sort::Array(index, _) => Some(Sort::Array(index, element)),
        _ => None,
    }
}

#[cycle(sort)]
fn sort_of_map(functions: &[Function], op: MapOp, arrays: &[ArrayTerm]) -> Option<Sort>
    ensures { result ≡ map_sort functions.now op (map (array_sort functions.now) arrays.now) }
{
    let [first, ..] = arrays else {
        return None;
    };
    let sort = sort_of_array(functions, first)?;
    with_elements(sort, mapped_sort(functions, op)?)
}

/// The sort of an array term by the declared functions: that of its name, of the array that a store changes, of
/// a constant array, or the index sort of a map's first array with the elements that the map gives. None where
/// a function is missing or a part is no array.
#[cycle(sort)]
pub fn sort_of_array(functions: &[Function], array: &ArrayTerm) -> Option<Sort>
    ensures { result ≡ array_sort functions.now array.now }
{
    match array {
        ArrayTerm::Name(function) => result_sort(functions, *function),
        ArrayTerm::Store(changed, _, _) => sort_of_array(functions, changed.get()),
        ArrayTerm::Const(sort, _) => Some(*sort),
        ArrayTerm::Map(op, arrays) => sort_of_map(functions, *op, arrays.as_slice()),
    }
}

fn sort_of_index(lists: &Lists, array: &ArrayTerm) -> Option<Sort>
    ensures { result ≡ index_sort lists.now array.now }
{
    sort_of_array(lists.functions.as_slice(), array)?.index()
}

fn sort_of_element(lists: &Lists, array: &ArrayTerm) -> Option<Sort>
    ensures { result ≡ element_sort lists.now array.now }
{
    sort_of_array(lists.functions.as_slice(), array)?.element()
}

fn sort_of_skolem(skolems: &[SkolemSort], assertion: usize, place: usize) -> Option<Sort>
    ensures { result ≡ option_map (λ s. s.result) (skolem_of skolems.now assertion place) }
{
    skolems
        .iter()
        .find(|skolem| skolem.assertion == assertion && skolem.place == place)
        .map(|skolem| skolem.result)
}

/// The sort of a node before its number is added: none for a variable.
pub(crate) fn sort_of_node(lists: &Lists, node: &Node) -> Option<Sort>
    requires { HasShape lists.now node.now.head node.now.args }
    ensures { (ts : List Term) → result ≡ layer_sort lists.now (head_layer lists.now node.now.head ts) }
{
    match node.head {
        Head::Zero | Head::Far => Some(Sort::Int),
        Head::Var(_) => None,
        Head::Truth(_) => Some(Sort::Truth),
        Head::Declared(function) => result_sort(lists.functions.as_slice(), function),
        Head::Skolem(assertion, place) => {
            sort_of_skolem(lists.skolems.as_slice(), assertion, place)
        }
        Head::Seed(sort) => Some(Sort::Elem(sort)),
        Head::Diff(pair) => sort_of_index(lists, &lists.arrays.atoms.as_slice()[pair].left),
        Head::Read(array) => sort_of_element(lists, &lists.arrays.terms.as_slice()[array]),
        Head::Default(array) => sort_of_element(lists, &lists.arrays.terms.as_slice()[array]),
    }
}
