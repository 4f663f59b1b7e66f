//! Constants of the one sort, and predicates over it.

ghost use Rattle.std.specs.Prelude.{◌≡◌, ◌↔◌, ◌⊎◌, IsTrue};
ghost use Rattle.std.specs.List.{AllByRecursion};
ghost use Rattle.element_atoms.specs.Profile.{the_sort, IsConstant, IsPredicate, NamesConstant};
ghost use Rattle.first_profile.specs.Parts.{NamesPredicate};

use mbqi_terms::{Function, Sort};

/// The one sort has the number 0.
pub const THE_SORT: Sort = Sort::Elem(0);

/// Whether each of the sorts is the one sort.
fn are_the_sort(sorts: &[Sort]) -> bool
    ensures { IsTrue result ↔ AllByRecursion (λ arg. arg ≡ the_sort) sorts.now }
{
    for sort in sorts {
        if *sort != THE_SORT {
            return false;
        }
    }
    true
}

fn is_constant(function: &Function) -> bool
    ensures { IsTrue result ↔ IsConstant function.now }
{
    function.result == THE_SORT && function.args.is_empty()
}

fn is_predicate(function: &Function) -> bool
    ensures { IsTrue result ↔ IsPredicate function.now }
{
    function.result == Sort::Truth && are_the_sort(function.args.as_slice())
}

/// Whether each function is a constant or a predicate.
pub fn are_functions(functions: &[Function]) -> bool
    ensures { IsTrue result ↔ AllByRecursion (λ function. IsConstant function ⊎ IsPredicate function) functions.now }
{
    for function in functions {
        if !is_constant(function) && !is_predicate(function) {
            return false;
        }
    }
    true
}

/// Whether a number is that of a constant.
pub fn names_constant(functions: &[Function], number: usize) -> bool
    ensures { IsTrue result ↔ NamesConstant functions.now number }
{
    match functions.get(number) {
        Some(function) => is_constant(function),
        None => false,
    }
}

/// Whether a number is that of a predicate that takes so many arguments.
pub fn names_predicate(functions: &[Function], number: usize, args: usize) -> bool
    ensures { IsTrue result ↔ NamesPredicate functions.now number args }
{
    match functions.get(number) {
        Some(function) => is_predicate(function) && args == function.args.len(),
        None => false,
    }
}
