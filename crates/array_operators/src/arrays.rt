//! The operations of SMT-LIB 2.6's theory ArraysEx, and this project's `default`.

ghost use Rattle.std.specs.Prelude.{◌≡◌};
ghost use Rattle.smtlib_terms.specs.declared.meaning.Meaning.TheVariants as meaning;
ghost use Rattle.smtlib_terms.specs.Answers.{Answers};
ghost use Rattle.smtlib_terms.specs.Operators.{as_plain, constant, constant_of, default_of, defaulting, read_at, selection, stored_at, storing, term_meant, unbound};
ghost use Rattle.operator_arguments.specs.Measured.{Means, meaning_of, meanings_of};
ghost use Rattle.array_operators.specs.Steps.{stored_value};

use mbqi_terms::{Plain, Sort};
use mbqi_values::{FaultKind, ReadError};
use measured_terms::{MeasuredArray, MeasuredFormula, MeasuredTerm};
use operator_arguments::{Meanings, MeasuredMeaning, is_sort, pair, plain_sort, sole, triple};
use smtlib_terms::{refused, refused_unless_deep};
use std::alloc::Global;

/// A term of a plain sort: one of sort Bool is a formula.
pub fn term_meant(sort: Plain, t: MeasuredTerm) -> MeasuredMeaning
    ensures { meaning_of result ≡ term_meant sort t }
{
    match sort {
        Plain::Truth => MeasuredMeaning::Formula(MeasuredFormula::atom(t)),
        Plain::Int => MeasuredMeaning::Term(Sort::Int, t),
        Plain::Elem(s) => MeasuredMeaning::Term(Sort::Elem(s), t),
    }
}

/// A formula as the term of a place of this sort.
fn formula_as_plain(sort: Plain, f: MeasuredFormula) -> Result<MeasuredTerm, ReadError>
    ensures { Answers result (as_plain sort (meaning.Formula f)) }
{
    match sort {
        Plain::Truth => match f.into_value() {
            Some(t) => Ok(t),
            None => Err(refused(FaultKind::Unsupported)),
        },
        Plain::Int | Plain::Elem(_) => Err(refused(FaultKind::WrongSort)),
    }
}

/// A meaning as the term of a place of this sort. Unsupported: a formula in a place of sort Bool that is neither
/// `true` nor `false` nor an atom.
fn as_plain(sort: Plain, m: MeasuredMeaning) -> Result<MeasuredTerm, ReadError>
    ensures { Answers result (as_plain sort (meaning_of m)) }
{
    match m {
        MeasuredMeaning::Formula(f) => formula_as_plain(sort, f),
        MeasuredMeaning::Term(s, t) => {
            if is_sort(plain_sort(sort), s) {
                Ok(t)
            } else {
                Err(refused(FaultKind::WrongSort))
            }
        }
        MeasuredMeaning::Array(_, _, _) => Err(refused(FaultKind::WrongSort)),
    }
}

/// An array term in which no variable stands.
pub fn unbound(index: Plain, element: Plain, a: MeasuredArray) -> Result<MeasuredMeaning, ReadError>
    ensures { Means meaning_of result (unbound index element a) }
{
    if a.has_variable() {
        Err(refused_unless_deep(FaultKind::BoundArray, a.depth()))
    } else {
        Ok(MeasuredMeaning::Array(index, element, a))
    }
}

/// `select` of an array and an index.
fn read_at(
    alloc: Global,
    a: MeasuredMeaning,
    m: MeasuredMeaning,
) -> Result<MeasuredMeaning, ReadError>
    ensures { Means meaning_of result (read_at (meaning_of a) (meaning_of m)) }
{
    match a {
        MeasuredMeaning::Array(index, element, a) => {
            let place = as_plain(index, m)?;
            Ok(term_meant(element, MeasuredTerm::read(alloc, a, place)?))
        }
        MeasuredMeaning::Formula(_) | MeasuredMeaning::Term(_, _) => {
            Err(refused(FaultKind::WrongSort))
        }
    }
}

/// `store` of an array, an index and a value that is a term of the elements' sort.
fn stored_value(
    alloc: Global,
    a: MeasuredArray,
    index: Plain,
    element: Plain,
    m: MeasuredMeaning,
    value: MeasuredTerm,
) -> Result<MeasuredMeaning, ReadError>
    ensures { Means meaning_of result (stored_value index element a (meaning_of m) value) }
{
    let place = as_plain(index, m)?;
    unbound(
        index,
        element,
        MeasuredArray::store(alloc, a, place, value)?,
    )
}

/// The index and the value of a `store`.
#[derive(Drop)]
struct Cell {
    index: MeasuredMeaning,
    value: MeasuredMeaning,
}

/// `store` of an array with these sorts, an index and a value.
fn stored_in(
    alloc: Global,
    a: MeasuredArray,
    index: Plain,
    element: Plain,
    cell: Cell,
) -> Result<MeasuredMeaning, ReadError>
    ensures { Means meaning_of result (stored_at (meaning.Array index element a) (meaning_of cell.index) (meaning_of cell.value)) }
{
    let Cell { index: m, value: n } = cell;
    let value = as_plain(element, n)?;
    stored_value(alloc, a, index, element, m, value)
}

/// `store` of an array, an index and a value.
#[tactic(auto, using(crate::proofs::Arities::stored_laws))]
fn stored_at(alloc: Global, a: MeasuredMeaning, cell: Cell) -> Result<MeasuredMeaning, ReadError>
    ensures { Means meaning_of result (stored_at (meaning_of a) (meaning_of cell.index) (meaning_of cell.value)) }
{
    match a.into_array() {
        None => Err(refused(FaultKind::WrongSort)),
        Some((index, element, array)) => stored_in(alloc, array, index, element, cell),
    }
}

/// `select`
#[tactic(auto, using(crate::proofs::Arities::selection_is))]
pub fn selection(alloc: Global, args: Meanings) -> Result<MeasuredMeaning, ReadError>
    ensures { Means meaning_of result (selection (meanings_of args)) }
{
    let (a, i) = pair(args)?;
    read_at(alloc, a, i)
}

/// `store`
#[tactic(auto, using(crate::proofs::Arities::storing_is))]
pub fn storing(alloc: Global, args: Meanings) -> Result<MeasuredMeaning, ReadError>
    ensures { Means meaning_of result (storing (meanings_of args)) }
{
    let (a, i, v) = triple(args)?;
    stored_at(alloc, a, Cell { index: i, value: v })
}

/// `default` of an array over Int.
fn default_over(
    alloc: Global,
    element: Plain,
    array: MeasuredArray,
) -> Result<MeasuredMeaning, ReadError>
    ensures { Means meaning_of result (default_of (meaning.Array Plain.Int element array)) }
{
    let varies = array.has_variable();
    let m = term_meant(element, MeasuredTerm::default_of(alloc, array)?);
    if varies {
        Err(refused_unless_deep(FaultKind::BoundArray, m.depth()))
    } else {
        Ok(m)
    }
}

/// `default` of an array.
fn default_of(alloc: Global, m: MeasuredMeaning) -> Result<MeasuredMeaning, ReadError>
    ensures { Means meaning_of result (default_of (meaning_of m)) }
{
    match m {
        MeasuredMeaning::Array(index, element, a) => match index {
            Plain::Int => default_over(alloc, element, a),
            Plain::Truth | Plain::Elem(_) => Err(refused(FaultKind::Unsupported)),
        },
        MeasuredMeaning::Formula(_) | MeasuredMeaning::Term(_, _) => {
            Err(refused(FaultKind::WrongSort))
        }
    }
}

/// `default`
#[tactic(auto, using(crate::proofs::Arities::defaulting_is))]
pub fn defaulting(alloc: Global, args: Meanings) -> Result<MeasuredMeaning, ReadError>
    ensures { Means meaning_of result (defaulting (meanings_of args)) }
{
    default_of(alloc, sole(args)?)
}

/// The array of a sort with one value everywhere.
fn constant_of(alloc: Global, sort: Sort, m: MeasuredMeaning) -> Result<MeasuredMeaning, ReadError>
    ensures { Means meaning_of result (constant_of sort (meaning_of m)) }
{
    match sort {
        Sort::Array(index, element) => {
            let value = as_plain(element, m)?;
            let array = Sort::Array(index, element);
            unbound(
                index,
                element,
                MeasuredArray::constant(alloc, array, value)?,
            )
        }
        Sort::Truth | Sort::Int | Sort::Elem(_) => Err(refused(FaultKind::WrongSort)),
    }
}

/// `((as const S) v)` of the sort S. Refused: WrongCount, WrongSort where S is no array sort or the value has another
/// sort than its elements, Unsupported where the value is a formula that is neither `true` nor `false` nor an atom,
/// BoundArray where a variable stands in the value.
#[tactic(auto, using(crate::proofs::Arities::constant_is))]
pub fn constant(alloc: Global, sort: Sort, args: Meanings) -> Result<MeasuredMeaning, ReadError>
    ensures { Means meaning_of result (constant sort (meanings_of args)) }
{
    constant_of(alloc, sort, sole(args)?)
}
