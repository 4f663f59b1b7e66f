//! Terms with their variables moved.

ghost use Rattle.std.specs.Prelude.{◌≡◌, IfOk, map};
ghost use Rattle.moved_terms.specs.Moves.{shifted_array, shifted_symbol};
ghost use Rattle.smtlib_terms.specs.Meaning.{shifted_term};

use crate::places::{Shift, moved_place};
use mbqi_terms::{ArrayTerm, Symbol, Term};
use measured_terms::{MeasuredArray, MeasuredArrays, MeasuredSymbol, MeasuredTerm, MeasuredTerms};
use std::alloc::{AllocError, Global};

/// Terms with their variables moved.
#[cycle(moves)]
fn moved_args(alloc: Global, shift: Shift, terms: &[Term]) -> Result<MeasuredTerms, AllocError>
    ensures { IfOk result (λ moved. moved ≡ map (shifted_term shift.from shift.by) terms.now) }
{
    let mut moved = MeasuredTerms::new(alloc);
    for t in terms {
        moved.push(moved_term(alloc, shift, t)?)?;
    }
    Ok(moved)
}

/// Array terms with the variables in them moved.
#[cycle(moves)]
fn moved_arrays(
    alloc: Global,
    shift: Shift,
    arrays: &[ArrayTerm],
) -> Result<MeasuredArrays, AllocError>
    ensures { IfOk result (λ moved. moved ≡ map (shifted_array shift.from shift.by) arrays.now) }
{
    let mut moved = MeasuredArrays::new(alloc);
    for a in arrays {
        moved.push(moved_array(alloc, shift, a)?)?;
    }
    Ok(moved)
}

/// A symbol with the variables in its parts moved.
#[cycle(moves)]
#[tactic(auto, using(crate::proofs::TermMoves::symbol_laws))]
fn moved_symbol(alloc: Global, shift: Shift, symbol: &Symbol) -> Result<MeasuredSymbol, AllocError>
    ensures { IfOk result (λ moved. moved ≡ shifted_symbol shift.from shift.by symbol.now) }
{
    match symbol {
        Symbol::Declared(f) => Ok(MeasuredSymbol::declared(*f)),
        Symbol::Skolem(assertion, place) => Ok(MeasuredSymbol::skolem(*assertion, *place)),
        Symbol::Seed(sort) => Ok(MeasuredSymbol::seed(*sort)),
        Symbol::Far => Ok(MeasuredSymbol::far()),
        Symbol::Diff(a, b) => {
            let left = moved_array(alloc, shift, a.get())?;
            let right = moved_array(alloc, shift, b.get())?;
            MeasuredSymbol::diff(alloc, left, right)
        }
    }
}

/// A term with its variables moved.
#[cycle(moves)]
#[tactic(auto, using(crate::proofs::TermMoves::term_laws))]
pub(crate) fn moved_term(
    alloc: Global,
    shift: Shift,
    term: &Term,
) -> Result<MeasuredTerm, AllocError>
    ensures { IfOk result (λ moved. moved ≡ shifted_term shift.from shift.by term.now) }
{
    match term {
        Term::Num(n) => Ok(MeasuredTerm::number(*n)),
        Term::Plus(t, n) => MeasuredTerm::plus(alloc, moved_term(alloc, shift, t.get())?, *n),
        Term::Var(place) => Ok(MeasuredTerm::variable(moved_place(shift, *place)?)),
        Term::Truth(truth) => Ok(MeasuredTerm::truth(*truth)),
        Term::Apply(f, ts) => {
            let symbol = moved_symbol(alloc, shift, f)?;
            let args = moved_args(alloc, shift, ts.as_slice())?;
            MeasuredTerm::apply(symbol, args)
        }
        Term::Read(a, i) => {
            let array = moved_array(alloc, shift, a.get())?;
            let index = moved_term(alloc, shift, i.get())?;
            MeasuredTerm::read(alloc, array, index)
        }
        Term::Default(a) => MeasuredTerm::default_of(alloc, moved_array(alloc, shift, a.get())?),
    }
}

/// An array term with the variables in it moved.
#[cycle(moves)]
#[tactic(auto, using(crate::proofs::TermMoves::array_laws))]
fn moved_array(alloc: Global, shift: Shift, array: &ArrayTerm) -> Result<MeasuredArray, AllocError>
    ensures { IfOk result (λ moved. moved ≡ shifted_array shift.from shift.by array.now) }
{
    match array {
        ArrayTerm::Name(f) => Ok(MeasuredArray::name(*f)),
        ArrayTerm::Store(a, i, v) => {
            let inner = moved_array(alloc, shift, a.get())?;
            let index = moved_term(alloc, shift, i.get())?;
            let value = moved_term(alloc, shift, v.get())?;
            MeasuredArray::store(alloc, inner, index, value)
        }
        ArrayTerm::Const(sort, v) => {
            MeasuredArray::constant(alloc, *sort, moved_term(alloc, shift, v.get())?)
        }
        ArrayTerm::Map(op, arrays) => {
            MeasuredArray::map(*op, moved_arrays(alloc, shift, arrays.as_slice())?)
        }
    }
}
