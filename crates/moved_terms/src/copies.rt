//! Copies of terms and array terms with their measures.

ghost use Rattle.std.specs.Prelude.{◌≡◌, IfOk};

use mbqi_terms::{ArrayTerm, Symbol, Term};
use measured_terms::{MeasuredArray, MeasuredArrays, MeasuredSymbol, MeasuredTerm, MeasuredTerms};
use std::alloc::{AllocError, Global};

/// A copy of a list of terms.
#[cycle(copies)]
fn copied_terms(alloc: Global, terms: &[Term]) -> Result<MeasuredTerms, AllocError>
    ensures { IfOk result (λ copies. copies ≡ terms.now) }
{
    let mut copies = MeasuredTerms::new(alloc);
    for t in terms {
        copies.push(measured_term(alloc, t)?)?;
    }
    Ok(copies)
}

/// A copy of a list of array terms.
#[cycle(copies)]
fn copied_arrays(alloc: Global, arrays: &[ArrayTerm]) -> Result<MeasuredArrays, AllocError>
    ensures { IfOk result (λ copies. copies ≡ arrays.now) }
{
    let mut copies = MeasuredArrays::new(alloc);
    for a in arrays {
        copies.push(measured_array(alloc, a)?)?;
    }
    Ok(copies)
}

/// A copy of a symbol.
#[cycle(copies)]
fn copied_symbol(alloc: Global, symbol: &Symbol) -> Result<MeasuredSymbol, AllocError>
    ensures { IfOk result (λ copy. copy ≡ symbol.now) }
{
    match symbol {
        Symbol::Declared(f) => Ok(MeasuredSymbol::declared(*f)),
        Symbol::Skolem(assertion, place) => Ok(MeasuredSymbol::skolem(*assertion, *place)),
        Symbol::Seed(sort) => Ok(MeasuredSymbol::seed(*sort)),
        Symbol::Far => Ok(MeasuredSymbol::far()),
        Symbol::Diff(a, b) => {
            let left = measured_array(alloc, a.get())?;
            let right = measured_array(alloc, b.get())?;
            MeasuredSymbol::diff(alloc, left, right)
        }
    }
}

/// A copy of a term, measured anew. The only error is want of memory.
#[cycle(copies)]
pub fn measured_term(alloc: Global, term: &Term) -> Result<MeasuredTerm, AllocError>
    ensures { IfOk result (λ copy. copy ≡ term.now) }
{
    match term {
        Term::Num(n) => Ok(MeasuredTerm::number(*n)),
        Term::Plus(t, n) => MeasuredTerm::plus(alloc, measured_term(alloc, t.get())?, *n),
        Term::Var(place) => Ok(MeasuredTerm::variable(*place)),
        Term::Truth(truth) => Ok(MeasuredTerm::truth(*truth)),
        Term::Apply(f, ts) => {
            let symbol = copied_symbol(alloc, f)?;
            let args = copied_terms(alloc, ts.as_slice())?;
            MeasuredTerm::apply(symbol, args)
        }
        Term::Read(a, i) => {
            let array = measured_array(alloc, a.get())?;
            let index = measured_term(alloc, i.get())?;
            MeasuredTerm::read(alloc, array, index)
        }
        Term::Default(a) => MeasuredTerm::default_of(alloc, measured_array(alloc, a.get())?),
    }
}

/// A copy of an array term, measured anew. The only error is want of memory.
#[cycle(copies)]
pub fn measured_array(alloc: Global, array: &ArrayTerm) -> Result<MeasuredArray, AllocError>
    ensures { IfOk result (λ copy. copy ≡ array.now) }
{
    match array {
        ArrayTerm::Name(f) => Ok(MeasuredArray::name(*f)),
        ArrayTerm::Store(a, i, v) => {
            let inner = measured_array(alloc, a.get())?;
            let index = measured_term(alloc, i.get())?;
            let value = measured_term(alloc, v.get())?;
            MeasuredArray::store(alloc, inner, index, value)
        }
        ArrayTerm::Const(sort, v) => {
            MeasuredArray::constant(alloc, *sort, measured_term(alloc, v.get())?)
        }
        ArrayTerm::Map(op, arrays) => {
            MeasuredArray::map(*op, copied_arrays(alloc, arrays.as_slice())?)
        }
    }
}
