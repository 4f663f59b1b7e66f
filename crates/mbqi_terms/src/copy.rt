//! Copies of trees, of lists and of texts. A copy is the same value, and its only error is want of memory.

ghost use Rattle.std.specs.Prelude.{◌≡◌, IfOk};

use crate::formula::{Formula, Formulas};
use crate::sort::{Binder, Binders, Sort, Sorts};
use crate::term::{ArrayTerm, ArrayTerms, Symbol, Term, Terms};
use mbqi_values::{Sequence, Text};
use sqlite_items::{Boxed, Items};
use std::alloc::{AllocError, Global};

/// A copy of a text.
pub fn copy_text(alloc: Global, text: &Text) -> Result<Text, AllocError>
    ensures { IfOk result (λ copy. copy ≡ text.now) }
{
    Sequence::from_slice(alloc, text.as_slice())
}

/// A copy of a list of sorts.
pub fn copy_sorts(alloc: Global, sorts: &[Sort]) -> Result<Sorts, AllocError>
    ensures { IfOk result (λ copy. copy ≡ sorts.now) }
{
    Sequence::from_slice(alloc, sorts)
}

/// A copy of a list of binders.
pub fn copy_binders(alloc: Global, binders: &[Binder]) -> Result<Binders, AllocError>
    ensures { IfOk result (λ copy. copy ≡ binders.now) }
{
    Sequence::from_slice(alloc, binders)
}

/// A copy of a list of terms.
#[cycle(copy)]
pub fn copy_terms(alloc: Global, terms: &[Term]) -> Result<Terms, AllocError>
    ensures { IfOk result (λ copies. copies ≡ terms.now) }
{
    let mut copies = Items::new(alloc);
    for t in terms {
        copies.push(copy_term(alloc, t)?)?;
    }
    Ok(copies)
}

/// A copy of a list of array terms.
#[cycle(copy)]
pub fn copy_array_terms(alloc: Global, arrays: &[ArrayTerm]) -> Result<ArrayTerms, AllocError>
    ensures { IfOk result (λ copies. copies ≡ arrays.now) }
{
    let mut copies = Items::new(alloc);
    for a in arrays {
        copies.push(copy_array(alloc, a)?)?;
    }
    Ok(copies)
}

/// A copy of a symbol.
#[cycle(copy)]
pub fn copy_symbol(alloc: Global, symbol: &Symbol) -> Result<Symbol, AllocError>
    ensures { IfOk result (λ copy. copy ≡ symbol.now) }
{
    match symbol {
        Symbol::Declared(f) => Ok(Symbol::Declared(*f)),
        Symbol::Skolem(assertion, place) => Ok(Symbol::Skolem(*assertion, *place)),
        Symbol::Seed(sort) => Ok(Symbol::Seed(*sort)),
        Symbol::Far => Ok(Symbol::Far),
        Symbol::Diff(a, b) => {
            let left = Boxed::new(alloc, copy_array(alloc, a.get())?)?;
            let right = Boxed::new(alloc, copy_array(alloc, b.get())?)?;
            Ok(Symbol::Diff(left, right))
        }
    }
}

/// A copy of a term.
#[cycle(copy)]
pub fn copy_term(alloc: Global, term: &Term) -> Result<Term, AllocError>
    ensures { IfOk result (λ copy. copy ≡ term.now) }
{
    match term {
        Term::Num(n) => Ok(Term::Num(*n)),
        Term::Plus(t, n) => Ok(Term::Plus(Boxed::new(alloc, copy_term(alloc, t.get())?)?, *n)),
        Term::Var(place) => Ok(Term::Var(*place)),
        Term::Truth(truth) => Ok(Term::Truth(*truth)),
        Term::Apply(f, ts) => {
            let symbol = copy_symbol(alloc, f)?;
            let args = copy_terms(alloc, ts.as_slice())?;
            Ok(Term::Apply(symbol, args))
        }
        Term::Read(a, i) => {
            let array = Boxed::new(alloc, copy_array(alloc, a.get())?)?;
            let index = Boxed::new(alloc, copy_term(alloc, i.get())?)?;
            Ok(Term::Read(array, index))
        }
        Term::Default(a) => Ok(Term::Default(Boxed::new(alloc, copy_array(alloc, a.get())?)?)),
    }
}

/// A copy of an array term.
#[cycle(copy)]
pub fn copy_array(alloc: Global, array: &ArrayTerm) -> Result<ArrayTerm, AllocError>
    ensures { IfOk result (λ copy. copy ≡ array.now) }
{
    match array {
        ArrayTerm::Name(f) => Ok(ArrayTerm::Name(*f)),
        ArrayTerm::Store(a, i, v) => {
            let inner = Boxed::new(alloc, copy_array(alloc, a.get())?)?;
            let index = Boxed::new(alloc, copy_term(alloc, i.get())?)?;
            let value = Boxed::new(alloc, copy_term(alloc, v.get())?)?;
            Ok(ArrayTerm::Store(inner, index, value))
        }
        ArrayTerm::Const(sort, v) => {
            Ok(ArrayTerm::Const(*sort, Boxed::new(alloc, copy_term(alloc, v.get())?)?))
        }
        ArrayTerm::Map(f, xs) => Ok(ArrayTerm::Map(*f, copy_array_terms(alloc, xs.as_slice())?)),
    }
}

/// A copy of a list of formulas.
#[cycle(copy_formula)]
pub fn copy_formulas(alloc: Global, formulas: &[Formula]) -> Result<Formulas, AllocError>
    ensures { IfOk result (λ copies. copies ≡ formulas.now) }
{
    let mut copies = Items::new(alloc);
    for f in formulas {
        copies.push(copy_formula(alloc, f)?)?;
    }
    Ok(copies)
}

#[cycle(copy_formula)]
fn copy_boxed(alloc: Global, formula: &Boxed<Formula>) -> Result<Boxed<Formula>, AllocError>
    ensures { IfOk result (λ copy. copy ≡ formula.now) }
{
    Boxed::new(alloc, copy_formula(alloc, formula.get())?)
}

/// A copy of a formula.
#[cycle(copy_formula)]
pub fn copy_formula(alloc: Global, formula: &Formula) -> Result<Formula, AllocError>
    ensures { IfOk result (λ copy. copy ≡ formula.now) }
{
    Ok(match formula {
        Formula::Truth(truth) => Formula::Truth(*truth),
        Formula::Atom(t) => Formula::Atom(copy_term(alloc, t)?),
        Formula::Equal(s, t) => Formula::Equal(copy_term(alloc, s)?, copy_term(alloc, t)?),
        Formula::AtMost(s, t) => Formula::AtMost(copy_term(alloc, s)?, copy_term(alloc, t)?),
        Formula::SameArray(a, b) => Formula::SameArray(
            copy_array(alloc, a)?,
            copy_array(alloc, b)?,
        ),
        Formula::Not(f) => Formula::Not(copy_boxed(alloc, f)?),
        Formula::All(fs) => Formula::All(copy_formulas(alloc, fs.as_slice())?),
        Formula::Any(fs) => Formula::Any(copy_formulas(alloc, fs.as_slice())?),
        Formula::Iff(f, g) => Formula::Iff(copy_boxed(alloc, f)?, copy_boxed(alloc, g)?),
        Formula::Choose(c, f, g) => {
            Formula::Choose(
                copy_boxed(alloc, c)?,
                copy_boxed(alloc, f)?,
                copy_boxed(alloc, g)?,
            )
        }
        Formula::Forall(bs, f) => {
            Formula::Forall(copy_binders(alloc, bs.as_slice())?, copy_boxed(alloc, f)?)
        }
        Formula::Exists(bs, f) => {
            Formula::Exists(copy_binders(alloc, bs.as_slice())?, copy_boxed(alloc, f)?)
        }
    })
}
