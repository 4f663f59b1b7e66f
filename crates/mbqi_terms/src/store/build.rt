//! Terms from heads, arguments and numbers.

ghost use Rattle.std.specs.Prelude.{◌≡◌, length, IfOk};
ghost use Rattle.mbqi_terms.specs.declared.term.Symbol.TheVariants as symbol;
ghost use Rattle.mbqi_terms.specs.declared.term.Term.TheVariants as term;
ghost use Rattle.mbqi_terms.specs.declared.term.Term.{roll-Term};
ghost use Rattle.mbqi_terms.specs.Store.{head_layer, applied, first_of, HasShape};
ghost use Rattle.mbqi_terms.specs.Tree.{sum_of};

use crate::arrays::ArrayPair;
use crate::copy::copy_array;
use crate::store::lists::Lists;
use crate::store::node::Head;
use crate::term::{ArrayTerm, Symbol, Term, Terms};
use sqlite_items::Boxed;
use std::alloc::{AllocError, Global};

/// The term plus a number, where it is no numeral and no sum.
fn with_number(alloc: Global, base: Term, number: i128) -> Result<Term, AllocError>
    ensures { IfOk result (λ t. t ≡ sum_of base number) }
{
    if number == 0 {
        Ok(base)
    } else {
        Ok(Term::Plus(Boxed::new(alloc, base)?, number))
    }
}

fn difference(alloc: Global, pair: &ArrayPair) -> Result<Symbol, AllocError>
    ensures { IfOk result (λ f. f ≡ symbol.Diff pair.now.left pair.now.right) }
{
    let left = Boxed::new(alloc, copy_array(alloc, &pair.left)?)?;
    let right = Boxed::new(alloc, copy_array(alloc, &pair.right)?)?;
    Ok(Symbol::Diff(left, right))
}

fn copied(alloc: Global, array: &ArrayTerm) -> Result<Boxed<ArrayTerm>, AllocError>
    ensures { IfOk result (λ copy. copy ≡ array.now) }
{
    Boxed::new(alloc, copy_array(alloc, array)?)
}

/// A read of an array at the one argument.
fn read(alloc: Global, array: &ArrayTerm, mut args: Terms) -> Result<Term, AllocError>
    requires { length args ≡ 1 }
    ensures { IfOk result (λ t. t ≡ term.Read array.now (first_of args)) }
{
    match args.pop() {
        Some(index) => Ok(Term::Read(copied(alloc, array)?, Boxed::new(alloc, index)?)),
        None => unreachable!(),
    }
}

/// The head applied to the arguments, before a number is added.
fn base(alloc: Global, lists: &Lists, head: Head, args: Terms) -> Result<Term, AllocError>
    requires { HasShape lists.now head args }
    ensures { IfOk result (λ t. t ≡ roll-Term (head_layer lists.now head args)) }
{
    match head {
        Head::Zero => Ok(Term::Num(0)),
        Head::Var(place) => Ok(Term::Var(place)),
        Head::Truth(truth) => Ok(Term::Truth(truth)),
        Head::Declared(function) => Ok(Term::Apply(Symbol::Declared(function), args)),
        Head::Skolem(assertion, place) => Ok(Term::Apply(Symbol::Skolem(assertion, place), args)),
        Head::Seed(sort) => Ok(Term::Apply(Symbol::Seed(sort), args)),
        Head::Far => Ok(Term::Apply(Symbol::Far, args)),
        Head::Diff(pair) => {
            let symbol = difference(alloc, &lists.arrays.atoms.as_slice()[pair])?;
            Ok(Term::Apply(symbol, args))
        }
        Head::Read(array) => read(alloc, &lists.arrays.terms.as_slice()[array], args),
        Head::Default(array) => {
            let array = copied(alloc, &lists.arrays.terms.as_slice()[array])?;
            Ok(Term::Default(array))
        }
    }
}

/// The term of a node whose arguments have these terms.
pub(crate) fn term_of(
    alloc: Global,
    lists: &Lists,
    head: Head,
    args: Terms,
    number: i128,
) -> Result<Term, AllocError>
    requires { HasShape lists.now head args }
    ensures { IfOk result (λ t. t ≡ applied lists.now head args number) }
{
    if head == Head::Zero {
        return Ok(Term::Num(number));
    }
    let base = base(alloc, lists, head, args)?;
    with_number(alloc, base, number)
}
