//! The ground terms that stand for elements.

ghost use Rattle.std.specs.Prelude.{◌≡◌, [], IfOk, OnOk};
ghost use Rattle.element_atoms.specs.Atoms.{IsPool};
ghost use Rattle.element_atoms.specs.PoolSteps.{pool_with, with_seed};
ghost use Rattle.element_atoms.specs.Numbering.{IsNumbered, IsNumberOf, number_in};
ghost use Rattle.element_atoms.specs.Profile.{is_constant, constant};

use mbqi_terms::{Function, Sort, Symbol, Term, TermId, Terms};
use mbqi_values::Numbers;
use std::alloc::{AllocError, Global};

/// The constants of a script as terms, in order of their declarations, and then the seed, which stands for what has no name. For
/// each function, by its number, the number of its term among them: 0 where it is no constant.
#[derive(Drop)]
pub struct Pool {
    pub terms: Terms,
    pub numbers: Numbers,
}

/// The pool of a script's functions. The one error is want of memory.
pub fn pool_of(alloc: Global, functions: &[Function]) -> Result<Pool, AllocError>
    ensures { IfOk result (λ pool. IsPool functions.now pool) }
{
    let mut pool = Pool {
        terms: Terms::new(alloc),
        numbers: Numbers::new(alloc),
    };
    for function in functions {
        push_function(alloc, &mut pool, function)?;
    }
    push_seed(alloc, &mut pool)?;
    Ok(pool)
}

impl Pool {
    /// The number of a ground term.
    pub fn number_of(&self, t: &Term) -> TermId
        requires { IsNumbered self.now t.now }
        ensures place { IsNumberOf self.now.terms result t.now }
        ensures number { result.0 ≡ number_in self.now t.now }
    {
        match t {
            Term::Apply(Symbol::Declared(number), _) => TermId(self.numbers.as_slice()[*number]),
            _ => TermId(self.terms.len() - 1),
        }
    }
}

// Adds the seed behind the constants.
fn push_seed(alloc: Global, pool: &mut Pool) -> Result<(), AllocError>
    ensures { OnOk result (pool.new ≡ with_seed pool.old) }
{
    pool.terms
        .push(Term::Apply(Symbol::Seed(0), Terms::new(alloc)))
}

// Adds the next function to a pool of the functions before it.
fn push_function(alloc: Global, pool: &mut Pool, function: &Function) -> Result<(), AllocError>
    ensures { OnOk result (pool.new ≡ pool_with pool.old function.now) }
{
    if !is_constant(function) {
        return pool.numbers.push(0);
    }
    let term = constant(alloc, pool.numbers.len());
    pool.numbers.push(pool.terms.len())?;
    pool.terms.push(term)
}

fn is_constant(function: &Function) -> bool
    ensures { result ≡ is_constant function.now }
{
    matches!(function.result, Sort::Elem(_))
}

fn constant(alloc: Global, number: usize) -> Term
    ensures { result ≡ constant number }
{
    Term::Apply(Symbol::Declared(number), Terms::new(alloc))
}
