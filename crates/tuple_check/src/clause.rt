//! The truth of a clause at a tuple of pool terms.

ghost use Rattle.std.specs.Prelude.{◌≡◌, length, map, All, IfOk};
ghost use Rattle.std.specs.List.{list_any};
ghost use Rattle.element_atoms.specs.Atoms.{IsPool};
ghost use Rattle.element_atoms.specs.Profile.{IsArgument, IsAtom, IsClause, IsLiteral};
ghost use Rattle.tuple_check.specs.Failing.{IsPlaced, argument_at, atom_at_tuple, id_of, truth_at};

use element_atoms::{AtomTable, GroundAtom, Pool, declared};
use mbqi_terms::{Formula, Function, Term, TermId, TermIds};
use std::alloc::{AllocError, Global};

/// Whether a clause is true at a tuple. The one error is want of memory.
pub fn is_true_at(
    alloc: Global,
    functions: &[Function],
    pool: &Pool,
    table: &AtomTable,
    truths: &[bool],
    clause: &Formula,
    tuple: &[usize],
) -> Result<bool, AllocError>
    requires pool { IsPool functions.now pool.now }
    requires clause { IsClause functions.now (IsArgument functions.now (length tuple.now)) clause.now }
    requires truths { length truths.now ≡ length table.now }
    ensures { IfOk result (λ holds. holds ≡ truth_at pool.now table.now truths.now clause.now tuple.now) }
{
    match clause {
        Formula::Any(literals) => is_one_true_at(
            alloc,
            functions,
            pool,
            table,
            truths,
            literals.as_slice(),
            tuple,
        ),
        _ => is_literal_true_at(alloc, functions, pool, table, truths, clause, tuple),
    }
}

// Whether one of the literals is true.
fn is_one_true_at(
    alloc: Global,
    functions: &[Function],
    pool: &Pool,
    table: &AtomTable,
    truths: &[bool],
    literals: &[Formula],
    tuple: &[usize],
) -> Result<bool, AllocError>
    requires pool { IsPool functions.now pool.now }
    requires literals { All (IsLiteral functions.now (IsArgument functions.now (length tuple.now))) literals.now }
    requires truths { length truths.now ≡ length table.now }
    ensures { IfOk result (λ holds. holds ≡ list_any (λ f. truth_at pool.now table.now truths.now f tuple.now) literals.now) }
{
    for literal in literals {
        if is_literal_true_at(alloc, functions, pool, table, truths, literal, tuple)? {
            return Ok(true);
        }
    }
    Ok(false)
}

fn is_literal_true_at(
    alloc: Global,
    functions: &[Function],
    pool: &Pool,
    table: &AtomTable,
    truths: &[bool],
    literal: &Formula,
    tuple: &[usize],
) -> Result<bool, AllocError>
    requires pool { IsPool functions.now pool.now }
    requires literal { IsLiteral functions.now (IsArgument functions.now (length tuple.now)) literal.now }
    requires truths { length truths.now ≡ length table.now }
    ensures { IfOk result (λ holds. holds ≡ truth_at pool.now table.now truths.now literal.now tuple.now) }
{
    match literal {
        Formula::Atom(t) => {
            let atom = atom_at(alloc, functions, pool, tuple, t)?;
            Ok(table.truth(truths, &atom))
        }
        Formula::Not(negated) => {
            let Formula::Atom(t) = negated.get() else {
                unreachable!()
            };
            let atom = atom_at(alloc, functions, pool, tuple, t)?;
            Ok(!table.truth(truths, &atom))
        }
        _ => unreachable!(),
    }
}

// The ground atom that an atom is at the tuple.
fn atom_at(
    alloc: Global,
    functions: &[Function],
    pool: &Pool,
    tuple: &[usize],
    t: &Term,
) -> Result<GroundAtom, AllocError>
    requires pool { IsPool functions.now pool.now }
    requires atom { IsAtom functions.now (IsArgument functions.now (length tuple.now)) t.now }
    ensures { IfOk result (λ atom. atom ≡ atom_at_tuple pool.now tuple.now t.now) }
{
    let (predicate, args) = declared(t);
    let args = ids_at(alloc, pool, tuple, args)?;
    Ok(GroundAtom { predicate, args })
}

// The numbers of arguments in the pool.
fn ids_at(alloc: Global, pool: &Pool, tuple: &[usize], args: &[Term]) -> Result<TermIds, AllocError>
    requires { All (IsPlaced pool.now (length tuple.now)) args.now }
    ensures { IfOk result (λ ids. ids ≡ map (id_of pool.now tuple.now) args.now) }
{
    let mut ids = TermIds::new(alloc);
    for arg in args {
        ids.push(TermId(argument_at(pool, tuple, arg)))?;
    }
    Ok(ids)
}

fn argument_at(pool: &Pool, tuple: &[usize], t: &Term) -> usize
    requires { IsPlaced pool.now (length tuple.now) t.now }
    ensures { result ≡ argument_at pool.now tuple.now t.now }
{
    match t {
        Term::Var(place) => tuple[*place],
        _ => pool.number_of(t).0,
    }
}
