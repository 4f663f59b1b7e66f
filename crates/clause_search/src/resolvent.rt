//! The clauses that conflicts are made of.

ghost use Rattle.std.specs.Prelude.{◌≡◌, ◌==◌, map, IfOk};
ghost use Rattle.std.specs.List.{list_any};
ghost use Rattle.clause_search.specs.Resolvent.{contains_lit, negation, without, resolvent_of};

use mbqi_values::{Lit, Lits};
use std::alloc::{AllocError, Global};

/// Whether a literal of the clause has this atom.
pub(crate) fn mentions(clause: &[Lit], atom: usize) -> bool
    ensures { result ≡ list_any (λ lit. lit.atom == atom) clause.now }
{
    clause.iter().any(|lit| lit.atom == atom)
}

// Whether the clause has the literal.
fn has(clause: &[Lit], lit: Lit) -> bool
    ensures { result ≡ contains_lit clause.now lit }
{
    clause.iter().any(|other| *other == lit)
}

// The clause's literals but those of the atom.
fn others(alloc: Global, clause: &[Lit], atom: usize) -> Result<Vec<Lit>, AllocError>
    ensures { IfOk result (λ lits. lits.items ≡ without atom clause.now) }
{
    clause
        .iter()
        .copied()
        .filter(|lit| lit.atom != atom)
        .collect(alloc)
}

/// The literals of both clauses but those of the atom; one that stands in both is taken from the left, so that
/// resolvents don't grow by repeats. It takes time in the product of the lengths.
pub(crate) fn resolvent(
    alloc: Global,
    left: &[Lit],
    right: &[Lit],
    atom: usize,
) -> Result<Lits, AllocError>
    ensures { IfOk result (λ lits. lits ≡ resolvent_of left.now right.now atom) }
{
    let mut lits = others(alloc, left, atom)?;
    for lit in &others(alloc, right, atom)? {
        if !has(left, *lit) {
            lits.push(*lit)?;
        }
    }
    Ok(Lits::from_vec(lits))
}

fn negated(alloc: Global, lits: &[Lit]) -> Result<Vec<Lit>, AllocError>
    ensures { IfOk result (λ negated. negated.items ≡ map negation lits.now) }
{
    lits.iter().map(|lit| lit.negated()).collect(alloc)
}

/// The clause that is false exactly where each of the literals is true.
pub(crate) fn negations(alloc: Global, lits: &[Lit]) -> Result<Lits, AllocError>
    ensures { IfOk result (λ clause. clause ≡ map negation lits.now) }
{
    Ok(Lits::from_vec(negated(alloc, lits)?))
}
