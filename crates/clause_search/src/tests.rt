//! What no clause says: that the search answers where memory is ample, over the free theory and over one that clashes.
ghost use Rattle.std.specs.Prelude.{◌<◌, All, IfOk, OnOk};
ghost use Rattle.mbqi_values.specs.Clauses.{AreBelow};

mod at_most_one;

use super::*;
use at_most_one::AtMostOne;
use mbqi_values::{Lit, LitLists, Lits};
use std::alloc::{AllocError, Global};
use std::test::Fail;
use theory_trait::{FreeTheory, Theory};

// Four pigeons in three holes, and at first three of them: pigeon n in hole 1, 2 or 3 is 3 n - 2, 3 n - 1 or 3 n.
const PIGEONS: [&[i16]; 22] = [
    &[1, 2, 3],
    &[4, 5, 6],
    &[7, 8, 9],
    &[-1, -4],
    &[-1, -7],
    &[-4, -7],
    &[-2, -5],
    &[-2, -8],
    &[-5, -8],
    &[-3, -6],
    &[-3, -9],
    &[-6, -9],
    &[10, 11, 12],
    &[-1, -10],
    &[-4, -10],
    &[-7, -10],
    &[-2, -11],
    &[-5, -11],
    &[-8, -11],
    &[-3, -12],
    &[-6, -12],
    &[-9, -12],
];

// The clause of these numbers: number n is the atom n - 1, and -n its negation. Others than the atoms are left out.
fn clause_of(alloc: Global, numbers: &[i16], atoms: usize) -> Result<Lits, AllocError>
    ensures { IfOk result (All (λ lit. lit.atom < atoms)) }
{
    let mut lits = Vec::new(alloc);
    for number in numbers {
        let lit = Lit {
            atom: (number.unsigned_abs() as usize).saturating_sub(1),
            yes: *number > 0,
        };
        if lit.atom < atoms {
            lits.push(lit)?;
        }
    }
    Ok(Lits::from_vec(lits))
}

fn push_clause(
    alloc: Global,
    clauses: &mut LitLists,
    numbers: &[i16],
    atoms: usize,
) -> Result<(), AllocError>
    requires { AreBelow atoms clauses.old }
    ensures { OnOk result (AreBelow atoms clauses.new) }
{
    clauses.push(clause_of(alloc, numbers, atoms)?)
}

fn clauses_of(alloc: Global, rows: &[&[i16]], atoms: usize) -> Result<LitLists, AllocError>
    ensures { IfOk result (AreBelow atoms) }
{
    let mut clauses = LitLists::new(alloc);
    for row in rows {
        push_clause(alloc, &mut clauses, row, atoms)?;
    }
    Ok(clauses)
}

// How many literals are found over the free theory, if any are.
fn found(alloc: Global, atoms: usize, clauses: &LitLists) -> Result<Option<usize>, AllocError>
    requires { AreBelow atoms clauses.now }
{
    let mut theory = FreeTheory::new(alloc, atoms);
    match search(alloc, clauses, &mut theory)? {
        Searched::Found(trail) => Ok(Some(trail.len())),
        Searched::Closed => Ok(None),
    }
}

fn found_of(alloc: Global, atoms: usize, rows: &[&[i16]]) -> Result<Option<usize>, AllocError> {
    let clauses = clauses_of(alloc, rows, atoms)?;
    found(alloc, atoms, &clauses)
}

// A thousand atoms, each of which makes the one before it true, and the last one true.
fn chain(alloc: Global) -> Result<LitLists, AllocError>
    ensures { IfOk result (AreBelow 1000) }
{
    let mut clauses = LitLists::new(alloc);
    for atom in 1..1000i16 {
        let next = atom.wrapping_add(1);
        push_clause(alloc, &mut clauses, &[next.wrapping_neg(), atom], 1000)?;
    }
    push_clause(alloc, &mut clauses, &[1000], 1000)?;
    Ok(clauses)
}

#[test]
fn small_clauses_are_decided(rt: HostRuntime) -> Result<(), Fail> {
    let alloc = rt.alloc();
    let none: [&[i16]; 0] = [];
    let empty: [&[i16]; 1] = [&[]];
    let four: [&[i16]; 4] = [&[1, 2], &[1, -2], &[-1, 2], &[-1, -2]];
    let unit: [&[i16]; 2] = [&[1, 2], &[1]];
    assert_eq!(rt; found_of(alloc, 2, &none)?, Some(0), "no clause");
    assert_eq!(rt; found_of(alloc, 2, &empty)?, None, "an empty clause");
    assert_eq!(rt;
        found_of(alloc, 2, &four)?,
        None,
        "the four clauses of two atoms"
    );
    assert_eq!(rt; found_of(alloc, 2, &four[..3])?, Some(2), "three of them");
    assert_eq!(rt; found_of(alloc, 2, &unit)?, Some(2), "x or y, and x");
    Ok(())
}

#[test]
fn pigeons_want_holes(rt: HostRuntime) -> Result<(), Fail> {
    let alloc = rt.alloc();
    let three = found_of(alloc, 12, &PIGEONS[..12])?;
    assert_eq!(rt; three, Some(9), "three in three holes");
    let four = found_of(alloc, 12, &PIGEONS)?;
    assert_eq!(rt; four, None, "four in three holes");
    Ok(())
}

#[test]
fn a_chain_in_the_wrong_order(rt: HostRuntime) -> Result<(), Fail> {
    let alloc = rt.alloc();
    assert_eq!(rt; found(alloc, 1000, &chain(alloc)?)?, Some(1000));
    Ok(())
}

#[test]
fn one_atom_is_true_under_a_theory(rt: HostRuntime) -> Result<(), Fail> {
    let alloc = rt.alloc();
    let two: [&[i16]; 1] = [&[1, 2]];
    let clauses = clauses_of(alloc, &two, 2)?;
    let mut theory = AtMostOne::new(alloc, 2);
    let searched = search(alloc, &clauses, &mut theory)?;
    assert!(rt; matches!(searched, Searched::Found(_)), "a or b");
    let trues = theory.content().iter().filter(|lit| lit.yes).count();
    assert_eq!(rt; trues, 1);
    assert_eq!(rt; theory.content().len(), 2);
    Ok(())
}

#[test]
fn two_atoms_are_not(rt: HostRuntime) -> Result<(), Fail> {
    let alloc = rt.alloc();
    let apart: [&[i16]; 2] = [&[1, 2], &[3, 4]];
    let clauses = clauses_of(alloc, &apart, 4)?;
    let mut theory = AtMostOne::new(alloc, 4);
    let searched = search(alloc, &clauses, &mut theory)?;
    assert!(rt; matches!(searched, Searched::Closed), "a or b, c or d");
    assert!(rt; theory.content().is_empty());
    assert!(rt; theory.frames().is_empty());
    Ok(())
}
