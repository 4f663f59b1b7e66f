//! Clauses of ground formulas.

ghost use Rattle.std.specs.Prelude.{◌≡◌, length, slice_get, Some, All, IfOk};
ghost use Rattle.std.specs.List.{AllZip, list_all};
ghost use Rattle.mbqi_values.specs.Clauses.{all_true, AreBelow};
ghost use Rattle.mbqi_terms.specs.Meanings.{Meanings, truth_of};
ghost use Rattle.mbqi_terms.specs.declared.term.Symbol.TheVariants as symbol;
ghost use Rattle.mbqi_terms.specs.declared.term.Term.TheVariants as term;
ghost use Rattle.element_atoms.specs.Atoms.{truths_by, formulas_in, IsOver, IsPool};
ghost use Rattle.element_atoms.specs.Numbering.{Extends, IsDeclared, IsNumbered, IsNumberOf, IsAtomOf, IsLitOf, IsClauseOf};
ghost use Rattle.element_atoms.specs.Profile.{IsClause, IsLiteral, IsAtom, IsGround};

use crate::atoms::{AtomTable, GroundAtom};
use crate::pool::Pool;
use mbqi_terms::{Formula, Function, InstanceLine, Symbol, Term, TermIds};
use mbqi_values::{Lit, LitLists, Lits};
use std::alloc::{AllocError, Global};

/// The clauses of the formulas of instances over the pool of the functions, one for each instance in order. Their atoms are numbered
/// by the table, which keeps those that it has and takes the new ones. The one error is want of memory, after which
/// the table may have new atoms.
pub fn clauses_of(
    alloc: Global,
    functions: &[Function],
    pool: &Pool,
    table: &mut AtomTable,
    lines: &[InstanceLine],
) -> Result<LitLists, AllocError>
    requires pool { IsPool functions.now pool.now }
    requires clauses { All (IsClause functions.now (IsGround functions.now)) (formulas_in lines.now) }
    requires over { All (IsOver functions.now pool.now.terms) table.old }
    ensures below { IfOk result (AreBelow (length table.new)) }
    ensures truth { IfOk result (λ clauses. (m : Meanings) →
        all_true (truths_by m pool.now.terms table.new) clauses ≡ list_all (truth_of m) (formulas_in lines.now)) }
    ensures over { All (IsOver functions.now pool.now.terms) table.new }
    ensures kept { Extends table.old table.new }
{
    let mut clauses = LitLists::new(alloc);
    for line in lines {
        let clause = clause_of(alloc, functions, pool, table, &line.formula)?;
        clauses.push(clause)?;
    }
    Ok(clauses)
}

// The clause of a literal or of a disjunction of literals.
fn clause_of(
    alloc: Global,
    functions: &[Function],
    pool: &Pool,
    table: &mut AtomTable,
    formula: &Formula,
) -> Result<Lits, AllocError>
    requires pool { IsPool functions.now pool.now }
    requires clause { IsClause functions.now (IsGround functions.now) formula.now }
    requires over { All (IsOver functions.now pool.now.terms) table.old }
    ensures clause { IfOk result (λ lits. IsClauseOf pool.now.terms table.new lits formula.now) }
    ensures over { All (IsOver functions.now pool.now.terms) table.new }
    ensures kept { Extends table.old table.new }
{
    match formula {
        Formula::Any(literals) => { lits_of(alloc, functions, pool, table, literals.as_slice()) }
        _ => {
            let lit = literal_of(alloc, functions, pool, table, formula)?;
            Lits::from_slice(alloc, &[lit])
        }
    }
}

// The literals of a list.
fn lits_of(
    alloc: Global,
    functions: &[Function],
    pool: &Pool,
    table: &mut AtomTable,
    literals: &[Formula],
) -> Result<Lits, AllocError>
    requires pool { IsPool functions.now pool.now }
    requires literals { All (IsLiteral functions.now (IsGround functions.now)) literals.now }
    requires over { All (IsOver functions.now pool.now.terms) table.old }
    ensures lits { IfOk result (λ lits. AllZip (IsLitOf pool.now.terms table.new) lits literals.now) }
    ensures over { All (IsOver functions.now pool.now.terms) table.new }
    ensures kept { Extends table.old table.new }
{
    let mut lits = Lits::new(alloc);
    for literal in literals {
        let lit = literal_of(alloc, functions, pool, table, literal)?;
        lits.push(lit)?;
    }
    Ok(lits)
}

// The literal of an atom or of its negation.
fn literal_of(
    alloc: Global,
    functions: &[Function],
    pool: &Pool,
    table: &mut AtomTable,
    literal: &Formula,
) -> Result<Lit, AllocError>
    requires pool { IsPool functions.now pool.now }
    requires literal { IsLiteral functions.now (IsGround functions.now) literal.now }
    requires over { All (IsOver functions.now pool.now.terms) table.old }
    ensures lit { IfOk result (λ lit. IsLitOf pool.now.terms table.new lit literal.now) }
    ensures over { All (IsOver functions.now pool.now.terms) table.new }
    ensures kept { Extends table.old table.new }
{
    match literal {
        Formula::Atom(t) => {
            let atom = atom_of(alloc, functions, pool, table, t)?;
            Ok(Lit { atom, yes: true })
        }
        Formula::Not(negated) => {
            let Formula::Atom(t) = negated.get() else {
                unreachable!()
            };
            let atom = atom_of(alloc, functions, pool, table, t)?;
            Ok(Lit { atom, yes: false })
        }
        _ => unreachable!(),
    }
}

// The number of an atom.
fn atom_of(
    alloc: Global,
    functions: &[Function],
    pool: &Pool,
    table: &mut AtomTable,
    t: &Term,
) -> Result<usize, AllocError>
    requires pool { IsPool functions.now pool.now }
    requires atom { IsAtom functions.now (IsGround functions.now) t.now }
    requires over { All (IsOver functions.now pool.now.terms) table.old }
    ensures atom { IfOk result (λ atom. IsAtomOf pool.now.terms table.new atom t.now) }
    ensures over { All (IsOver functions.now pool.now.terms) table.new }
    ensures kept { Extends table.old table.new }
{
    let (predicate, args) = declared(t);
    let args = numbers_of(alloc, pool, args)?;
    table.number(GroundAtom { predicate, args })
}

// The numbers of ground terms in the pool.
fn numbers_of(alloc: Global, pool: &Pool, terms: &[Term]) -> Result<TermIds, AllocError>
    requires { All (IsNumbered pool.now) terms.now }
    ensures { IfOk result (λ ids. AllZip (IsNumberOf pool.now.terms) ids terms.now) }
{
    let mut ids = TermIds::new(alloc);
    for term in terms {
        ids.push(pool.number_of(term))?;
    }
    Ok(ids)
}

/// The number of the declared function that a term applies, and its arguments.
pub fn declared(t: &Term) -> (usize, &[Term])
    requires { IsDeclared t.now }
    ensures { t.now ≡ term.Apply (symbol.Declared result.0) result.1.now }
{
    let Term::Apply(symbol, args) = t else {
        unreachable!()
    };
    let Symbol::Declared(number) = symbol else {
        unreachable!()
    };
    (*number, args.as_slice())
}
