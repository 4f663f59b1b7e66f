//! What no clause says: that the calls succeed where memory is ample, and that atoms are numbered in the order in which
//! they come.
ghost use Rattle.std.specs.Prelude.{◌≡◌, length, map, slice_get, Some, All, IfOk};
ghost use Rattle.std.specs.List.{AllByRecursion};
ghost use Rattle.mbqi_terms.specs.declared.script.Function.{Function};
ghost use Rattle.element_atoms.specs.Atoms.{formulas_in};
ghost use Rattle.element_atoms.specs.Profile.{IsClause, IsConstant, IsGround, IsLiteral, IsPredicate, NamesConstant, constant, the_sort};

use super::*;
use mbqi_terms::{
    Formula, Formulas, Function, Functions, InstanceLine, InstanceLines, Sort, Sorts, Symbol, Term,
    TermId, Terms,
};
use mbqi_values::{Lit, Text};
use sqlite_items::Boxed;
use std::alloc::{AllocError, Global};
use std::test::Fail;

fn constant(alloc: Global) -> Function
    ensures { IsConstant result }
{
    Function {
        name: Text::new(alloc),
        args: Sorts::new(alloc),
        result: Sort::Elem(0),
    }
}

fn predicate(alloc: Global, args: &[Sort]) -> Result<Function, AllocError>
    requires { AllByRecursion (λ arg. arg ≡ the_sort) args.now }
    ensures sorts { IfOk result IsPredicate }
    ensures arity { IfOk result (λ function. length function.args ≡ length args.now) }
{
    Ok(Function {
        name: Text::new(alloc),
        args: Sorts::from_slice(alloc, args)?,
        result: Sort::Truth,
    })
}

// Constants 0 and 1, and predicates 2 and 3 of one and two arguments.
fn signature(alloc: Global) -> Result<Functions, AllocError>
    ensures first { IfOk result (λ functions. NamesConstant functions 0) }
    ensures second { IfOk result (λ functions. NamesConstant functions 1) }
    ensures unary { IfOk result (λ functions. (function : Function) × (slice_get functions 2 ≡ Some function)
        × IsPredicate function × (length function.args ≡ 1)) }
    ensures binary { IfOk result (λ functions. (function : Function) × (slice_get functions 3 ≡ Some function)
        × IsPredicate function × (length function.args ≡ 2)) }
{
    let mut functions = Functions::new(alloc);
    functions.push(constant(alloc))?;
    functions.push(constant(alloc))?;
    functions.push(predicate(alloc, &[Sort::Elem(0)])?)?;
    functions.push(predicate(alloc, &[Sort::Elem(0), Sort::Elem(0)])?)?;
    Ok(functions)
}

fn terms(alloc: Global, constants: &[usize]) -> Result<Terms, AllocError>
    ensures { IfOk result (λ terms. terms ≡ map constant constants.now) }
{
    let mut terms = Terms::new(alloc);
    for number in constants {
        terms.push(Term::Apply(Symbol::Declared(*number), Terms::new(alloc)))?;
    }
    Ok(terms)
}

// A literal of a predicate of constants.
fn literal(
    alloc: Global,
    functions: &[Function],
    number: usize,
    constants: &[usize],
    yes: bool,
) -> Result<Formula, AllocError>
    requires predicate { (function : Function) × (slice_get functions.now number ≡ Some function)
        × IsPredicate function × (length constants.now ≡ length function.args) }
    requires constants { All (NamesConstant functions.now) constants.now }
    ensures { IfOk result (IsLiteral functions.now (IsGround functions.now)) }
{
    let atom = Formula::Atom(Term::Apply(Symbol::Declared(number), terms(alloc, constants)?));
    if yes {
        return Ok(atom);
    }
    Ok(Formula::Not(Boxed::new(alloc, atom)?))
}

// The second constant has p, or the first one doesn't.
fn disjunction(alloc: Global, functions: &[Function]) -> Result<Formula, AllocError>
    requires first { NamesConstant functions.now 0 }
    requires second { NamesConstant functions.now 1 }
    requires unary { (function : Function) × (slice_get functions.now 2 ≡ Some function)
        × IsPredicate function × (length function.args ≡ 1) }
    ensures { IfOk result (IsClause functions.now (IsGround functions.now)) }
{
    let mut literals = Formulas::new(alloc);
    literals.push(literal(alloc, functions, 2, &[1], true)?)?;
    literals.push(literal(alloc, functions, 2, &[0], false)?)?;
    Ok(Formula::Any(literals))
}

// An instance of an assertion without variables.
fn line(alloc: Global, formula: Formula) -> InstanceLine
    ensures { result.formula ≡ formula }
{
    InstanceLine {
        assertion: 0,
        terms: Terms::new(alloc),
        formula,
    }
}

fn lines(alloc: Global, functions: &[Function]) -> Result<InstanceLines, AllocError>
    requires first { NamesConstant functions.now 0 }
    requires second { NamesConstant functions.now 1 }
    requires unary { (function : Function) × (slice_get functions.now 2 ≡ Some function)
        × IsPredicate function × (length function.args ≡ 1) }
    requires binary { (function : Function) × (slice_get functions.now 3 ≡ Some function)
        × IsPredicate function × (length function.args ≡ 2) }
    ensures { IfOk result (λ lines. All (IsClause functions.now (IsGround functions.now)) (formulas_in lines)) }
{
    let mut lines = InstanceLines::new(alloc);
    lines.push(line(alloc, literal(alloc, functions, 2, &[0], true)?))?;
    lines.push(line(alloc, literal(alloc, functions, 3, &[0, 1], false)?))?;
    lines.push(line(alloc, disjunction(alloc, functions)?))?;
    Ok(lines)
}

#[test]
fn atoms_are_numbered_as_they_come(rt: HostRuntime) -> Result<(), Fail> {
    let alloc = rt.alloc();
    let functions = signature(alloc)?;
    let functions = functions.as_slice();
    let pool = pool_of(alloc, functions)?;
    let mut table = AtomTable::new(alloc);
    let lines = lines(alloc, functions)?;
    let clauses = clauses_of(alloc, functions, &pool, &mut table, lines.as_slice())?;
    let expected: [&[Lit]; 3] = [
        &[Lit { atom: 0, yes: true }],
        &[Lit {
            atom: 1,
            yes: false,
        }],
        &[
            Lit { atom: 2, yes: true },
            Lit {
                atom: 0,
                yes: false,
            },
        ],
    ];
    assert_eq!(rt; clauses.len(), 3);
    for (clause, lits) in clauses.as_slice().iter().zip(expected) {
        assert_eq!(rt; clause.as_slice(), lits);
    }
    let atoms: [(usize, &[TermId]); 3] = [
        (2, &[TermId(0)]),
        (3, &[TermId(0), TermId(1)]),
        (2, &[TermId(1)]),
    ];
    assert_eq!(rt; table.len(), 3);
    for (atom, (predicate, args)) in table.as_slice().iter().zip(atoms) {
        assert_eq!(rt; atom.predicate, predicate);
        assert_eq!(rt; atom.args.as_slice(), args);
    }
    Ok(())
}
