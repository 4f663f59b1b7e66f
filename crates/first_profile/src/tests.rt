//! What no clause says: that the definitions take the scripts that they are meant to take, and no others near them.

use crate::is_elementary;
use mbqi_terms::{
    Assertion, Assertions, Binder, Binders, Formula, Formulas, Function, Functions, Script, Sort,
    Sorts, Symbol, Term, Terms,
};
use mbqi_values::{Text, Texts};
use sqlite_items::Boxed;
use std::alloc::{AllocError, Global};
use std::test::Fail;

const S: Sort = Sort::Elem(0);

/// The numbers of the functions: a constant, and predicates of no argument and of one.
const C: usize = 0;

const P: usize = 1;

const Q: usize = 2;

fn function(alloc: Global, args: &[Sort], result_sort: Sort) -> Result<Function, AllocError> {
    let name = Text::from_slice(alloc, b"f")?;
    let args = Sorts::from_slice(alloc, args)?;
    Ok(Function {
        name,
        args,
        result: result_sort,
    })
}

fn functions(alloc: Global) -> Result<Functions, AllocError> {
    let mut functions = Functions::new(alloc);
    functions.push(function(alloc, &[], S)?)?;
    functions.push(function(alloc, &[], Sort::Truth)?)?;
    functions.push(function(alloc, &[S], Sort::Truth)?)?;
    Ok(functions)
}

fn sorts(alloc: Global, count: usize) -> Result<Texts, AllocError> {
    let mut sorts = Texts::new(alloc);
    for _ in 0..count {
        sorts.push(Text::from_slice(alloc, b"S")?)?;
    }
    Ok(sorts)
}

/// A script with so many sorts and one more function.
fn declaring(alloc: Global, count: usize, function: Function) -> Result<Script, AllocError> {
    let mut functions = functions(alloc)?;
    functions.push(function)?;
    Ok(Script {
        sorts: sorts(alloc, count)?,
        functions,
        assertions: Assertions::new(alloc),
        asks: true,
    })
}

/// A script with one assertion, which has a label.
fn asserting(alloc: Global, formula: Formula) -> Result<Script, AllocError> {
    let mut assertions = Assertions::new(alloc);
    assertions.push(Assertion {
        label: Some(Text::from_slice(alloc, b"a")?),
        formula,
    })?;
    Ok(Script {
        sorts: sorts(alloc, 1)?,
        functions: functions(alloc)?,
        assertions,
        asks: false,
    })
}

/// A function without arguments, and of one.
fn alone(alloc: Global, number: usize) -> Term {
    Term::Apply(Symbol::Declared(number), Terms::new(alloc))
}

fn applied(alloc: Global, number: usize, arg: Term) -> Result<Formula, AllocError> {
    let mut args = Terms::new(alloc);
    args.push(arg)?;
    Ok(Formula::Atom(Term::Apply(Symbol::Declared(number), args)))
}

fn negated(alloc: Global, formula: Formula) -> Result<Formula, AllocError> {
    Ok(Formula::Not(Boxed::new(alloc, formula)?))
}

fn either(alloc: Global, first: Formula, second: Formula) -> Result<Formula, AllocError> {
    let mut formulas = Formulas::new(alloc);
    formulas.push(first)?;
    formulas.push(second)?;
    Ok(Formula::Any(formulas))
}

/// The formula for all values of variables at these places.
fn for_all(alloc: Global, places: &[usize], formula: Formula) -> Result<Formula, AllocError> {
    let mut binders = Binders::new(alloc);
    for place in places {
        binders.push(Binder {
            place: *place,
            sort: S,
        })?;
    }
    Ok(Formula::Forall(binders, Boxed::new(alloc, formula)?))
}

/// The assertions of the profile, by number.
fn inside(alloc: Global, number: usize) -> Result<Formula, AllocError> {
    let one = applied(alloc, Q, Term::Var(1))?;
    let other = negated(alloc, applied(alloc, Q, alone(alloc, C))?)?;
    match number {
        0 => Ok(Formula::Atom(alone(alloc, P))),
        1 => Ok(other),
        2 => for_all(alloc, &[0, 1], one),
        _ => for_all(alloc, &[0, 1], either(alloc, one, other)?),
    }
}

#[test]
fn rules_are_taken(rt: HostRuntime) -> Result<(), Fail> {
    let alloc = rt.alloc();
    for number in 0..4 {
        let script = asserting(alloc, inside(alloc, number)?)?;
        assert!(rt; is_elementary(&script), "{number}");
    }
    Ok(())
}

/// Assertions outside the profile, by number: a variable without a quantifier, a place too far and places out of order, a quantifier without
/// variables and one below another, a negation of a negation, a predicate of too few arguments, a constant as a predicate, and a truth.
fn outside(alloc: Global, number: usize) -> Result<Formula, AllocError> {
    let atom = applied(alloc, Q, Term::Var(0))?;
    match number {
        0 => Ok(atom),
        1 => for_all(alloc, &[0], applied(alloc, Q, Term::Var(1))?),
        2 => for_all(alloc, &[1, 0], atom),
        3 => for_all(alloc, &[], Formula::Atom(alone(alloc, P))),
        4 => for_all(alloc, &[0], for_all(alloc, &[0], atom)?),
        5 => negated(alloc, negated(alloc, Formula::Atom(alone(alloc, P)))?),
        6 => Ok(Formula::Atom(alone(alloc, Q))),
        7 => Ok(Formula::Atom(alone(alloc, C))),
        _ => Ok(Formula::Truth(true)),
    }
}

#[test]
fn other_assertions_are_outside(rt: HostRuntime) -> Result<(), Fail> {
    let alloc = rt.alloc();
    for number in 0..9 {
        let script = asserting(alloc, outside(alloc, number)?)?;
        assert!(rt; !is_elementary(&script), "{number}");
    }
    Ok(())
}

// One sort and a predicate more; no sort; two of them; a function whose result is no truth; an argument of another sort.
#[test]
fn declarations_are_judged(rt: HostRuntime) -> Result<(), Fail> {
    let alloc = rt.alloc();
    let rows: [(usize, &[Sort], Sort, bool); 5] = [
        (1, &[S, S], Sort::Truth, true),
        (0, &[], S, false),
        (2, &[], S, false),
        (1, &[S], S, false),
        (1, &[Sort::Int], Sort::Truth, false),
    ];
    for (count, args, result_sort, is_inside) in rows {
        let script = declaring(alloc, count, function(alloc, args, result_sort)?)?;
        assert_eq!(rt; is_elementary(&script), is_inside);
    }
    Ok(())
}
