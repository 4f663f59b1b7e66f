use crate::{write_array, write_formula, write_name, write_term};
use mbqi_terms::{ArrayTerm, Binder, Formula, Function, Plain, Script, Sort, Symbol, Term};
use mbqi_values::Sequence;
use sqlite_items::{Boxed, Items};
use std::alloc::{AllocError, Global};
use std::process::Abort;

fn function(alloc: Global, name: &[u8]) -> Result<Function, AllocError> {
    Ok(Function {
        name: Sequence::from_slice(alloc, name)?,
        args: Sequence::new(alloc),
        result: Sort::Int,
    })
}

/// A script with two sorts, of which the second needs bars, and two functions.
fn script(alloc: Global, first: &[u8], second: &[u8]) -> Result<Script, AllocError> {
    let mut sorts = Sequence::new(alloc);
    sorts.push(Sequence::from_slice(alloc, b"S")?)?;
    sorts.push(Sequence::from_slice(alloc, b"Int")?)?;
    let mut functions = Sequence::new(alloc);
    functions.push(function(alloc, first)?)?;
    functions.push(function(alloc, second)?)?;
    Ok(Script {
        sorts,
        functions,
        assertions: Sequence::new(alloc),
        asks: false,
    })
}

/// Asserts the text of a formula of a script whose first function has that name.
fn assert_formula<R: Abort>(
    rt: &R,
    alloc: Global,
    name: &[u8],
    f: &Formula,
    text: &[u8],
) -> Result<(), AllocError> {
    let script = script(alloc, name, b"f")?;
    let mut into = Vec::new(alloc);
    write_formula(&script, f, &mut into)?;
    assert_eq!(rt; into.as_slice(), text);
    Ok(())
}

fn not_equal(alloc: Global, left: i128, right: i128) -> Result<Formula, AllocError> {
    let equal = Formula::Equal(Term::Num(left), Term::Num(right));
    Ok(Formula::Not(Boxed::new(alloc, equal)?))
}

/// The formula that a variable is at most 0, for all values of the variable.
fn all_at_most(alloc: Global, place: usize) -> Result<Formula, AllocError> {
    let mut binders = Sequence::new(alloc);
    binders.push(Binder {
        place,
        sort: Sort::Int,
    })?;
    let body = Formula::AtMost(Term::Var(place), Term::Num(0));
    Ok(Formula::Forall(binders, Boxed::new(alloc, body)?))
}

#[test]
fn names_have_bars_where_they_must(rt: HostRuntime) -> Result<(), AllocError> {
    for (name, text) in [
        (b"x!1".as_slice(), b"x!1".as_slice()),
        (b"two words", b"|two words|"),
        (b"1x", b"|1x|"),
        (b"and", b"|and|"),
        (b"check-sat", b"|check-sat|"),
        (b"", b"||"),
    ] {
        let mut into = Vec::new(rt.alloc());
        write_name(name, &mut into)?;
        assert_eq!(rt; into.as_slice(), text);
    }
    Ok(())
}

#[test]
fn three_distinct_numbers(rt: HostRuntime) -> Result<(), AllocError> {
    let alloc = rt.alloc();
    let mut parts = Items::new(alloc);
    parts.push(not_equal(alloc, 1, 2)?)?;
    parts.push(not_equal(alloc, 1, 3)?)?;
    parts.push(not_equal(alloc, 2, 3)?)?;
    assert_formula(
        &rt,
        alloc,
        b"x",
        &Formula::All(parts),
        b"(and (not (= 1 2)) (not (= 1 3)) (not (= 2 3)))",
    )
}

#[test]
fn variables_differ_from_declared_names(rt: HostRuntime) -> Result<(), AllocError> {
    let alloc = rt.alloc();
    for (name, text) in [
        (b"x".as_slice(), b"(forall ((?7 Int)) (<= ?7 0))".as_slice()),
        (b"?x", b"(forall ((?7 Int)) (<= ?7 0))"),
        (b"??1", b"(forall ((?7 Int)) (<= ?7 0))"),
        (b"?0", b"(forall ((??7 Int)) (<= ??7 0))"),
        (b"?12x", b"(forall ((??7 Int)) (<= ??7 0))"),
    ] {
        assert_formula(&rt, alloc, name, &all_at_most(alloc, 7)?, text)?;
    }
    Ok(())
}

/// The array in which the first function has 7 at 3.
fn stored(alloc: Global) -> Result<ArrayTerm, AllocError> {
    let name = Boxed::new(alloc, ArrayTerm::Name(0))?;
    let index = Boxed::new(alloc, Term::Num(3))?;
    Ok(ArrayTerm::Store(name, index, Boxed::new(alloc, Term::Num(-7))?))
}

#[test]
fn index_where_two_arrays_differ(rt: HostRuntime) -> Result<(), AllocError> {
    let alloc = rt.alloc();
    let left = Boxed::new(alloc, ArrayTerm::Name(1))?;
    let symbol = Symbol::Diff(left, Boxed::new(alloc, stored(alloc)?)?);
    let differ = Term::Apply(symbol, Items::new(alloc));
    let mut into = Vec::new(alloc);
    write_term(&script(alloc, b"x", b"two words")?, &differ, &mut into)?;
    assert_eq!(rt;
        into.as_slice(),
        b"(@diff |two words| (store x 3 (- 7)))".as_slice()
    );
    Ok(())
}

#[test]
fn array_of_one_value(rt: HostRuntime) -> Result<(), AllocError> {
    let alloc = rt.alloc();
    let sort = Sort::Array(Plain::Elem(0), Plain::Truth);
    let array = ArrayTerm::Const(sort, Boxed::new(alloc, Term::Truth(true))?);
    let mut into = Vec::new(alloc);
    write_array(&script(alloc, b"x", b"f")?, &array, &mut into)?;
    assert_eq!(rt;
        into.as_slice(),
        b"((as const (Array S Bool)) true)".as_slice()
    );
    Ok(())
}
