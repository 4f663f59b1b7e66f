use crate::write_script;
use mbqi_terms::{
    ArrayTerm, Assertion, Binder, Formula, Function, Plain, Script, Sort, Sorts, Term,
};
use mbqi_values::{Sequence, Text};
use sqlite_items::Boxed;
use std::alloc::{AllocError, Global};
use std::process::Abort;

fn empty(alloc: Global, asks: bool) -> Script {
    Script {
        sorts: Sequence::new(alloc),
        functions: Sequence::new(alloc),
        assertions: Sequence::new(alloc),
        asks,
    }
}

fn assert_text<R: Abort>(
    rt: &R,
    alloc: Global,
    script: &Script,
    text: &[u8],
) -> Result<(), AllocError> {
    let mut into = Vec::new(alloc);
    write_script(script, &mut into)?;
    assert_eq!(rt; into.as_slice(), text);
    Ok(())
}

#[test]
fn question_alone_and_nothing(rt: HostRuntime) -> Result<(), AllocError> {
    let alloc = rt.alloc();
    assert_text(&rt, alloc, &empty(alloc, true), b"(check-sat)\n")?;
    assert_text(&rt, alloc, &empty(alloc, false), b"")
}

fn function(
    alloc: Global,
    name: &[u8],
    args: Sorts,
    result_sort: Sort,
) -> Result<Function, AllocError> {
    Ok(Function {
        name: Sequence::from_slice(alloc, name)?,
        args,
        result: result_sort,
    })
}

/// A script of two sorts, a predicate and an array, without assertions.
fn declared(alloc: Global) -> Result<Script, AllocError> {
    let mut script = empty(alloc, true);
    script.sorts.push(Sequence::from_slice(alloc, b"S")?)?;
    script.sorts.push(Sequence::from_slice(alloc, b"a b")?)?;
    let mut args = Sequence::new(alloc);
    args.push(Sort::Elem(1))?;
    args.push(Sort::Int)?;
    let predicate = function(alloc, b"two words", args, Sort::Truth)?;
    script.functions.push(predicate)?;
    let result_sort = Sort::Array(Plain::Elem(0), Plain::Truth);
    let array = function(alloc, b"?0", Sequence::new(alloc), result_sort)?;
    script.functions.push(array)?;
    Ok(script)
}

const DECLARATIONS: &[u8] =
    b"(declare-sort S 0)\n(declare-sort |a b| 0)\n(declare-fun |two words| (|a b| Int) Bool)\n(declare-fun ?0 () (Array S Bool))\n";

fn declared_text(alloc: Global, more: &[u8]) -> Result<Vec<u8>, AllocError> {
    let mut text = Vec::new(alloc);
    text.extend_from_slice(DECLARATIONS)?;
    text.extend_from_slice(more)?;
    Ok(text)
}

#[test]
fn declarations_in_order(rt: HostRuntime) -> Result<(), AllocError> {
    let alloc = rt.alloc();
    let text = declared_text(alloc, b"(check-sat)\n")?;
    assert_text(&rt, alloc, &declared(alloc)?, text.as_slice())
}

/// That the array is true at the value of the variable.
fn reads_true(alloc: Global, place: usize) -> Result<Formula, AllocError> {
    let array = Boxed::new(alloc, ArrayTerm::Name(1))?;
    let index = Boxed::new(alloc, Term::Var(place))?;
    let body = Boxed::new(alloc, Formula::Atom(Term::Read(array, index)))?;
    let mut binders = Sequence::new(alloc);
    binders.push(Binder {
        place,
        sort: Sort::Elem(0),
    })?;
    Ok(Formula::Forall(binders, body))
}

/// The declared script with one more assertion that the array is true everywhere.
fn asserted(alloc: Global, label: Option<Text>) -> Result<Script, AllocError> {
    let mut script = declared(alloc)?;
    let formula = reads_true(alloc, 0)?;
    script.assertions.push(Assertion { label, formula })?;
    Ok(script)
}

#[test]
fn assertion_with_a_variable_beside_a_name_with_a_question_mark(
    rt: HostRuntime,
) -> Result<(), AllocError> {
    let alloc = rt.alloc();
    let text = declared_text(
        alloc,
        b"(assert (forall ((??0 S)) (select ?0 ??0)))\n(check-sat)\n",
    )?;
    assert_text(&rt, alloc, &asserted(alloc, None)?, text.as_slice())
}

#[test]
fn label_that_is_a_reserved_word(rt: HostRuntime) -> Result<(), AllocError> {
    let alloc = rt.alloc();
    let label = Sequence::from_slice(alloc, b"let")?;
    let text = declared_text(
        alloc,
        b"(assert (! (forall ((??0 S)) (select ?0 ??0)) :named |let|))\n(check-sat)\n",
    )?;
    assert_text(&rt, alloc, &asserted(alloc, Some(label))?, text.as_slice())
}
