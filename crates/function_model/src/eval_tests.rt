//! Values of terms and truths of formulas, by hand.

ghost use Rattle.std.specs.Prelude.{All, IfOk, IsTrue};
ghost use Rattle.mbqi_values.specs.Sum.{IsBelow};
ghost use Rattle.mbqi_terms.specs.declared.term.Term.{out-Term};
ghost use Rattle.mbqi_terms.specs.Tree.{IsBase};
ghost use Rattle.function_model.specs.Evaluable.{IsEvaluable, IsEvaluableFormula};
ghost use Rattle.function_model.specs.Fits.{IsSmall};

use crate::soundness::are_small;
use crate::value_tests::unary;
use crate::{FunctionModel, Tables};
use mbqi_terms::{ArrayTerm, Binder, Binders, Formula, Sort, Symbol, Term, Terms};
use mbqi_values::{Sizes, Value, Values};
use sqlite_items::Boxed;
use std::alloc::{AllocError, Global};

fn variable(place: usize) -> Term
    ensures { IsEvaluable result }
{
    Term::Var(place)
}

fn call(alloc: Global, function: usize, arg: Term) -> Result<Term, AllocError>
    requires { IsEvaluable arg }
    ensures base { IfOk result (λ t. IsBase (out-Term t)) }
    ensures term { IfOk result IsEvaluable }
{
    let mut args = Terms::new(alloc);
    args.push(arg)?;
    Ok(Term::Apply(Symbol::Declared(function), args))
}

fn sum(alloc: Global, base: Term, number: i128) -> Result<Term, AllocError>
    requires base { IsBase (out-Term base) }
    requires term { IsEvaluable base }
    requires number { IsBelow number 124 }
    ensures { IfOk result IsEvaluable }
{
    Ok(Term::Plus(Boxed::new(alloc, base)?, number))
}

fn read(alloc: Global, array: usize, index: Term) -> Result<Term, AllocError>
    requires { IsEvaluable index }
    ensures { IfOk result IsEvaluable }
{
    let array = Boxed::new(alloc, ArrayTerm::Name(array))?;
    Ok(Term::Read(array, Boxed::new(alloc, index)?))
}

/// Whether all numbers are small, as those of a point have to be.
fn make_point(values: &[Value]) -> bool
    ensures { IsTrue result → All IsSmall values.now }
{
    are_small(values)
}

fn binder(place: usize) -> Binder {
    Binder {
        place,
        sort: Sort::Int,
    }
}

/// Whether the term has the value where the variable of place 0 has the other one.
fn is_worth(
    alloc: Global,
    model: &FunctionModel,
    t: &Term,
    x: i128,
    value: i128,
) -> Result<bool, AllocError>
    requires { IsEvaluable t.now }
{
    let binders = Binders::from_slice(alloc, &[binder(0)])?;
    let point = Values::from_slice(alloc, &[Value::Num(x)])?;
    if !model.is_sound() || !make_point(point.as_slice()) {
        return Ok(false);
    }
    Ok(model.eval_term(t, &binders, &point) == Value::Num(value))
}

/// The function, or the array, that has 1, 2, 0 at 0, 1, 2.
fn next_of_three(alloc: Global) -> Result<FunctionModel, AllocError> {
    let knots = [Value::Num(0), Value::Num(1), Value::Num(2)];
    let rows = [
        (Value::Num(0), Value::Num(1)),
        (Value::Num(1), Value::Num(2)),
        (Value::Num(2), Value::Num(0)),
    ];
    model_of(alloc, &knots, &rows, Value::Num(0))
}

/// A model of one table.
fn model_of(
    alloc: Global,
    knots: &[Value],
    rows: &[(Value, Value)],
    default: Value,
) -> Result<FunctionModel, AllocError> {
    let mut tables = Tables::new(alloc);
    tables.push(unary(alloc, 0, knots, rows, default)?)?;
    Ok(FunctionModel {
        sizes: Sizes::new(alloc),
        tables,
    })
}

/// `f(f(x) + 1)`
fn sum_in_a_call(alloc: Global) -> Result<Term, AllocError>
    ensures { IfOk result IsEvaluable }
{
    let inner = call(alloc, 0, variable(0))?;
    let more = sum(alloc, inner, 1)?;
    call(alloc, 0, more)
}

/// `f(f(x) + 1)`, and the read of the array at `x`.
fn term(alloc: Global, number: usize) -> Result<Term, AllocError>
    ensures { IfOk result IsEvaluable }
{
    match number {
        0 => sum_in_a_call(alloc),
        _ => read(alloc, 0, variable(0)),
    }
}

fn gives(
    alloc: Global,
    model: &FunctionModel,
    number: usize,
    x: i128,
    value: i128,
) -> Result<bool, AllocError> {
    let t = term(alloc, number)?;
    is_worth(alloc, model, &t, x, value)
}

#[test]
fn sum_inside_an_application_and_read_of_an_array(rt: HostRuntime) -> Result<(), AllocError> {
    let model = next_of_three(rt.alloc())?;
    for (number, x, value) in [
        (0, 0, 0),
        (0, 1, 0),
        (0, 2, 2),
        (1, -7, 1),
        (1, 0, 1),
        (1, 1, 2),
        (1, 2, 0),
        (1, 9, 0),
    ] {
        assert!(rt;
            gives(rt.alloc(), &model, number, x, value)?,
            "term {number} at {x}"
        );
    }
    Ok(())
}

/// Whether the formula is true where the variables of the places 3 and 1 have these values, in this order.
fn is_true(
    alloc: Global,
    model: &FunctionModel,
    f: &Formula,
    x: i128,
    y: i128,
) -> Result<bool, AllocError>
    requires { IsEvaluableFormula f.now }
{
    let binders = Binders::from_slice(alloc, &[binder(3), binder(1)])?;
    let point = Values::from_slice(alloc, &[Value::Num(x), Value::Num(y)])?;
    if !model.is_sound() || !make_point(point.as_slice()) {
        return Ok(false);
    }
    Ok(model.eval_ground(f, &binders, &point))
}

/// The variables are the same.
fn equal_variables() -> Formula
    ensures { IsEvaluableFormula result }
{
    Formula::Equal(variable(3), variable(1))
}

/// The first variable is at most 3.
fn at_most_three() -> Formula
    ensures { IsEvaluableFormula result }
{
    Formula::AtMost(variable(3), Term::Num(3))
}

/// Whether the truth is that of the formula of a number, where the variables have these values.
fn decides(
    alloc: Global,
    model: &FunctionModel,
    number: usize,
    values: (i128, i128),
    truth: bool,
) -> Result<bool, AllocError> {
    let f = match number {
        0 => equal_variables(),
        _ => at_most_three(),
    };
    Ok(is_true(alloc, model, &f, values.0, values.1)? == truth)
}

#[test]
fn variables_have_the_values_of_their_places(rt: HostRuntime) -> Result<(), AllocError> {
    let model = next_of_three(rt.alloc())?;
    for (number, x, y, truth) in [
        (0, 5, 5, true),
        (0, 4, 1, false),
        (0, 3, 1, false),
        (1, 2, 7, true),
        (1, 3, 0, true),
        (1, 4, 1, false),
    ] {
        assert!(rt;
            decides(rt.alloc(), &model, number, (x, y), truth)?,
            "formula {number} at {x} {y}"
        );
    }
    Ok(())
}
