use crate::{FunctionModel, Row, Table, TableName, Tables, projected, rising_rows};
use mbqi_values::{Sequence, Sizes, Value};
use std::alloc::{AllocError, Global};

fn values<const N: usize>(alloc: Global, all: [Value; N]) -> Result<Sequence<Value>, AllocError> {
    Ok(Sequence::from_slice(alloc, all.as_slice())?)
}

/// A table of one argument with two rows.
fn two_rows(
    alloc: Global,
    knots: [Value; 2],
    rows: [Value; 2],
    default: Value,
) -> Result<Table, AllocError> {
    let mut all_knots = Sequence::new(alloc);
    all_knots.push(values(alloc, knots)?)?;
    let mut all_rows = Sequence::new(alloc);
    all_rows.push(Row {
        places: values(alloc, [knots[0]])?,
        value: rows[0],
    })?;
    all_rows.push(Row {
        places: values(alloc, [knots[1]])?,
        value: rows[1],
    })?;
    Ok(Table {
        name: TableName::Declared(0),
        knots: all_knots,
        rows: all_rows,
        default,
    })
}

#[test]
fn step_function_goes_on_below_its_least_knot(rt: HostRuntime) -> Result<(), AllocError> {
    let knots = [Value::Num(-1), Value::Num(0)];
    let rows = [Value::Num(0), Value::Num(1)];
    let table = two_rows(rt.alloc(), knots, rows, Value::Num(7))?;
    for (at, value) in [(-5, 0), (-1, 0), (0, 1), (9, 1)] {
        assert!(rt;
            table.look_up(&[Value::Num(at)]) == Value::Num(value),
            "at {at}"
        );
    }
    Ok(())
}

#[test]
fn element_that_is_no_knot_goes_to_the_first(rt: HostRuntime) -> Result<(), AllocError> {
    let knots = [Value::Elem(1), Value::Elem(3)];
    let rows = [Value::Truth(true), Value::Truth(false)];
    let table = two_rows(rt.alloc(), knots, rows, Value::Truth(false))?;
    for (element, truth) in [(0, true), (1, true), (2, true), (3, false), (9, true)] {
        let value = table.look_up(&[Value::Elem(element)]);
        assert!(rt; value == Value::Truth(truth), "at {element}");
    }
    Ok(())
}

/// A table without arguments.
fn constant(alloc: Global, name: TableName, value: Value) -> Table {
    Table {
        name,
        knots: Sequence::new(alloc),
        rows: Sequence::new(alloc),
        default: value,
    }
}

#[test]
fn default_where_no_row_is(rt: HostRuntime) -> Result<(), AllocError> {
    let table = constant(rt.alloc(), TableName::Declared(0), Value::Elem(2));
    assert!(rt; table.look_up(&[]) == Value::Elem(2));
    assert!(rt; projected(&[], Value::Num(4)) == Value::Num(4));
    Ok(())
}

#[test]
fn hidden_tables_are_not_shown(rt: HostRuntime) -> Result<(), AllocError> {
    let alloc = rt.alloc();
    let mut tables = Tables::new(alloc);
    tables.push(constant(alloc, TableName::Seed(0), Value::Elem(2)))?;
    tables.push(constant(alloc, TableName::Declared(0), Value::Elem(1)))?;
    tables.push(constant(alloc, TableName::Far, Value::Num(0)))?;
    tables.push(constant(alloc, TableName::Skolem(1, 0), Value::Elem(0)))?;
    let sizes = Sizes::from_slice(alloc, &[3])?;
    let shown = FunctionModel { sizes, tables }.shown(alloc)?;
    assert!(rt; shown.tables.len() == 2);
    assert!(rt;
        shown.tables.as_slice()[0].look_up(&[]) == Value::Elem(1),
        "the function"
    );
    assert!(rt;
        shown.tables.as_slice()[1].look_up(&[]) == Value::Elem(0),
        "the Skolem symbol"
    );
    Ok(())
}

#[test]
fn rows_rise_and_the_repeated_one_goes(rt: HostRuntime) -> Result<(), AllocError> {
    let mut rows = Vec::new(rt.alloc());
    for place in [5, -2, 5] {
        rows.push(Row {
            places: values(rt.alloc(), [Value::Num(1), Value::Num(place)])?,
            value: Value::Truth(true),
        })?;
    }
    let mut places = Vec::new(rt.alloc());
    for row in rising_rows(rows).as_slice() {
        places.extend_from_slice(row.places.as_slice())?;
    }
    let expected = [Value::Num(1), Value::Num(-2), Value::Num(1), Value::Num(5)];
    assert!(rt; places.as_slice() == expected.as_slice());
    Ok(())
}
