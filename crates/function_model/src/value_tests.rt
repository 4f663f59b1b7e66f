//! Values in tables, by hand, in both look-ups and in terms.

use crate::{Row, Rows, Table, TableName, ValueLists};
use mbqi_values::{Value, Values};
use std::alloc::{AllocError, Global};

/// A table of one argument, with a row for each of some places.
pub(crate) fn unary(
    alloc: Global,
    function: usize,
    knots: &[Value],
    rows: &[(Value, Value)],
    default: Value,
) -> Result<Table, AllocError> {
    let mut knot_lists = ValueLists::new(alloc);
    knot_lists.push(Values::from_slice(alloc, knots)?)?;
    let mut all_rows = Rows::new(alloc);
    for (place, value) in rows {
        all_rows.push(Row {
            places: Values::from_slice(alloc, &[*place])?,
            value: *value,
        })?;
    }
    Ok(Table {
        name: TableName::Declared(function),
        knots: knot_lists,
        rows: all_rows,
        default,
    })
}

#[test]
fn both_look_ups_of_a_step_function(rt: HostRuntime) -> Result<(), AllocError> {
    let knots = [Value::Num(-1), Value::Num(0)];
    let rows = [
        (Value::Num(-1), Value::Num(0)),
        (Value::Num(0), Value::Num(1)),
    ];
    let table = unary(rt.alloc(), 0, &knots, &rows, Value::Num(7))?;
    assert!(rt; table.is_sound());
    for (at, value) in [(-5, 0), (-1, 0), (0, 1), (9, 1)] {
        assert!(rt;
            table.look_up(&[Value::Num(at)]) == Value::Num(value),
            "at {at}"
        );
        assert!(rt;
            table.look_up_by_halves(&[Value::Num(at)]) == Value::Num(value),
            "by halves at {at}"
        );
    }
    let one_row = [(Value::Num(0), Value::Num(1))];
    let table = unary(rt.alloc(), 0, &knots, &one_row, Value::Num(7))?;
    assert!(rt; table.is_sound());
    for (at, value) in [(-5, 7), (9, 1)] {
        assert!(rt;
            table.look_up(&[Value::Num(at)]) == Value::Num(value),
            "at {at}"
        );
        assert!(rt;
            table.look_up_by_halves(&[Value::Num(at)]) == Value::Num(value),
            "by halves at {at}"
        );
    }
    Ok(())
}

#[test]
fn both_look_ups_round_one_row(rt: HostRuntime) -> Result<(), AllocError> {
    let knots = [Value::Num(0), Value::Num(4), Value::Num(5), Value::Num(6)];
    let rows = [(Value::Num(5), Value::Truth(false))];
    let table = unary(rt.alloc(), 0, &knots, &rows, Value::Truth(true))?;
    assert!(rt; table.is_sound());
    for (at, truth) in [(4, true), (5, false), (6, true), (100, true), (-3, true)] {
        assert!(rt;
            table.look_up(&[Value::Num(at)]) == Value::Truth(truth),
            "at {at}"
        );
        assert!(rt;
            table.look_up_by_halves(&[Value::Num(at)]) == Value::Truth(truth),
            "by halves at {at}"
        );
    }
    Ok(())
}

/// A row of two elements.
fn pair_row(alloc: Global, left: u64, right: u64, value: u64) -> Result<Row, AllocError> {
    Ok(Row {
        places: Values::from_slice(alloc, &[Value::Elem(left), Value::Elem(right)])?,
        value: Value::Elem(value),
    })
}

#[test]
fn both_look_ups_of_two_elements(rt: HostRuntime) -> Result<(), AllocError> {
    let alloc = rt.alloc();
    let mut knots = ValueLists::new(alloc);
    knots.push(Values::from_slice(alloc, &[Value::Elem(0), Value::Elem(2)])?)?;
    knots.push(Values::from_slice(alloc, &[Value::Elem(0), Value::Elem(1)])?)?;
    let mut rows = Rows::new(alloc);
    rows.push(pair_row(alloc, 0, 1, 0)?)?;
    rows.push(pair_row(alloc, 2, 0, 1)?)?;
    let table = Table {
        name: TableName::Declared(0),
        knots,
        rows,
        default: Value::Elem(2),
    };
    assert!(rt; table.is_sound());
    for (left, right, value) in [(1, 1, 0), (2, 0, 1), (2, 1, 2)] {
        let args = [Value::Elem(left), Value::Elem(right)];
        assert!(rt;
            table.look_up(&args) == Value::Elem(value),
            "at {left} {right}"
        );
        assert!(rt;
            table.look_up_by_halves(&args) == Value::Elem(value),
            "by halves at {left} {right}"
        );
    }
    Ok(())
}
