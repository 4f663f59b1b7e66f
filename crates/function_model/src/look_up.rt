//! Looking a value up in a table.

ghost use Rattle.std.specs.Prelude.{◌≡◌};
ghost use Rattle.std.specs.List.{list_any};
ghost use Rattle.function_model.specs.Lookup.{greatest_up_to, projected, is_at, value_at, looked_up_in};
ghost use Rattle.mbqi_values.specs.Value.{is_same};

use crate::model::{Row, Table};
use mbqi_values::{Value, Values};
use std::cmp::Ordering;

impl Table {
    /// The value for these arguments, each at its knot: that of the row at these knots, or the default where there is
    /// none. It takes no memory, and time in proportion to the rows and the arguments' knots.
    pub fn look_up(&self, args: &[Value]) -> Value
        ensures { result ≡ looked_up_in self.now args.now }
    {
        value_at(
            self.rows.as_slice(),
            self.knots.as_slice(),
            args,
            self.default,
        )
    }
}

/// The value of the first row at the arguments' knots, or the default.
fn value_at(rows: &[Row], knots: &[Values], args: &[Value], default: Value) -> Value
    ensures { result ≡ value_at rows.now knots.now args.now default }
{
    for row in rows {
        if is_at(row.places.as_slice(), knots, args) {
            return row.value;
        }
    }
    default
}

/// Whether the places are the arguments' knots.
#[tactic(auto, using(crate::proofs::Lengths::other_knots, crate::proofs::Lengths::other_args))]
fn is_at(places: &[Value], knots: &[Values], args: &[Value]) -> bool
    ensures { result ≡ is_at places.now knots.now args.now }
{
    if places.len() != knots.len() {
        return false;
    }
    if places.len() != args.len() {
        return false;
    }
    for at in 0..places.len() {
        if !is_same(places[at], projected(knots[at].as_slice(), args[at])) {
            return false;
        }
    }
    true
}

fn is_same(left: Value, right: Value) -> bool
    ensures { result ≡ is_same left right }
{
    left.rank(&right) == Ordering::Equal
}

/// Where an argument goes among its knots: a number to the greatest knot not above it, or to the least where there
/// is none; an element to itself where it is a knot, else to the first.
pub fn projected(knots: &[Value], value: Value) -> Value
    ensures { result ≡ projected knots.now value }
{
    match (knots, value) {
        ([least, others @ ..], Value::Num(_)) => greatest_up_to(*least, others, value),
        ([first, ..], Value::Elem(_)) if !contains(knots, value) => *first,
        _ => value,
    }
}

fn contains(knots: &[Value], value: Value) -> bool
    ensures { result ≡ list_any (is_same value) knots.now }
{
    knots.iter().any(|knot| is_same(value, *knot))
}

/// The last of rising knots that isn't above the value, or `least` where there is none.
fn greatest_up_to(least: Value, knots: &[Value], value: Value) -> Value
    ensures { result ≡ greatest_up_to least knots.now value }
{
    let mut best = least;
    for knot in knots {
        if knot.rank(&value) == Ordering::Greater {
            break;
        }
        best = *knot;
    }
    best
}
