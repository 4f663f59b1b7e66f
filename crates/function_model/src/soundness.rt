//! Whether tables and models are sound.

ghost use Rattle.std.specs.Prelude.{◌≡◌, IsTrue};
ghost use Rattle.std.specs.List.{list_all, list_any};
ghost use Rattle.mbqi_values.specs.Value.{is_same};
ghost use Rattle.function_model.specs.Sound.{IsSound, IsSoundTable};
ghost use Rattle.function_model.specs.Soundness.{are_sound_knots, has_number, is_small, is_sound, is_sound_row, is_sound_table, knots_rise, rows_rise, stands_on};

use crate::model::{FunctionModel, Row, Table, TableName};
use crate::rising::rank_rows;
use mbqi_values::{Value, Values};

/// One more than the absolute greatest number that a table may have.
const LIMIT: i128 = 1 << 124;

impl Table {
    /// Whether the table is sound: its knots and rows rise, each row stands on knots, and its numbers are absolutely below
    /// 2^124. It takes no memory.
    pub fn is_sound(&self) -> bool
        ensures test { result ≡ is_sound_table self.now }
        ensures sound { IsTrue result → IsSoundTable self.now }
    {
        self.passes()
    }

    fn passes(&self) -> bool
        ensures { result ≡ is_sound_table self.now }
    {
        if !all_knots_sound(self.knots.as_slice()) {
            return false;
        }
        if !all_rows_sound(self.knots.as_slice(), self.rows.as_slice()) {
            return false;
        }
        rows_rise(self.rows.as_slice()) && is_small(self.default)
    }
}

impl FunctionModel {
    /// Whether the model is sound: each of its tables is, and that of a declared function stands at the function's number.
    /// It takes no memory.
    pub fn is_sound(&self) -> bool
        ensures test { result ≡ is_sound self.now }
        ensures sound { IsTrue result → IsSound self.now }
    {
        self.passes()
    }

    fn passes(&self) -> bool
        ensures { result ≡ is_sound self.now }
    {
        for at in 0..self.tables.len() {
            let table = &self.tables.as_slice()[at];
            if !has_number(&table.name, at) || !table.passes() {
                return false;
            }
        }
        true
    }
}

fn has_number(name: &TableName, number: usize) -> bool
    ensures { result ≡ has_number number name.now }
{
    match name {
        TableName::Declared(function) => number == *function,
        _ => true,
    }
}

fn all_knots_sound(knots: &[Values]) -> bool
    ensures { result ≡ list_all are_sound_knots knots.now }
{
    knots
        .iter()
        .all(|values| are_sound_knots(values.as_slice()))
}

fn are_sound_knots(values: &[Value]) -> bool
    ensures { result ≡ are_sound_knots values.now }
{
    knots_rise(values) && are_small(values)
}

/// Whether all numbers among the values are absolutely below 2^124.
pub(crate) fn are_small(values: &[Value]) -> bool
    ensures { result ≡ list_all is_small values.now }
{
    values.iter().all(|value| is_small(*value))
}

fn is_small(value: Value) -> bool
    ensures { result ≡ is_small value }
{
    match value {
        Value::Num(number) => -LIMIT < number && number < LIMIT,
        _ => true,
    }
}

/// Whether there are knots, and each is below the next.
fn knots_rise(knots: &[Value]) -> bool
    ensures { result ≡ knots_rise knots.now }
{
    let [first, others @ ..] = knots else {
        return false;
    };
    let mut last = *first;
    for knot in others {
        if !last.rank(knot).is_lt() {
            return false;
        }
        last = *knot;
    }
    true
}

fn all_rows_sound(knots: &[Values], rows: &[Row]) -> bool
    ensures { result ≡ list_all (is_sound_row knots.now) rows.now }
{
    rows.iter().all(|row| is_sound_row(knots, row))
}

fn is_sound_row(knots: &[Values], row: &Row) -> bool
    ensures { result ≡ is_sound_row knots.now row.now }
{
    stands_on(knots, row.places.as_slice()) && is_small(row.value)
}

/// Whether each place is a knot of its argument.
fn stands_on(knots: &[Values], places: &[Value]) -> bool
    ensures { result ≡ stands_on knots.now places.now }
{
    if knots.len() != places.len() {
        return false;
    }
    for at in 0..knots.len() {
        if !contains(knots[at].as_slice(), places[at]) {
            return false;
        }
    }
    true
}

fn contains(knots: &[Value], value: Value) -> bool
    ensures { result ≡ list_any (is_same value) knots.now }
{
    knots.iter().any(|knot| value.rank(knot).is_eq())
}

/// Whether each row's places are below those of the next.
fn rows_rise(rows: &[Row]) -> bool
    ensures { result ≡ rows_rise rows.now }
{
    let [first, others @ ..] = rows else {
        return true;
    };
    let mut last = first;
    for row in others {
        if !rank_rows(last, row).is_lt() {
            return false;
        }
        last = row;
    }
    true
}
