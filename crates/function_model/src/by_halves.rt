//! Looking a value up in a table by binary search.

ghost use Rattle.std.specs.Prelude.{◌≡◌, ◌≤◌, ◌<◌, true, false, List, [], ◌∷◌, ◌++◌, length, filter, slice_get};
ghost use Rattle.std.specs.List.Sorted.{IsPartitionPoint};
ghost use Rattle.mbqi_values.specs.Value.{is_same};
ghost use Rattle.mbqi_values.specs.declared.value.Value.{Value as AnyValue};
ghost use Rattle.function_model.specs.Lookup.{looked_up_in, projected};
ghost use Rattle.function_model.specs.Narrowing.{NeverFallAt, first_value, greatest_in, is_below, is_up_to, itself_or_first, passes, passes_at, rows_for};
ghost use Rattle.function_model.specs.Sound.{IsSoundTable, KnotsRise};

use crate::model::{Row, Table};
use mbqi_values::Value;

impl Table {
    /// The value for these arguments, as [`Table::look_up`] gives it, of a sound table. Rows rise by their places, so those
    /// that agree with the arguments so far lie together, and each argument narrows them by two binary searches. It takes
    /// no memory, and for each argument time in proportion to the logarithms of its knots and of the rows.
    pub fn look_up_by_halves(&self, args: &[Value]) -> Value
        requires { IsSoundTable self.now }
        ensures { result ≡ looked_up_in self.now args.now }
    {
        if args.len() != self.knots.len() {
            return self.default;
        }
        let mut rows = self.rows.as_slice();
        for (place, arg) in args.iter().enumerate() {
            rows = self.narrowed(rows, place, *arg);
        }
        first_value(rows, self.default)
    }

    /// Of the rows that agree with the arguments before the place, those that agree with the argument there too.
    pub(crate) fn narrowed<'a>(&self, rows: &'a [Row], place: usize, arg: Value) -> &'a [Row]
        requires sound { IsSoundTable self.now }
        requires place { place < length self.now.knots }
        ensures { (args : List AnyValue) → length args ≡ place → rows.now ≡ rows_for self.now args
            → result.now ≡ rows_for self.now (args ++ arg ∷ []) }
    {
        let knots = &self.knots.as_slice()[place];
        rows_with(rows, place, projected_by_halves(knots.as_slice(), arg))
    }
}

/// The value of the first row, or the default where there is none.
pub(crate) fn first_value(rows: &[Row], default: Value) -> Value
    ensures { result ≡ first_value rows.now default }
{
    match rows {
        [first, ..] => first.value,
        [] => default,
    }
}

/// The rows with the value at the place.
fn rows_with(rows: &[Row], place: usize, value: Value) -> &[Row]
    ensures { NeverFallAt place rows.now → result.now ≡ filter (passes_at place (λ own. is_same own value)) rows.now }
{
    let rows = &rows[count_below(rows, place, value)..];
    &rows[..count_up_to(rows, place, value)]
}

/// How many rows have a lesser value at the place.
fn count_below(rows: &[Row], place: usize, bound: Value) -> usize
    ensures within { result ≤ length rows.now }
    ensures split { NeverFallAt place rows.now → IsPartitionPoint
        (λ row. passes_at place (is_below bound) row ≡ true) (λ row. passes_at place (is_below bound) row ≡ false) rows.now result }
{
    rows.partition_point(|row| is_below_at(row, place, bound))
}

fn is_below_at(row: &Row, place: usize, bound: Value) -> bool
    ensures { result ≡ passes_at place (is_below bound) row.now }
{
    match row.places.get(place) {
        Some(value) => value.rank(&bound).is_lt(),
        None => false,
    }
}

/// How many rows have no greater value at the place.
fn count_up_to(rows: &[Row], place: usize, bound: Value) -> usize
    ensures within { result ≤ length rows.now }
    ensures split { NeverFallAt place rows.now → IsPartitionPoint
        (λ row. passes_at place (is_up_to bound) row ≡ true) (λ row. passes_at place (is_up_to bound) row ≡ false) rows.now result }
{
    rows.partition_point(|row| is_up_to_at(row, place, bound))
}

fn is_up_to_at(row: &Row, place: usize, bound: Value) -> bool
    ensures { result ≡ passes_at place (is_up_to bound) row.now }
{
    match row.places.get(place) {
        Some(value) => value.rank(&bound).is_le(),
        None => false,
    }
}

/// Where an argument goes among its rising knots, as [`crate::projected`] says, by binary search.
fn projected_by_halves(knots: &[Value], value: Value) -> Value
    requires { KnotsRise knots.now }
    ensures { result ≡ projected knots.now value }
{
    match value {
        Value::Num(_) => greatest_up_to(knots, value),
        Value::Elem(_) => itself_or_first(knots, value),
        Value::Truth(_) => value,
    }
}

/// The greatest knot that isn't above the value, or the least.
fn greatest_up_to(knots: &[Value], value: Value) -> Value
    requires { KnotsRise knots.now }
    ensures { result ≡ greatest_in knots.now value }
{
    let many = knots.partition_point(|knot| knot.rank(&value).is_le());
    knots[many.saturating_sub(1)]
}

/// The value where it is a knot, else the first knot.
fn itself_or_first(knots: &[Value], value: Value) -> Value
    requires { KnotsRise knots.now }
    ensures { result ≡ itself_or_first knots.now value }
{
    let at = knots.partition_point(|knot| knot.rank(&value).is_lt());
    if is_there(knots, at, value) {
        value
    } else {
        knots[0]
    }
}

fn is_there(knots: &[Value], at: usize, value: Value) -> bool
    ensures { result ≡ passes (is_same value) (slice_get knots.now at) }
{
    match knots.get(at) {
        Some(knot) => value.rank(knot).is_eq(),
        None => false,
    }
}
