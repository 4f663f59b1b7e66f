//! Rows in the order in which a table has them.

ghost use Rattle.std.specs.Prelude.{◌≡◌, ◌↔◌, ℕ, List, Contains};
ghost use Rattle.std.specs.List.{AllByRecursion, dedup};
ghost use Rattle.std.specs.Ordering.{eq_by_cmp};
ghost use Rattle.mbqi_terms.specs.declared.sort.Sort.{Sort};
ghost use Rattle.function_model.specs.Fits.{rank_of_places, IsRow, AreRows};
ghost use Rattle.function_model.specs.Lookup.{value_at};
ghost use Rattle.function_model.specs.Rising.{AgreeAtSamePlaces, RowsRise, rank_of_rows};

use crate::model::{Row, Rows};
use mbqi_values::{Sequence, Value};
use std::cmp::Ordering;

/// The rows by rising places, each once, as a table has them. A look-up gives the same in both. It takes no memory,
/// and for n rows time in proportion to n log n comparisons of places.
pub fn rising_rows(rows: Vec<Row>) -> Rows
    requires { AgreeAtSamePlaces rows.items }
    ensures rising { RowsRise result }
    ensures given { (row : Row) → Contains result row ↔ Contains rows.items row }
    ensures same { (knots : List (List Value)) (args : List Value) (default : Value)
        → value_at result knots args default ≡ value_at rows.items knots args default }
{
    let mut rising = rows;
    // Rows that tie are the same row, so that a sort that may exchange them does.
    rising.sort_unstable_by(|left, right| rank_rows(left, right));
    keep_each_once(&mut rising);
    Sequence::from_vec(rising)
}

/// Of neighbours at the same places only the first stays.
fn keep_each_once(rows: &mut Vec<Row>)
    ensures { rows.new.items ≡ dedup (eq_by_cmp rank_of_rows) rows.old.items }
{
    rows.dedup_by(|later, kept| rank_rows(later, kept) == Ordering::Equal);
}

/// Rows compared by their places.
pub(crate) fn rank_rows(left: &Row, right: &Row) -> Ordering
    ensures { result ≡ rank_of_rows left.now right.now }
{
    rank_places(left.places.as_slice(), right.places.as_slice())
}

/// Places compared from the first on; where all that both have are the same, the fewer come first.
fn rank_places(left: &[Value], right: &[Value]) -> Ordering
    ensures { result ≡ rank_of_places left.now right.now }
{
    let both = left.len().min(right.len());
    for at in 0..both {
        let order = left[at].rank(&right[at]);
        if order != Ordering::Equal {
            return order;
        }
    }
    left.len().cmp(&right.len())
}

/// Rising rows, each of which is a row of a table, may be all its rows.
pub fn rows_fit()
    ensures { (sizes : List ℕ) (knots : List (List Value)) (s : Sort) (rows : List Row)
        → RowsRise rows → AllByRecursion (IsRow sizes knots s) rows → AreRows sizes knots s rows }
{}
