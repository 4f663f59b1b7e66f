//! The rows of ground atoms in the tables of their predicates.

ghost use Rattle.std.specs.Prelude.{◌≡◌, ◌<◌, length, map, All, IfOk, OnOk};
ghost use Rattle.std.specs.List.{AllZip};
ghost use Rattle.function_model.specs.Rising.{AgreeAtSamePlaces};
ghost use Rattle.element_models.specs.Filling.{IsRaised, put_in, with_row, with_rows};
ghost use Rattle.element_models.specs.Rows.{element_of, row_of};

use element_atoms::GroundAtom;
use function_model::{Row, Rows, Table, rising_rows};
use mbqi_terms::TermId;
use mbqi_values::{Sequence, Value};
use std::alloc::{AllocError, Global};
use std::mem;

/// The term of a number in the pool is the element of that number.
fn element_of(id: TermId) -> Value
    ensures { result ≡ element_of id }
{
    Value::Elem(id.0 as u64)
}

fn elements_of(alloc: Global, ids: &[TermId]) -> Result<Vec<Value>, AllocError>
    ensures { IfOk result (λ values. values.items ≡ map element_of ids.now) }
{
    ids.iter().map(|id| element_of(*id)).collect(alloc)
}

/// An atom's row: its arguments' elements, and its truth.
fn row_of(alloc: Global, atom: &GroundAtom, truth: bool) -> Result<Row, AllocError>
    ensures { IfOk result (λ row. row ≡ row_of atom.now truth) }
{
    Ok(Row {
        places: Sequence::from_vec(elements_of(alloc, atom.args.as_slice())?),
        value: Value::Truth(truth),
    })
}

/// Puts a row behind the others of a table. A table without arguments has none: the row's value is its default.
fn put_last(table: &mut Table, row: Row) -> Result<(), AllocError>
    ensures { OnOk result (table.new ≡ put_in table.old.knots table.old row) }
{
    if table.knots.is_empty() {
        table.default = row.value;
        return Ok(());
    }
    table.rows.push(row)
}

/// Puts a row into the table of a number.
fn put_row(tables: &mut Vec<Table>, at: usize, row: Row) -> Result<(), AllocError>
    requires { at < length tables.old.items }
    ensures { OnOk result (tables.new.items ≡ with_row tables.old.items at row) }
{
    put_last(&mut tables[at], row)
}

/// Puts a row for each atom, with its truth, into the table of its predicate.
#[tactic(auto, using(crate::proofs::Filling::length_with_row))]
pub fn put_rows(
    alloc: Global,
    tables: &mut Vec<Table>,
    atoms: &[GroundAtom],
    truths: &[bool],
) -> Result<(), AllocError>
    requires truths { length truths.now ≡ length atoms.now }
    requires predicates { All (λ atom. atom.predicate < length tables.old.items) atoms.now }
    ensures { OnOk result (tables.new.items ≡ with_rows tables.old.items atoms.now truths.now) }
{
    for (at, atom) in atoms.iter().enumerate() {
        let row = row_of(alloc, atom, truths[at])?;
        put_row(tables, atom.predicate, row)?;
    }
    Ok(())
}

/// Brings the rows of a table into order.
fn raise_rows(alloc: Global, table: &mut Table)
    requires { AgreeAtSamePlaces table.old.rows }
    ensures { IsRaised table.old table.new }
{
    let rows = mem::replace(&mut table.rows, Rows::new(alloc));
    table.rows = rising_rows(rows.into_vec());
}

/// Brings the rows of each table into order.
pub fn raise_tables(alloc: Global, tables: &mut Vec<Table>)
    requires { All (λ table. AgreeAtSamePlaces table.rows) tables.old.items }
    ensures { AllZip IsRaised tables.old.items tables.new.items }
{
    for table in tables.iter_mut() {
        raise_rows(alloc, table);
    }
}
