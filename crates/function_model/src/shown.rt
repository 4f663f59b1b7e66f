//! The part of a full model that is shown.

ghost use Rattle.std.specs.Prelude.{◌≡◌, ℕ, ◌++◌, [], ◌∷◌, if◌then◌else◌, filter, IfOk, OnOk};
ghost use Rattle.mbqi_terms.specs.declared.script.Script.{Script};
ghost use Rattle.function_model.specs.Fits.{Fits, FitsFull};
ghost use Rattle.function_model.specs.Lookup.{is_declared, is_skolem, table_where};
ghost use Rattle.function_model.specs.Shown.{is_shown, shown_of};

use crate::model::{FunctionModel, Row, Rows, Table, TableName, Tables, ValueLists};
use mbqi_values::{Sizes, Values};
use std::alloc::{AllocError, Global};

impl FunctionModel {
    /// A copy of the sizes and of the tables of shown names, in their order. The one error is want of memory.
    pub fn shown(&self, alloc: Global) -> Result<FunctionModel, AllocError>
        ensures { IfOk result (λ model. model ≡ shown_of self.now) }
    {
        Ok(FunctionModel {
            sizes: Sizes::from_slice(alloc, self.sizes.as_slice())?,
            tables: shown_tables(alloc, self.tables.as_slice())?,
        })
    }
}

fn shown_tables(alloc: Global, tables: &[Table]) -> Result<Tables, AllocError>
    ensures { IfOk result (λ copies. copies ≡ filter (λ table. is_shown table.name) tables.now) }
{
    let mut copies = Tables::new(alloc);
    for table in tables {
        push_shown(alloc, &mut copies, table)?;
    }
    Ok(copies)
}

/// Adds a copy of the table where its name is shown.
fn push_shown(alloc: Global, copies: &mut Tables, table: &Table) -> Result<(), AllocError>
    ensures { OnOk result (copies.new ≡ copies.old ++ filter (λ table. is_shown table.name) (table.now ∷ [])) }
{
    match shown_name(&table.name) {
        Some(name) => copies.push(copy_as(alloc, name, table)?),
        None => Ok(()),
    }
}

/// The name where it is shown.
fn shown_name(name: &TableName) -> Option<TableName>
    ensures { result ≡ (if is_shown name.now then Some name.now else None) }
{
    match name {
        TableName::Declared(function) => Some(TableName::Declared(*function)),
        TableName::Skolem(assertion, place) => Some(TableName::Skolem(*assertion, *place)),
        _ => None,
    }
}

/// A copy of the table under a name.
fn copy_as(alloc: Global, name: TableName, table: &Table) -> Result<Table, AllocError>
    ensures { IfOk result (λ copy. copy ≡ record table.now { name = name }) }
{
    Ok(Table {
        name,
        knots: copy_knots(alloc, table.knots.as_slice())?,
        rows: copy_rows(alloc, table.rows.as_slice())?,
        default: table.default,
    })
}

fn copy_knots(alloc: Global, knots: &[Values]) -> Result<ValueLists, AllocError>
    ensures { IfOk result (λ copies. copies ≡ knots.now) }
{
    let mut copies = ValueLists::new(alloc);
    for values in knots {
        copies.push(Values::from_slice(alloc, values.as_slice())?)?;
    }
    Ok(copies)
}

fn copy_rows(alloc: Global, rows: &[Row]) -> Result<Rows, AllocError>
    ensures { IfOk result (λ copies. copies ≡ rows.now) }
{
    let mut copies = Rows::new(alloc);
    for row in rows {
        copies.push(copy_row(alloc, row)?)?;
    }
    Ok(copies)
}

fn copy_row(alloc: Global, row: &Row) -> Result<Row, AllocError>
    ensures { IfOk result (λ copy. copy ≡ row.now) }
{
    Ok(Row {
        places: Values::from_slice(alloc, row.places.as_slice())?,
        value: row.value,
    })
}

/// The shown part of a full model that fits a script fits it.
pub fn shown_fits()
    ensures { (script : Script) (model : FunctionModel) → FitsFull script model → Fits script (shown_of model) }
{}

/// The shown part has the tables of the declared functions.
pub fn shown_has_declared()
    ensures { (model : FunctionModel) (f : ℕ) → table_where (is_declared f) (shown_of model) ≡ table_where (is_declared f) model }
{}

/// And those of the Skolem symbols.
pub fn shown_has_skolem()
    ensures { (model : FunctionModel) (assertion place : ℕ)
        → table_where (is_skolem assertion place) (shown_of model) ≡ table_where (is_skolem assertion place) model }
{}
