//! The elements, and the tables of the functions over them without rows.

ghost use Rattle.std.specs.Prelude.{◌≡◌, ◌++◌, length, replicate, IfOk, OnOk};
ghost use Rattle.element_atoms.specs.Profile.{is_constant};
ghost use Rattle.element_models.specs.Elements.{elements_from, knots_of, bare_table, table_for, tables_from, no_rows, hidden_from};

use element_atoms::Pool;
use function_model::{Rows, Table, TableName, ValueLists};
use mbqi_terms::{Function, Sort};
use mbqi_values::{Sequence, Sizes, Value, Values};
use std::alloc::{AllocError, Global};

/// The size for each sort.
pub fn same_sizes(alloc: Global, sorts: usize, size: u64) -> Result<Sizes, AllocError>
    ensures { IfOk result (λ sizes. sizes ≡ replicate sorts size) }
{
    Ok(Sizes::from_vec(Vec::from_elem(alloc, size, sorts)?))
}

fn is_constant(function: &Function) -> bool
    ensures { result ≡ is_constant function.now }
{
    matches!(function.result, Sort::Elem(_))
}

/// How many elements there are: one for each term of the pool.
pub fn universe_size(pool: &Pool) -> u64
    ensures { result ≡ length pool.now.terms }
{
    pool.terms.as_slice().len() as u64
}

/// Every element of the universe, in order.
#[tactic(auto, using(crate::proofs::Knots::elements_next))]
fn every_element(alloc: Global, size: u64) -> Result<Values, AllocError>
    ensures { IfOk result (λ values. values ≡ elements_from 0 size) }
{
    let mut values = Vec::new(alloc);
    for element in 0..size {
        values.push(Value::Elem(element))?;
    }
    Ok(Sequence::from_vec(values))
}

/// Each element as a knot of each argument.
fn knots_of(alloc: Global, args: &[Sort], size: u64) -> Result<ValueLists, AllocError>
    ensures { IfOk result (λ knots. knots ≡ knots_of size args.now) }
{
    let mut knots = Vec::new(alloc);
    for _arg in args {
        knots.push(every_element(alloc, size)?)?;
    }
    Ok(Sequence::from_vec(knots))
}

/// The table of a name without arguments.
fn bare_table(alloc: Global, name: TableName, value: Value) -> Table
    ensures { result ≡ bare_table name value }
{
    Table {
        name,
        knots: ValueLists::new(alloc),
        rows: Rows::new(alloc),
        default: value,
    }
}

fn table_for(
    alloc: Global,
    number: usize,
    element: u64,
    size: u64,
    function: &Function,
) -> Result<Table, AllocError>
    ensures { IfOk result (λ table. table ≡ table_for no_rows number element size function.now) }
{
    let name = TableName::Declared(number);
    if is_constant(function) {
        return Ok(bare_table(alloc, name, Value::Elem(element)));
    }
    Ok(Table {
        name,
        knots: knots_of(alloc, function.args.as_slice(), size)?,
        rows: Rows::new(alloc),
        default: Value::Truth(false),
    })
}

/// A table without rows for each function: a constant is the next element, a predicate is false.
pub fn element_tables(
    alloc: Global,
    functions: &[Function],
    size: u64,
) -> Result<Vec<Table>, AllocError>
    ensures { IfOk result (λ tables. tables.items ≡ tables_from no_rows 0 0 size functions.now) }
{
    let mut tables = Vec::new(alloc);
    let mut element = 0;
    for (number, function) in functions.iter().enumerate() {
        tables.push(table_for(alloc, number, element, size, function)?)?;
        if is_constant(function) {
            element += 1;
        }
    }
    Ok(tables)
}

/// Adds the tables of the hidden names behind those of the functions: the seed of each sort is the given element, and the far
/// integer is 0.
#[tactic(auto, using(crate::proofs::HiddenTables::hidden_next))]
pub fn push_hidden(
    alloc: Global,
    tables: &mut Vec<Table>,
    sorts: usize,
    seed: u64,
) -> Result<(), AllocError>
    ensures { OnOk result (tables.new.items ≡ tables.old.items ++ hidden_from seed 0 sorts) }
{
    for sort in 0..sorts {
        tables.push(bare_table(alloc, TableName::Seed(sort), Value::Elem(seed)))?;
    }
    tables.push(bare_table(alloc, TableName::Far, Value::Num(0)))?;
    Ok(())
}
