//! The text of a shown model.

ghost use Rattle.std.specs.Prelude.{◌≡◌, ◌++◌, codes, map, OnOk, OnErr};
ghost use Rattle.std.specs.Io.{StartsWith};
ghost use Rattle.mbqi_app.specs.ModelText.{value_text, values_text, row_text, table_text, tables_text, sort_text, sorts_text, model_text};
ghost use Rattle.smtlib_printer.specs.Names.{name_text};
ghost use Rattle.smtlib_printer.specs.Text.{list_text, spaced_rest};

use function_model::{FunctionModel, Row, Table};
use itoa::Buffer;
use mbqi_terms::{Function, Script};
use mbqi_values::{Text, Value, Values};
use smtlib_printer::{write_name, write_number, write_truth};
use std::alloc::AllocError;

/// Appends the lines of a shown model for its script.
#[tactic(auto, using(smtlib_printer::proofs::Fronts::behind), unfolding(crate::specs::ModelText::model_text))]
pub fn write_model(
    script: &Script,
    model: &FunctionModel,
    into: &mut Vec<u8>,
) -> Result<(), AllocError>
    ensures ok { OnOk result (into.new.items ≡ into.old.items ++ model_text script.now model.now) }
    ensures err { OnErr result (StartsWith into.new.items into.old.items) }
{
    into.extend_from_slice(b"sat\n(model 1\n")?;
    write_sorts(script.sorts.as_slice(), model.sizes.as_slice(), into)?;
    write_tables(script.functions.as_slice(), model.tables.as_slice(), into)?;
    into.extend_from_slice(b")\n")?;
    Ok(())
}

#[tactic(auto, using(crate::proofs::TextLines::sorts_text_end, crate::proofs::TextLines::sorts_text_next))]
fn write_sorts(names: &[Text], sizes: &[u64], into: &mut Vec<u8>) -> Result<(), AllocError>
    ensures ok { OnOk result (into.new.items ≡ into.old.items ++ sorts_text names.now sizes.now) }
    ensures err { OnErr result (StartsWith into.new.items into.old.items) }
{
    for at in 0..names.len().min(sizes.len()) {
        write_sort(names[at].as_slice(), sizes[at], into)?;
    }
    Ok(())
}

fn write_sort(name: &[u8], size: u64, into: &mut Vec<u8>) -> Result<(), AllocError>
    ensures ok { OnOk result (into.new.items ≡ into.old.items ++ sort_text name.now size) }
    ensures err { OnErr result (StartsWith into.new.items into.old.items) }
{
    into.extend_from_slice(b"(sort ")?;
    write_name(name, into)?;
    into.extend_from_slice(b" ")?;
    into.extend_from_slice(Buffer::new().format(size).as_bytes())?;
    into.extend_from_slice(b")\n")
}

#[tactic(auto, using(crate::proofs::TextLines::tables_text_end, crate::proofs::TextLines::tables_text_next))]
fn write_tables(
    functions: &[Function],
    tables: &[Table],
    into: &mut Vec<u8>,
) -> Result<(), AllocError>
    ensures ok { OnOk result (into.new.items ≡ into.old.items ++ tables_text functions.now tables.now) }
    ensures err { OnErr result (StartsWith into.new.items into.old.items) }
{
    for at in 0..functions.len().min(tables.len()) {
        write_table(&functions[at], &tables[at], into)?;
    }
    Ok(())
}

fn write_table(function: &Function, table: &Table, into: &mut Vec<u8>) -> Result<(), AllocError>
    ensures ok { OnOk result (into.new.items ≡ into.old.items ++ table_text function.now table.now) }
    ensures err { OnErr result (StartsWith into.new.items into.old.items) }
{
    write_table_front(function.name.as_slice(), table.knots.as_slice(), into)?;
    write_table_rest(table.rows.as_slice(), table.default, into)
}

/// The front of a table's line: the function's name, and the knots of each argument.
#[tactic(auto, using(smtlib_printer::proofs::Fronts::behind))]
fn write_table_front(name: &[u8], knots: &[Values], into: &mut Vec<u8>) -> Result<(), AllocError>
    ensures ok { OnOk result (into.new.items ≡ into.old.items
        ++ (codes "(fun " ++ name_text name.now ++ codes " " ++ list_text (map values_text knots.now))) }
    ensures err { OnErr result (StartsWith into.new.items into.old.items) }
{
    into.extend_from_slice(b"(fun ")?;
    write_name(name, into)?;
    into.extend_from_slice(b" ")?;
    write_knots(knots, into)
}

/// The rest of it: the rows and the default, each behind a blank.
#[tactic(auto, using(smtlib_printer::proofs::Fronts::behind))]
fn write_table_rest(rows: &[Row], default: Value, into: &mut Vec<u8>) -> Result<(), AllocError>
    ensures ok { OnOk result (into.new.items ≡ into.old.items
        ++ (codes " " ++ list_text (map row_text rows.now) ++ codes " " ++ value_text default ++ codes ")\n")) }
    ensures err { OnErr result (StartsWith into.new.items into.old.items) }
{
    into.extend_from_slice(b" ")?;
    write_rows(rows, into)?;
    into.extend_from_slice(b" ")?;
    write_value(default, into)?;
    into.extend_from_slice(b")\n")
}

fn write_knots(knots: &[Values], into: &mut Vec<u8>) -> Result<(), AllocError>
    ensures ok { OnOk result (into.new.items ≡ into.old.items ++ list_text (map values_text knots.now)) }
    ensures err { OnErr result (StartsWith into.new.items into.old.items) }
{
    into.extend_from_slice(b"(")?;
    if let [first, rest @ ..] = knots {
        write_values(first.as_slice(), into)?;
        write_more_knots(rest, into)?;
    }
    into.extend_from_slice(b")")
}

/// The knots of further arguments, each behind a blank.
#[tactic(auto, using(smtlib_printer::proofs::Fronts::behind))]
fn write_more_knots(knots: &[Values], into: &mut Vec<u8>) -> Result<(), AllocError>
    ensures ok { OnOk result (into.new.items ≡ into.old.items ++ spaced_rest (map values_text knots.now)) }
    ensures err { OnErr result (StartsWith into.new.items into.old.items) }
{
    for values in knots {
        into.extend_from_slice(b" ")?;
        write_values(values.as_slice(), into)?;
    }
    Ok(())
}

#[tactic(auto, using(smtlib_printer::proofs::Fronts::behind))]
fn write_rows(rows: &[Row], into: &mut Vec<u8>) -> Result<(), AllocError>
    ensures ok { OnOk result (into.new.items ≡ into.old.items ++ list_text (map row_text rows.now)) }
    ensures err { OnErr result (StartsWith into.new.items into.old.items) }
{
    into.extend_from_slice(b"(")?;
    if let [first, rest @ ..] = rows {
        write_row(first, into)?;
        write_more_rows(rest, into)?;
    }
    into.extend_from_slice(b")")
}

/// Further rows, each behind a blank.
#[tactic(auto, using(smtlib_printer::proofs::Fronts::behind))]
fn write_more_rows(rows: &[Row], into: &mut Vec<u8>) -> Result<(), AllocError>
    ensures ok { OnOk result (into.new.items ≡ into.old.items ++ spaced_rest (map row_text rows.now)) }
    ensures err { OnErr result (StartsWith into.new.items into.old.items) }
{
    for row in rows {
        into.extend_from_slice(b" ")?;
        write_row(row, into)?;
    }
    Ok(())
}

#[tactic(auto, using(smtlib_printer::proofs::Fronts::behind))]
fn write_row(row: &Row, into: &mut Vec<u8>) -> Result<(), AllocError>
    ensures ok { OnOk result (into.new.items ≡ into.old.items ++ row_text row.now) }
    ensures err { OnErr result (StartsWith into.new.items into.old.items) }
{
    into.extend_from_slice(b"(")?;
    write_values(row.places.as_slice(), into)?;
    into.extend_from_slice(b" ")?;
    write_value(row.value, into)?;
    into.extend_from_slice(b")")
}

#[tactic(auto, using(smtlib_printer::proofs::Fronts::behind))]
fn write_values(values: &[Value], into: &mut Vec<u8>) -> Result<(), AllocError>
    ensures ok { OnOk result (into.new.items ≡ into.old.items ++ values_text values.now) }
    ensures err { OnErr result (StartsWith into.new.items into.old.items) }
{
    into.extend_from_slice(b"(")?;
    if let [first, rest @ ..] = values {
        write_value(*first, into)?;
        write_more_values(rest, into)?;
    }
    into.extend_from_slice(b")")
}

/// Further values, each behind a blank.
#[tactic(auto, using(smtlib_printer::proofs::Fronts::behind))]
fn write_more_values(values: &[Value], into: &mut Vec<u8>) -> Result<(), AllocError>
    ensures ok { OnOk result (into.new.items ≡ into.old.items ++ spaced_rest (map value_text values.now)) }
    ensures err { OnErr result (StartsWith into.new.items into.old.items) }
{
    for value in values {
        into.extend_from_slice(b" ")?;
        write_value(*value, into)?;
    }
    Ok(())
}

fn write_value(value: Value, into: &mut Vec<u8>) -> Result<(), AllocError>
    ensures ok { OnOk result (into.new.items ≡ into.old.items ++ value_text value) }
    ensures err { OnErr result (StartsWith into.new.items into.old.items) }
{
    match value {
        Value::Num(number) => write_number(number, into),
        Value::Elem(element) => {
            into.extend_from_slice(b"@")?;
            into.extend_from_slice(Buffer::new().format(element).as_bytes())
        }
        Value::Truth(truth) => write_truth(truth, into),
    }
}
