//! The values of terms in a model, from its tables alone.

ghost use Rattle.std.specs.Prelude.{◌≡◌, false, [], ◌∷◌, map, All};
ghost use Rattle.mbqi_values.specs.Sum.{IsBelow};
ghost use Rattle.mbqi_values.specs.Value.{plus_number};
ghost use Rattle.function_model.specs.Evaluable.{IsEvaluable};
ghost use Rattle.function_model.specs.Fits.{IsSmall};
ghost use Rattle.function_model.specs.Lookup.{given_by, is_declared, looked_up_in};
ghost use Rattle.function_model.specs.Points.{point_of};
ghost use Rattle.function_model.specs.Sound.{IsSound, IsSoundTable};
ghost use Rattle.function_model.specs.ValueOf.{Point, array_of, is_compound, value_of};

use crate::by_halves::first_value;
use crate::model::{FunctionModel, Table};
use crate::parts::{application_parts, read_parts, sum_parts};
use mbqi_terms::{ArrayTerm, Binder, Binders, Term};
use mbqi_values::{Value, Values, plus};

impl FunctionModel {
    /// The value of a term at the point where the variable of each binder's place has the value of that binder, in a sound
    /// model. No compound array term and no default stands in the term, and the numbers that are added in it, and those of
    /// the point, are absolutely below 2^124. It takes no memory. Each part of the term is evaluated once, and an
    /// application costs what its arguments cost, and for each the logarithms of its knots and of the table's rows.
    pub fn eval_term(&self, t: &Term, binders: &Binders, point: &Values) -> Value
        requires sound { IsSound self.now }
        requires term { IsEvaluable t.now }
        requires point { All IsSmall point.now }
        ensures { result ≡ value_of self.now t.now (point_of binders.now point.now) }
    {
        value_at(self, t, binders.as_slice(), point.as_slice())
    }
}

/// What [`FunctionModel::eval_term`] gives, over lent lists.
#[cycle(value)]
pub(crate) fn value_at(
    model: &FunctionModel,
    t: &Term,
    binders: &[Binder],
    point: &[Value],
) -> Value
    requires sound { IsSound model.now }
    requires term { IsEvaluable t.now }
    requires point { All IsSmall point.now }
    ensures { result ≡ value_of model.now t.now (point_of binders.now point.now) }
{
    match t {
        Term::Num(number) => Value::Num(*number),
        Term::Plus(base, number) => {
            let base = base.get();
            sum_parts(t, base, *number);
            plus_number(value_at(model, base, binders, point), *number)
        }
        Term::Var(place) => value_of_place(binders, point, *place),
        Term::Truth(truth) => Value::Truth(*truth),
        Term::Apply(symbol, args) => {
            let args = args.as_slice();
            application_parts(t, symbol, args);
            match model.table_of(symbol) {
                Some(table) => value_of_table(model, table, args, binders, point),
                None => model.untabled(symbol),
            }
        }
        Term::Read(array, index) => {
            let array = array.get();
            let index = index.get();
            read_parts(t, array, index);
            read_name(model, array, value_at(model, index, binders, point))
        }
        Term::Default(_) => unreachable!(),
    }
}

/// The value of a table at the values of terms: each narrows the rows, and none is kept.
#[cycle(value)]
fn value_of_table(
    model: &FunctionModel,
    table: &Table,
    args: &[Term],
    binders: &[Binder],
    point: &[Value],
) -> Value
    requires sound { IsSound model.now }
    requires table { IsSoundTable table.now }
    requires terms { All IsEvaluable args.now }
    requires point { All IsSmall point.now }
    ensures { result ≡ looked_up_in table.now (map (λ t. value_of model.now t (point_of binders.now point.now)) args.now) }
{
    if args.len() != table.knots.len() {
        return table.default;
    }
    let mut rows = table.rows.as_slice();
    for place in 0..args.len() {
        rows = table.narrowed(rows, place, value_at(model, &args[place], binders, point));
    }
    first_value(rows, table.default)
}

/// The read of an array that is a name.
fn read_name(model: &FunctionModel, array: &ArrayTerm, index: Value) -> Value
    requires sound { IsSound model.now }
    requires name { is_compound array.now ≡ false }
    ensures { (p : Point) → result ≡ (array_of model.now array.now p).read index }
{
    match array {
        ArrayTerm::Name(function) => read_at(model, *function, index),
        _ => unreachable!(),
    }
}

/// The read of a declared function of one argument.
fn read_at(model: &FunctionModel, function: usize, index: Value) -> Value
    requires { IsSound model.now }
    ensures { result ≡ given_by (is_declared function) model.now (index ∷ []) }
{
    match model.declared_table(function) {
        Some(table) => table.look_up_by_halves(&[index]),
        None => Value::Truth(false),
    }
}

/// The value of the binder of a place.
fn value_of_place(binders: &[Binder], point: &[Value], place: usize) -> Value
    ensures { result ≡ point_of binders.now point.now place }
{
    for at in 0..binders.len().min(point.len()) {
        if binders[at].place == place {
            return point[at];
        }
    }
    Value::Truth(false)
}

/// A number with a number added to it; other values stay.
pub(crate) fn plus_number(value: Value, number: i128) -> Value
    requires value { IsSmall value }
    requires number { IsBelow number 124 }
    ensures { result ≡ plus_number value number }
{
    match value {
        Value::Num(own) => Value::Num(plus(own, number)),
        _ => value,
    }
}
