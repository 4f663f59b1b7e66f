//! The values of a store's terms in a model, from its tables alone.

ghost use Rattle.std.specs.Prelude.{◌≡◌, ◌<◌, length, map, All, IfSome};
ghost use Rattle.std.specs.Option.{option_copied};
ghost use Rattle.mbqi_terms.specs.declared.term.Term.{Term};
ghost use Rattle.mbqi_terms.specs.Store.{HasTree};
ghost use Rattle.function_model.specs.Evaluable.{IsEvaluable};
ghost use Rattle.function_model.specs.Holds.{nowhere};
ghost use Rattle.function_model.specs.Lookup.{looked_up_in};
ghost use Rattle.function_model.specs.Sound.{IsSound, IsSoundTable};
ghost use Rattle.function_model.specs.Tabled.{IsTabledHead, head_gives, stored_tree, stored_value, table_of_head, untabled_head};
ghost use Rattle.function_model.specs.ValueOf.{value_of};

use crate::by_halves::first_value;
use crate::eval::plus_number;
use crate::model::{FunctionModel, Table};
use mbqi_terms::{Head, TermId, TermStore};
use mbqi_values::Value;

impl FunctionModel {
    /// The value of the term of a number in a store, in a sound model. The term is as [`FunctionModel::eval_term`] takes
    /// them; a variable in it counts as false. No tree is built and no memory taken, and a term that stands at several
    /// places is walked at each.
    pub fn eval_id(&self, store: &TermStore, id: TermId) -> Value
        requires sound { IsSound self.now }
        requires stored { id.0 < length store.now.nodes }
        requires term { (t : Term) → HasTree store.now id t → IsEvaluable t }
        ensures { (t : Term) → HasTree store.now id t → result ≡ value_of self.now t nowhere }
    {
        value_of_id(self, store, id)
    }

    /// The table of a head, if it has one.
    fn table_of_head(&self, store: &TermStore, head: Head) -> Option<&Table>
        requires sound { IsSound self.now }
        requires head { IsTabledHead store.now.lists head }
        ensures table { option_copied result ≡ table_of_head self.now store.now.lists head }
        ensures sound { IfSome (option_copied result) IsSoundTable }
    {
        self.table_by_head(store, head)
    }

    fn table_by_head(&self, store: &TermStore, head: Head) -> Option<&Table>
        requires sound { IsSound self.now }
        requires head { IsTabledHead store.now.lists head }
        ensures { option_copied result ≡ table_of_head self.now store.now.lists head }
    {
        match head {
            Head::Declared(function) => self.declared_table(function),
            Head::Skolem(assertion, place) => self.skolem_table(assertion, place),
            Head::Seed(sort) => self.seed_table(sort),
            Head::Far => self.far_table(),
            Head::Diff(pair) => {
                let pair = &store.arrays().atoms.as_slice()[pair];
                self.difference_table(&pair.left, &pair.right)
            }
            Head::Read(array) => self.name_table(&store.arrays().terms.as_slice()[array]),
            _ => None,
        }
    }

    /// The value of a head that has no table.
    fn untabled_head(&self, head: Head) -> Value
        ensures { result ≡ untabled_head self.now head }
    {
        match head {
            Head::Zero => Value::Num(0),
            Head::Diff(_) if !self.is_full() => Value::Num(0),
            Head::Truth(truth) => Value::Truth(truth),
            _ => Value::Truth(false),
        }
    }
}

#[cycle(ids)]
fn value_of_id(model: &FunctionModel, store: &TermStore, id: TermId) -> Value
    requires sound { IsSound model.now }
    requires stored { id.0 < length store.now.nodes }
    requires term { IsEvaluable (stored_tree store.now id) }
    ensures { result ≡ stored_value model.now store.now id }
{
    let node = store.node(id);
    match node.head {
        Head::Zero => Value::Num(node.plus),
        _ => {
            let base = value_of_head(model, store, node.head, node.args.as_slice(), id);
            plus_number(base, node.plus)
        }
    }
}

/// The value of a head at terms that come before a number.
#[cycle(ids)]
fn value_of_head(
    model: &FunctionModel,
    store: &TermStore,
    head: Head,
    args: &[TermId],
    before: TermId,
) -> Value
    requires sound { IsSound model.now }
    requires head { IsTabledHead store.now.lists head }
    requires before { All (λ arg. arg.0 < before.0) args.now }
    requires stored { All (λ arg. arg.0 < length store.now.nodes) args.now }
    requires terms { All (λ arg. IsEvaluable (stored_tree store.now arg)) args.now }
    ensures { result ≡ head_gives model.now store.now.lists head (map (stored_value model.now store.now) args.now) }
{
    match model.table_of_head(store, head) {
        Some(table) => value_of_args(model, store, table, args, before),
        None => model.untabled_head(head),
    }
}

/// The value of a table at terms that come before a number: each narrows the rows, and no value is kept.
#[cycle(ids)]
fn value_of_args(
    model: &FunctionModel,
    store: &TermStore,
    table: &Table,
    args: &[TermId],
    before: TermId,
) -> Value
    requires sound { IsSound model.now }
    requires table { IsSoundTable table.now }
    requires before { All (λ arg. arg.0 < before.0) args.now }
    requires stored { All (λ arg. arg.0 < length store.now.nodes) args.now }
    requires terms { All (λ arg. IsEvaluable (stored_tree store.now arg)) args.now }
    ensures { result ≡ looked_up_in table.now (map (stored_value model.now store.now) args.now) }
{
    if args.len() != table.knots.len() {
        return table.default;
    }
    let mut rows = table.rows.as_slice();
    for place in 0..args.len() {
        rows = table.narrowed(rows, place, value_of_id(model, store, args[place]));
    }
    first_value(rows, table.default)
}
