//! The tables of a model by the symbols that they are of.

ghost use Rattle.std.specs.Prelude.{◌≡◌, IfSome, None, if◌then◌else◌};
ghost use Rattle.std.specs.Option.{option_copied};
ghost use Rattle.mbqi_terms.specs.SameTree.{same_array};
ghost use Rattle.mbqi_terms.specs.declared.term.ArrayTerm.{out-ArrayTerm};
ghost use Rattle.function_model.specs.Lookup.{is_declared, is_difference, is_far, is_full, is_seed, is_skolem, table_where};
ghost use Rattle.function_model.specs.Sound.{IsSound, IsSoundTable};
ghost use Rattle.function_model.specs.Tabled.{table_of, table_of_array, untabled};

use crate::model::{FunctionModel, Table, TableName};
use mbqi_terms::{ArrayTerm, Symbol, same_array};
use mbqi_values::Value;

impl FunctionModel {
    /// The table of a symbol: none where the model has no table of its name, and for an index at which two arrays differ
    /// in a shown model.
    pub(crate) fn table_of(&self, symbol: &Symbol) -> Option<&Table>
        requires { IsSound self.now }
        ensures table { option_copied result ≡ table_of self.now symbol.now }
        ensures sound { IfSome (option_copied result) IsSoundTable }
    {
        self.table_by_name(symbol)
    }

    fn table_by_name(&self, symbol: &Symbol) -> Option<&Table>
        requires { IsSound self.now }
        ensures { option_copied result ≡ table_of self.now symbol.now }
    {
        match symbol {
            Symbol::Declared(function) => self.declared_table(*function),
            Symbol::Skolem(assertion, place) => self.skolem_table(*assertion, *place),
            Symbol::Seed(sort) => self.seed_table(*sort),
            Symbol::Far => self.far_table(),
            Symbol::Diff(left, right) => self.difference_table(left.get(), right.get()),
        }
    }

    /// The value of a symbol that has no table.
    pub(crate) fn untabled(&self, symbol: &Symbol) -> Value
        ensures { result ≡ untabled self.now symbol.now }
    {
        match symbol {
            Symbol::Diff(_, _) if !self.is_full() => Value::Num(0),
            _ => Value::Truth(false),
        }
    }

    /// The table of a declared function, which stands at its number.
    #[tactic(auto, using(crate::proofs::SymbolTables::at_number_laws))]
    pub(crate) fn declared_table(&self, function: usize) -> Option<&Table>
        requires { IsSound self.now }
        ensures { option_copied result ≡ table_where (is_declared function) self.now }
    {
        let Some(table) = self.tables.get(function) else {
            return None;
        };
        if is_declared(&table.name, function) {
            Some(table)
        } else {
            None
        }
    }

    /// The table by which an array that is a name is read.
    pub(crate) fn name_table(&self, array: &ArrayTerm) -> Option<&Table>
        requires { IsSound self.now }
        ensures { option_copied result ≡ table_of_array self.now (out-ArrayTerm array.now) }
    {
        match array {
            ArrayTerm::Name(function) => self.declared_table(*function),
            _ => None,
        }
    }

    /// The table of the Skolem symbol of an assertion's place, if there is one.
    pub(crate) fn skolem_table(&self, assertion: usize, place: usize) -> Option<&Table>
        ensures { option_copied result ≡ table_where (is_skolem assertion place) self.now }
    {
        self.tables
            .iter()
            .find(|table| is_skolem(&table.name, assertion, place))
    }

    /// The table of a sort's seed, if there is one.
    pub(crate) fn seed_table(&self, sort: usize) -> Option<&Table>
        ensures { option_copied result ≡ table_where (is_seed sort) self.now }
    {
        self.tables.iter().find(|table| is_seed(&table.name, sort))
    }

    /// The table of the far index, which full models alone have.
    pub(crate) fn far_table(&self) -> Option<&Table>
        ensures { option_copied result ≡ table_where is_far self.now }
    {
        self.tables.iter().find(|table| is_far(&table.name))
    }

    /// Whether the model is a full one.
    pub(crate) fn is_full(&self) -> bool
        ensures { result ≡ is_full self.now }
    {
        self.far_table().is_some()
    }

    /// The table of the index at which two arrays differ, in a full model.
    pub(crate) fn difference_table(&self, left: &ArrayTerm, right: &ArrayTerm) -> Option<&Table>
        ensures { option_copied result ≡ (if is_full self.now then table_where (is_difference left.now right.now) self.now else None) }
    {
        if self.is_full() {
            self.own_difference_table(left, right)
        } else {
            None
        }
    }

    fn own_difference_table(&self, left: &ArrayTerm, right: &ArrayTerm) -> Option<&Table>
        ensures { option_copied result ≡ table_where (is_difference left.now right.now) self.now }
    {
        self.tables
            .iter()
            .find(|table| is_difference(&table.name, left, right))
    }
}

fn is_declared(name: &TableName, function: usize) -> bool
    ensures { result ≡ is_declared function name.now }
{
    match name {
        TableName::Declared(own) => function == *own,
        _ => false,
    }
}

fn is_skolem(name: &TableName, assertion: usize, place: usize) -> bool
    ensures { result ≡ is_skolem assertion place name.now }
{
    match name {
        TableName::Skolem(own_assertion, own_place) => {
            assertion == *own_assertion && place == *own_place
        }
        _ => false,
    }
}

fn is_seed(name: &TableName, sort: usize) -> bool
    ensures { result ≡ is_seed sort name.now }
{
    match name {
        TableName::Seed(own) => sort == *own,
        _ => false,
    }
}

fn is_far(name: &TableName) -> bool
    ensures { result ≡ is_far name.now }
{
    match name {
        TableName::Far => true,
        _ => false,
    }
}

fn is_difference(name: &TableName, left: &ArrayTerm, right: &ArrayTerm) -> bool
    ensures { result ≡ is_difference left.now right.now name.now }
{
    match name {
        TableName::Diff(own_left, own_right) => {
            is_array(left, own_left) && is_array(right, own_right)
        }
        _ => false,
    }
}

/// Whether two array terms are one tree.
fn is_array(left: &ArrayTerm, right: &ArrayTerm) -> bool
    ensures { result ≡ same_array left.now right.now }
{
    same_array(left, right)
}
