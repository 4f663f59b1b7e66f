use mbqi_terms::ArrayTerm;
use mbqi_values::{Sequence, Sizes, Value, Values};

/// The rows of a table, rising by their places.
pub type Rows = Sequence<Row>;

/// The tables of a model, in order.
pub type Tables = Sequence<Table>;

/// The knots of each argument of a table.
pub type ValueLists = Sequence<Values>;

/// What a table gives the values of: a declared function by its number, a Skolem symbol by its assertion and
/// place, or one of the hidden names of a full model.
#[derive(Drop)]
pub enum TableName {
    Declared(usize),
    Skolem(usize, usize),
    /// The element that stands for a declared sort, by number.
    Seed(usize),
    /// The integer past which each array over Int has its default.
    Far,
    /// An index at which two arrays differ, where they do.
    Diff(ArrayTerm, ArrayTerm),
    /// The value that an array has at every large enough index.
    Default(ArrayTerm),
    /// The reads of an array term that isn't a name.
    Read(ArrayTerm),
    /// Whether two arrays are the same.
    Same(ArrayTerm, ArrayTerm),
}

/// The value of a table at one knot for each argument.
#[derive(Drop)]
pub struct Row {
    pub places: Values,
    pub value: Value,
}

/// The values of a function. An argument goes to one of its knots: a number to the greatest knot that isn't
/// above it, or to the least where there is none; an element to itself where it is a knot, else to the first.
/// The value is that of the row at these knots, or the default where there is no such row.
#[derive(Drop)]
pub struct Table {
    pub name: TableName,
    pub knots: ValueLists,
    pub rows: Rows,
    pub default: Value,
}

/// A size of at least 1 for each declared sort, and a table for each function. A shown model has the tables
/// of declared functions and of Skolem symbols; a full one also those of the hidden names.
#[derive(Drop)]
pub struct FunctionModel {
    pub sizes: Sizes,
    pub tables: Tables,
}
