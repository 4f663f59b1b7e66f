ghost use Rattle.std.specs.Prelude.{◌≡◌};
ghost use Rattle.mbqi_values.specs.Value.{rank_of};

use std::cmp::Ordering;

/// What a term stands for in a model: a whole number, an element of a declared sort by its number from 0, or
/// a truth.
#[derive(Clone, Copy, Debug, PartialEq, Eq)]
pub enum Value {
    Num(i128),
    Elem(u64),
    Truth(bool),
}

impl Value {
    /// Numbers by size, elements by number, false before true, and numbers before elements before truths:
    /// the order in which knots and rows of a model stand.
    pub fn rank(&self, other: &Value) -> Ordering
        ensures { result ≡ rank_of self.now other.now }
    {
        match (*self, *other) {
            (Value::Num(left), Value::Num(right)) => left.cmp(&right),
            (Value::Num(_), _) => Ordering::Less,
            (Value::Elem(_), Value::Num(_)) => Ordering::Greater,
            (Value::Elem(left), Value::Elem(right)) => left.cmp(&right),
            (Value::Elem(_), Value::Truth(_)) => Ordering::Less,
            (Value::Truth(left), Value::Truth(right)) => left.cmp(&right),
            (Value::Truth(_), _) => Ordering::Greater,
        }
    }
}
