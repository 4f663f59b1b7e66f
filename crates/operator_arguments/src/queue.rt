//! Lists that are taken apart from the front.

ghost use Rattle.std.specs.Prelude.{◌≡◌, [], ◌∷◌, MatchOption};

use mbqi_values::Sequence;
use std::collections::VecDeque;
use std::marker::Model;

/// Items that are taken from the front one by one. Contracts see those that are left.
#[derive(Drop)]
pub struct Queue<T> {
    items: VecDeque<T>,
}

impl<T> Model for Queue<T> {
    ghost use Rattle.std.specs.Prelude.{List};
    ghost use Rattle.std.specs.Coded.{coded_list};

    ghost Value = { List T };

    ghost coded = { coded_list T.code };

    ghost view = { λ q. q.items.items };
}

impl<T> Queue<T> {
    /// The items of a list, which takes no memory.
    pub fn new(items: Sequence<T>) -> Queue<T>
        ensures { result ≡ items }
    {
        Queue {
            items: VecDeque::from(items.into_vec()),
        }
    }

    /// Takes the first item.
    pub fn next(&mut self) -> Option<T>
        ensures { MatchOption result (self.old ≡ []) (λ first. self.old ≡ first ∷ self.new) }
    {
        self.items.pop_front()
    }
}
