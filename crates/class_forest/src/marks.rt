//! Marks on numbers.

ghost use Rattle.std.specs.List.{Contains, IsDistinct};
ghost use Rattle.std.specs.Prelude.{◌≡◌, ◌↔◌, ◌<◌, [], nat_eq, IfOk, IsTrue};
ghost use Rattle.class_forest.specs.Marks.{with_mark};

use std::alloc::{AllocError, Global};
use std::marker::Model;

/// The marked ones of the numbers below a bound, each once, in the order in which they were marked.
#[derive(Debug, Drop)]
pub(crate) struct Marks {
    is_marked: Vec<bool>,
    marks: Vec<usize>,
}

impl Model for Marks {
    ghost use Rattle.std.specs.Prelude.{◌≤◌, vec_capacity, vec_len};
    ghost use Rattle.class_forest.specs.Marks.{AreMarks, Marked};

    ghost Value = { Marked };

    ghost view = { λ m. record { room = vec_len m.is_marked; marks = m.marks.items } };

    ghost invariant = { λ m. AreMarks m.is_marked.items m.marks.items × (vec_len m.is_marked ≤ vec_capacity m.marks) };
}

impl Marks {
    /// No marks, and room for all numbers below `room`.
    pub(crate) fn new(alloc: Global, room: usize) -> Result<Marks, AllocError>
        ensures { IfOk result (λ marks. marks ≡ record { room = room; marks = [] }) }
    {
        let is_marked = vec![in alloc; false; room]?;
        let marks = Vec::with_capacity(alloc, room)?;
        Ok(Marks { is_marked, marks })
    }

    /// Marks a number, if it isn't marked.
    pub(crate) fn mark(&mut self, number: usize)
        requires { number < self.old.room }
        ensures { self.new ≡ record self.old { marks = with_mark self.old.marks number } }
    {
        if !self.is_marked[number] {
            self.is_marked[number] = true;
            self.marks.push(number).unwrap();
        }
    }

    /// Whether the number is marked.
    pub(crate) fn is_marked(&self, number: usize) -> bool
        requires { number < self.now.room }
        ensures { IsTrue result ↔ Contains self.now.marks number }
    {
        self.is_marked[number]
    }

    /// The marks, in the order in which they were set.
    pub(crate) fn marked(&self) -> &[usize]
        ensures marks { result.now ≡ self.now.marks }
        ensures once { IsDistinct nat_eq self.now.marks }
    {
        self.marks.as_slice()
    }

    /// Takes the marks away, in as many steps as there are.
    pub(crate) fn unmark_all(&mut self)
        ensures { self.new ≡ record self.old { marks = [] } }
    {
        while let Some(number) = self.marks.pop() {
            self.is_marked[number] = false;
        }
    }
}
