//! Names with values, of which the last entry of a name counts.

ghost use Rattle.std.specs.Prelude.{◌≡◌, ◌≤◌, ℕ, [], ◌∷◌, ◌-◌, None, slice_get, length, drop, IfOk, OnOk, OnErr};
ghost use Rattle.std.specs.List.{slice_index_or};
ghost use Rattle.std.specs.Option.{option_copied};
ghost use Rattle.name_tables.specs.Growth.{Grows};
ghost use Rattle.name_tables.specs.Names.{value_of};

use crate::name_set::NameSet;
use std::alloc::{AllocError, Global};
use std::marker::Model;

/// Names with values, of which the last entry of a name counts. Contracts see the entries, the last first.
#[derive(Drop)]
pub struct NameStack<T> {
    // Each name that ever came: its place is its slot.
    names: NameSet,
    // By slot, the place of the name's last entry, if it has one.
    tops: Vec<Option<usize>>,
    entries: Vec<Entry<T>>,
}

/// A value, with the place of the entry of the same name that it shadows, if there is one.
#[derive(Drop)]
struct Entry<T> {
    slot: usize,
    shadowed: Option<usize>,
    value: T,
}

impl<T> Model for NameStack<T> {
    ghost use Rattle.std.specs.Prelude.{List, ℕ, map, reverse};
    ghost use Rattle.std.specs.Coded.{coded_list, coded×, coded_ℕ};

    ghost Value = { List (List ℕ × T) };

    ghost coded = { coded_list (coded× (coded_list coded_ℕ) T.code) };

    ghost use Rattle.name_tables.specs.Stack.{named, IsStack};

    ghost view = { λ s. map (named s.names) (reverse s.entries.items) };

    ghost invariant = { λ s. IsStack s.names s.tops.items (reverse s.entries.items) };
}

// The slot of the name, which is a new one where the name never came.
fn slot_of(
    names: &mut NameSet,
    tops: &mut Vec<Option<usize>>,
    alloc: Global,
    name: &[u8],
) -> Result<usize, AllocError>
    requires { length names.old ≤ length tops.old.items }
    ensures slot { IfOk result (λ slot. slice_get names.new slot ≡ Some name.now) }
    ensures names { Grows names.old names.new }
    ensures room { length names.new ≤ length tops.new.items }
    ensures tops { (slot : ℕ) → slice_index_or tops.new.items slot None ≡ slice_index_or tops.old.items slot None }
{
    match names.place_of(name) {
        Some(slot) => Ok(slot),
        None => {
            tops.push(None)?;
            let slot = names.len();
            names.add(alloc, name)?;
            Ok(slot)
        }
    }
}

impl<T: Drop> NameStack<T> {
    /// An empty stack, which takes no memory.
    pub fn new(alloc: Global) -> NameStack<T>
        ensures { result ≡ [] }
    {
        NameStack {
            names: NameSet::new(alloc),
            tops: Vec::new(alloc),
            entries: Vec::new(alloc),
        }
    }

    /// How many entries there are.
    pub fn len(&self) -> usize
        ensures { result ≡ length self.now }
    {
        self.entries.len()
    }

    /// The value of the name's last entry, by one look-up.
    pub fn find(&self, name: &[u8]) -> Option<&T>
        ensures { option_copied result ≡ value_of name.now self.now }
    {
        let slot = self.names.place_of(name)?;
        let top = self.tops[slot]?;
        Some(&self.entries[top].value)
    }

    /// Puts an entry last. The one error is want of memory: the stack is then as before.
    pub fn push(&mut self, alloc: Global, name: &[u8], value: T) -> Result<(), AllocError>
        ensures ok { OnOk result (self.new ≡ (name.now, value) ∷ self.old) }
        ensures err { OnErr result (self.new ≡ self.old) }
    {
        let slot = slot_of(&mut self.names, &mut self.tops, alloc, name)?;
        let place = self.entries.len();
        let shadowed = self.tops[slot];
        self.entries.push(Entry {
            slot,
            shadowed,
            value,
        })?;
        self.tops[slot] = Some(place);
        Ok(())
    }

    // Takes the last entry off, if there is one.
    fn pop(&mut self)
        ensures { self.new ≡ drop 1 self.old }
    {
        if let Some(entry) = self.entries.pop() {
            self.tops[entry.slot] = entry.shadowed;
        }
    }

    /// Takes the last entries off, until so many are left.
    pub fn truncate(&mut self, len: usize)
        ensures { self.new ≡ drop (length self.old - len) self.old }
    {
        while self.len() > len {
            self.pop();
        }
    }
}
