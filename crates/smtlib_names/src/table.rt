//! Items that are found by their names.

ghost use Rattle.std.specs.Prelude.{◌≡◌, [], ◌∷◌, ◌++◌, take, OnOk, OnErr};
ghost use Rattle.name_tables.specs.Names.{with_name};

use mbqi_values::Sequence;
use name_tables::NameSet;
use std::alloc::{AllocError, Global};
use std::mem;

/// Items in order, and their names in the same order, each found by one look-up.
#[derive(Drop)]
pub struct Table<T> {
    pub items: Sequence<T>,
    pub names: NameSet,
}

impl<T: Drop> Table<T> {
    /// No items.
    pub fn new(alloc: Global) -> Table<T>
        ensures { result ≡ record { items = []; names = [] } }
    {
        Table {
            items: Sequence::new(alloc),
            names: NameSet::new(alloc),
        }
    }

    /// Adds an item at the end, of a name that none has yet. After want of memory the table is as before.
    pub fn push(&mut self, alloc: Global, name: &[u8], item: T) -> Result<(), AllocError>
        ensures ok { OnOk result (self.new ≡ record { items = self.old.items ++ item ∷ []; names = with_name self.old.names name.now }) }
        ensures err { OnErr result (self.new ≡ self.old) }
    {
        let len = self.names.len();
        self.names.insert(alloc, name)?;
        match self.items.push(item) {
            Ok(()) => Ok(()),
            Err(error) => {
                self.names.truncate(len);
                Err(error)
            }
        }
    }

    /// Keeps the first items alone. It takes no memory.
    pub fn truncate(&mut self, alloc: Global, len: usize)
        ensures { self.new ≡ record { items = take len self.old.items; names = take len self.old.names } }
    {
        let mut items = mem::replace(&mut self.items, Sequence::new(alloc)).into_vec();
        items.truncate(len);
        self.items = Sequence::from_vec(items);
        self.names.truncate(len);
    }
}
