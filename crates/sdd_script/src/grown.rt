ghost use Rattle.std.specs.Prelude.{◌≡◌, ◌++◌, ◌∷◌, [], OnOk, length};

use sdd_lang::{Listed, NoMemory};
use std::alloc::Global;
use std::marker::Model;

/// A list that grows at its end, which contracts see as the list.
#[derive(Drop)]
pub struct Grown<T> {
    items: Vec<T>,
}

impl<T> Model for Grown<T> {
    ghost use Rattle.std.specs.Prelude.{List};

    ghost Value = { List T };

    ghost view = { λ l. l.items.items };
}

impl<T: Drop> Grown<T> {
    /// The list of no items. Takes no memory.
    pub fn new(alloc: Global) -> Self
        ensures { result ≡ [] }
    {
        Grown {
            items: Vec::new(alloc),
        }
    }

    /// How many items there are.
    pub fn len(&self) -> usize
        ensures { result ≡ length self.now }
    {
        self.items.len()
    }

    /// The items, lent.
    pub fn as_slice(&self) -> &[T]
        ensures { result.now ≡ self.now }
    {
        self.items.as_slice()
    }

    /// Puts an item at the end.
    pub fn push(&mut self, item: T) -> Result<(), NoMemory>
        ensures { OnOk result (self.new ≡ self.old ++ item ∷ []) }
    {
        self.items.push(item)?;
        Ok(())
    }

    /// The items. Takes no memory.
    pub fn into_listed(self) -> Listed<T>
        ensures { result ≡ self }
    {
        Listed::from_vec(self.items)
    }
}
