ghost use Rattle.std.specs.Prelude.{◌≡◌, ◌<◌, length, IfOk, replicate, slice_index_or, slice_set};

use sdd_base::NoMemory;
use std::alloc::Global;
use std::marker::Model;

/// A value at each number below a size.
#[derive(Drop)]
pub struct Table<T> {
    items: Vec<T>,
}

impl<T> Model for Table<T> {
    ghost use Rattle.std.specs.Prelude.{List};

    ghost Value = { List T };

    ghost view = { λ t. t.items.items };
}

impl<T: Copy> Table<T> {
    /// A table of this size, with one value everywhere.
    pub fn new(alloc: Global, size: usize, item: T) -> Result<Self, NoMemory>
        ensures { IfOk result (λ table. table ≡ replicate size item) }
    {
        let mut items = Vec::new(alloc);
        'fill: for _ in 0..size {
            items.push(item)?;
        }
        Ok(Table { items })
    }

    /// The value at a number.
    pub fn at(&self, at: u32) -> T
        requires { at < length self.now }
        ensures { (other : T) → slice_index_or self.now at other ≡ result }
    {
        self.items[at as usize]
    }

    /// Puts another value at a number.
    pub fn put(&mut self, at: u32, item: T)
        requires { at < length self.old }
        ensures { self.new ≡ slice_set self.old at item }
    {
        self.items[at as usize] = item;
    }
}
