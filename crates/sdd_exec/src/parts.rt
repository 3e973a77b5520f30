//! The rows of a query's parts.
ghost use Rattle.std.specs.Prelude.{◌≡◌, ◌≤◌, ◌<◌, ◌++◌, ◌∷◌, [], length, slice_index_or, MatchOption, OnOk};
ghost use Rattle.sdd_lang.specs.All.{rows_lent};

use sdd_lang::{NoMemory, Row};
use std::alloc::Global;
use std::marker::Model;

/// Of each part of a query the rows from which its tuples are made.
#[derive(Drop)]
pub struct Parts<'a> {
    lists: Vec<Vec<&'a Row>>,
}

impl<'a> Model for Parts<'a> {
    ghost use Rattle.std.specs.Prelude.{List, map};
    ghost use Rattle.sdd_lang.specs.All.{Row, rows_lent};

    ghost Value = { List (List Row) };

    ghost view = { λ p. map (λ rows. rows_lent rows.items) p.lists.items };
}

impl<'a> Parts<'a> {
    /// No part.
    pub fn new(alloc: Global) -> Self
        ensures { result ≡ [] }
    {
        Parts {
            lists: Vec::new(alloc),
        }
    }

    /// Adds the rows of the next part.
    pub fn push(&mut self, rows: Vec<&'a Row>) -> Result<(), NoMemory>
        ensures { OnOk result (self.new ≡ self.old ++ rows_lent rows.entry.items ∷ []) }
    {
        self.lists.push(rows)?;
        Ok(())
    }

    /// How many parts there are. Takes no memory.
    pub(crate) fn count(&self) -> usize
        ensures { result ≡ length self.now }
    {
        self.lists.len()
    }

    /// The rows of a part, counted from 0. Takes no memory.
    pub(crate) fn rows(&self, part: usize) -> &[&'a Row]
        requires { part < length self.now }
        ensures { rows_lent result.now ≡ slice_index_or self.now part [] }
    {
        self.lists[part].as_slice()
    }

    /// The row of a part at a place, both counted from 0, where it is there. Takes no memory.
    pub(crate) fn row(&self, part: usize, place: usize) -> Option<&'a Row>
        ensures { let rows = slice_index_or self.now part [] in
            MatchOption result (length rows ≤ place)
            (λ row. (place < length rows) × (row.now ≡ slice_index_or rows place [])) }
    {
        match self.lists.get(part) {
            Some(rows) => match rows.get(place) {
                Some(row) => Some(*row),
                None => None,
            },
            None => None,
        }
    }
}
