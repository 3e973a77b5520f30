ghost use Rattle.std.specs.Prelude.{◌≡◌};
ghost use Rattle.sdd_script.specs.Places.{takes_rows, takes_txns, takes_statements, takes_lists, takes_classes, takes_reads, takes_writes, takes_events, is_ended, open_list, reads_at, writes_at};

use crate::open_list::{self, OpenList, no_classes, reads_in, writes_in};
use sdd_lang::{Name, ReadPart, TmNo};
use std::alloc::Global;

/// The name of a transaction and the module to which it is given.
#[derive(Drop)]
pub struct Header {
    pub name: Name,
    pub tm: TmNo,
}

/// Where a reading stands in the order of the lines.
#[derive(Drop)]
pub enum Place {
    /// Among the rows.
    Rows,
    /// Inside a transaction.
    Inside(Header),
    /// After a transaction.
    Between,
    /// Inside a class list.
    Listing(OpenList),
    /// After a class list.
    Declared,
    /// After an event.
    Events,
    /// After the line `end`.
    Ended,
}

impl Place {
    /// Whether a row may stand there.
    pub fn takes_rows(&self) -> bool
        ensures { result ≡ takes_rows self.now }
    {
        matches!(self, Place::Rows)
    }

    /// Whether a transaction may begin there.
    pub fn takes_txns(&self) -> bool
        ensures { result ≡ takes_txns self.now }
    {
        matches!(self, Place::Rows | Place::Between)
    }

    /// Whether a statement may stand there.
    pub fn takes_statements(&self) -> bool
        ensures { result ≡ takes_statements self.now }
    {
        matches!(self, Place::Inside(_))
    }

    /// Whether a class list may begin there.
    pub fn takes_lists(&self) -> bool
        ensures { result ≡ takes_lists self.now }
    {
        matches!(self, Place::Rows | Place::Between | Place::Declared)
    }

    /// Whether a class of a list may begin there.
    pub fn takes_classes(&self) -> bool
        ensures { result ≡ takes_classes self.now }
    {
        matches!(self, Place::Listing(_))
    }

    /// Whether a read of a class may stand there.
    pub fn takes_reads(&self) -> bool
        ensures { result ≡ takes_reads self.now }
    {
        match self {
            Place::Listing(list) => open_list::takes_reads(list),
            _ => false,
        }
    }

    /// Whether a write of a class may stand there.
    pub fn takes_writes(&self) -> bool
        ensures { result ≡ takes_writes self.now }
    {
        match self {
            Place::Listing(list) => open_list::takes_writes(list),
            _ => false,
        }
    }

    /// Whether an event or the line `end` may stand there.
    pub fn takes_events(&self) -> bool
        ensures { result ≡ takes_events self.now }
    {
        matches!(
            self,
            Place::Rows | Place::Between | Place::Declared | Place::Events
        )
    }

    /// Whether the line `end` stands before.
    pub fn is_ended(&self) -> bool
        ensures { result ≡ is_ended self.now }
    {
        matches!(self, Place::Ended)
    }

    /// The reads of the class that is open, none where none is.
    pub fn reads(&self) -> &[ReadPart]
        ensures { result.now ≡ reads_at self.now }
    {
        match self {
            Place::Listing(list) => reads_in(list),
            _ => &[],
        }
    }

    /// The fragments that the class that is open writes, none where none is.
    pub fn writes(&self) -> &[Name]
        ensures { result.now ≡ writes_at self.now }
    {
        match self {
            Place::Listing(list) => writes_in(list),
            _ => &[],
        }
    }

    /// The list that is open, one of no classes where none is. Takes no memory.
    pub fn into_list(self, alloc: Global) -> OpenList
        ensures { result ≡ open_list self }
    {
        match self {
            Place::Listing(list) => list,
            _ => no_classes(alloc),
        }
    }
}
