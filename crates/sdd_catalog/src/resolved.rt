ghost use Rattle.std.proofs.Common.{rules};

use crate::parts::Kind;
use sdd_base::{DmNo, Exact, FragNo, Frags, Listed, Name, NoMemory, Parcel, RelNo, TmNo};

/// A column of a relation.
#[derive(Drop)]
pub struct Column {
    pub name: Name,
    pub kind: Kind,
}

/// The columns of a relation, which are numbered from 1.
pub type Columns = Listed<Column>;

/// A relation.
#[derive(Drop)]
pub struct Relation {
    pub name: Name,
    pub columns: Columns,
    /// The number of the column that holds the key, from 1.
    pub key: u32,
}

/// The relations of a catalogue, which are numbered from 1.
pub type Relations = Listed<Relation>;

/// A fragment: the rows of a relation whose keys lie in a range, both ends within.
#[derive(Drop)]
pub struct Fragment {
    pub name: Name,
    /// Its relation.
    pub rel: RelNo,
    pub least: i64,
    pub greatest: i64,
    pub copies: Copies,
}

/// The data modules that have a copy of a fragment, in the order in which they were written down.
pub type Copies = Listed<DmNo>;

/// The fragments of a catalogue, which are numbered from 1.
pub type Fragments = Listed<Fragment>;

/// A class of transactions.
#[derive(Drop)]
pub struct Class {
    pub name: Name,
    /// The transaction module that runs it.
    pub tm: TmNo,
    pub reads: Reads,
    /// The fragments that it writes, in the order in which they were written down.
    pub writes: Frags,
}

/// A fragment that a class reads, and the data module at which it reads it.
#[derive(Clone, Copy, PartialEq, Eq)]
pub struct Read {
    pub fragment: FragNo,
    pub at: DmNo,
}

/// The reads of a class, in the order in which they were written down.
pub type Reads = Listed<Read>;

/// The classes of a catalogue, which are numbered from 1.
pub type Classes = Listed<Class>;

impl Exact for Read {
    ghost exact = { Prim.search rules };
}

impl Parcel for Read {
    fn copy(&self) -> Result<Self, NoMemory> {
        Ok(*self)
    }
}

impl Parcel for Column {
    fn copy(&self) -> Result<Self, NoMemory> {
        Ok(Column {
            name: self.name.copy()?,
            kind: self.kind,
        })
    }
}

impl Parcel for Relation {
    fn copy(&self) -> Result<Self, NoMemory> {
        Ok(Relation {
            name: self.name.copy()?,
            columns: self.columns.copy()?,
            key: self.key,
        })
    }
}

impl Parcel for Fragment {
    fn copy(&self) -> Result<Self, NoMemory> {
        Ok(Fragment {
            name: self.name.copy()?,
            rel: self.rel,
            least: self.least,
            greatest: self.greatest,
            copies: self.copies.copy()?,
        })
    }
}

impl Parcel for Class {
    fn copy(&self) -> Result<Self, NoMemory> {
        Ok(Class {
            name: self.name.copy()?,
            tm: self.tm,
            reads: self.reads.copy()?,
            writes: self.writes.copy()?,
        })
    }
}
