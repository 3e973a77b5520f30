ghost use Rattle.std.proofs.Common.{rules};

use sdd_base::{Exact, Listed, Name, NoMemory, Parcel};

/// The parts of a catalogue, as they are written down: they name each other.
#[derive(Drop)]
pub struct Parts {
    /// How many transaction modules there are.
    pub tms: u32,
    /// How many data modules there are.
    pub dms: u32,
    pub relations: RelationParts,
    pub fragments: FragmentParts,
    pub classes: ClassParts,
}

/// Relations, which are numbered from 1 in this order.
pub type RelationParts = Listed<RelationPart>;

/// Fragments, which are numbered from 1 in this order.
pub type FragmentParts = Listed<FragmentPart>;

/// Classes, which are numbered from 1 in this order.
pub type ClassParts = Listed<ClassPart>;

/// A relation.
#[derive(Drop)]
pub struct RelationPart {
    pub name: Name,
    pub columns: ColumnParts,
    /// The column that holds the key.
    pub key: Name,
}

/// Columns, which are numbered from 1 in this order.
pub type ColumnParts = Listed<ColumnPart>;

/// A column of a relation.
#[derive(Drop)]
pub struct ColumnPart {
    pub name: Name,
    pub kind: Kind,
}

/// What the values of a column are.
#[derive(Clone, Copy, PartialEq, Eq)]
pub enum Kind {
    /// Whole numbers.
    Int,
    /// Texts.
    Text,
}

/// A fragment: the rows of a relation whose keys lie in a range, both ends within.
#[derive(Drop)]
pub struct FragmentPart {
    pub name: Name,
    pub relation: Name,
    pub from: i64,
    pub to: i64,
    /// The data modules that have a copy.
    pub copies: CopyNos,
}

/// Numbers of data modules.
pub type CopyNos = Listed<u32>;

/// A class of transactions.
#[derive(Drop, PartialEq, Eq)]
pub struct ClassPart {
    pub name: Name,
    /// The transaction module that runs it.
    pub tm: u32,
    pub reads: ReadParts,
    /// The fragments that it writes.
    pub writes: Names,
}

/// The reads of a class.
pub type ReadParts = Listed<ReadPart>;

/// Names of fragments.
pub type Names = Listed<Name>;

/// A fragment that a class reads, and the data module at which it reads it.
#[derive(Drop, PartialEq, Eq)]
pub struct ReadPart {
    pub fragment: Name,
    pub at: u32,
}

impl Exact for Kind {
    ghost exact = { Prim.search rules };
}

impl Parcel for Kind {
    fn copy(&self) -> Result<Self, NoMemory> {
        Ok(*self)
    }
}

impl Parcel for ColumnPart {
    fn copy(&self) -> Result<Self, NoMemory> {
        Ok(ColumnPart {
            name: self.name.copy()?,
            kind: self.kind,
        })
    }
}

impl Parcel for RelationPart {
    fn copy(&self) -> Result<Self, NoMemory> {
        Ok(RelationPart {
            name: self.name.copy()?,
            columns: self.columns.copy()?,
            key: self.key.copy()?,
        })
    }
}

impl Parcel for FragmentPart {
    fn copy(&self) -> Result<Self, NoMemory> {
        Ok(FragmentPart {
            name: self.name.copy()?,
            relation: self.relation.copy()?,
            from: self.from,
            to: self.to,
            copies: self.copies.copy()?,
        })
    }
}

impl Parcel for ReadPart {
    fn copy(&self) -> Result<Self, NoMemory> {
        Ok(ReadPart {
            fragment: self.fragment.copy()?,
            at: self.at,
        })
    }
}

impl Parcel for ClassPart {
    fn copy(&self) -> Result<Self, NoMemory> {
        Ok(ClassPart {
            name: self.name.copy()?,
            tm: self.tm,
            reads: self.reads.copy()?,
            writes: self.writes.copy()?,
        })
    }
}

impl Parcel for Parts {
    fn copy(&self) -> Result<Self, NoMemory> {
        Ok(Parts {
            tms: self.tms,
            dms: self.dms,
            relations: self.relations.copy()?,
            fragments: self.fragments.copy()?,
            classes: self.classes.copy()?,
        })
    }
}
