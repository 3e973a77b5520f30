use sdd_base::{NoMemory, Parcel};
use std::alloc::{AllocError, AllocFailed};
use thiserror::Error;

/// A fault of a catalogue: the rule that is broken, and where.
#[derive(Clone, Copy, Debug, PartialEq, Eq)]
pub struct CatFault {
    pub rule: CatRule,
    pub part: Part,
    /// The number of the relation, fragment or class, or 0 at the top.
    pub number: usize,
}

/// The kind of part at which a fault is reported.
#[derive(Clone, Copy, Debug, PartialEq, Eq)]
pub enum Part {
    Top,
    Relation,
    Fragment,
    Class,
}

/// The rules that a catalogue may break.
#[derive(Clone, Copy, Debug, PartialEq, Eq)]
pub enum CatRule {
    /// There are more than the limit.
    TooMany(Counted),
    /// The name, or the number of a copy, stands before.
    DuplicateName,
    /// There is nothing of this name or number.
    UnknownName,
    /// The key isn't a column of whole numbers.
    BadKey,
    /// Some keys are in no fragment of the relation.
    RangeGap,
    /// Some keys are in two fragments of the relation.
    RangeOverlap,
    /// The fragment has no copy.
    NoCopy,
    /// The class reads a fragment at a module that has no copy of it.
    ReadsWhereNoCopy,
    /// The bytes aren't TOML.
    NotToml,
    /// A field that may not be absent is absent.
    MissingField,
    /// A field has another kind or shape.
    WrongKind,
    /// A table has a field that it can't have.
    UnknownField,
    /// The file has more bytes than the limit.
    TooLong,
    /// There is none.
    TooFew(Counted),
}

/// What there are too many or too few of.
#[derive(Clone, Copy, Debug, PartialEq, Eq)]
pub enum Counted {
    Tm,
    Dm,
    Relation,
    Column,
    Fragment,
    Class,
    Read,
}

/// Why there is no catalogue.
#[derive(Debug, Drop, Error)]
pub enum CatError {
    /// The first fault.
    #[error("the catalogue has a fault")]
    Fault(CatFault),
    /// Out of memory.
    #[error("no memory")]
    NoMemory,
}

impl From<AllocError> for CatError {
    ghost use Rattle.std.specs.Prelude.{◌≡◌};
    ghost use Rattle.sdd_catalog.specs.declared.fault.CatError.TheVariants.{NoMemory};

    ghost from_gives = { λ _ e. e ≡ NoMemory };

    fn from(_error: AllocError) -> Self {
        CatError::NoMemory
    }
}

impl<T: Drop> From<AllocFailed<T>> for CatError {
    ghost use Rattle.std.specs.Prelude.{◌≡◌};
    ghost use Rattle.sdd_catalog.specs.declared.fault.CatError.TheVariants.{NoMemory};

    ghost from_gives = { λ _ e. e ≡ NoMemory };

    fn from(_error: AllocFailed<T>) -> Self {
        CatError::NoMemory
    }
}

impl From<NoMemory> for CatError {
    ghost use Rattle.std.specs.Prelude.{◌≡◌};
    ghost use Rattle.sdd_catalog.specs.declared.fault.CatError.TheVariants.{NoMemory};

    ghost from_gives = { λ _ e. e ≡ NoMemory };

    fn from(_error: NoMemory) -> Self {
        CatError::NoMemory
    }
}

impl Parcel for CatFault {
    fn copy(&self) -> Result<Self, NoMemory> {
        Ok(*self)
    }
}
