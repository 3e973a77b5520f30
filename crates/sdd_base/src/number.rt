ghost use Rattle.std.proofs.Common.{rules};

use crate::exact::Exact;
use crate::no_memory::NoMemory;
use crate::parcel::Parcel;

/// The number of a transaction module, from 1 to 16.
#[derive(Clone, Copy, PartialEq, Eq)]
pub struct TmNo(pub u8);

impl Exact for TmNo {
    ghost exact = { Prim.search rules };
}

impl Parcel for TmNo {
    fn copy(&self) -> Result<Self, NoMemory> {
        Ok(*self)
    }
}

/// The number of a data module, from 1 to 16.
#[derive(Clone, Copy, PartialEq, Eq)]
pub struct DmNo(pub u8);

impl Exact for DmNo {
    ghost exact = { Prim.search rules };
}

impl Parcel for DmNo {
    fn copy(&self) -> Result<Self, NoMemory> {
        Ok(*self)
    }
}

/// The number of a transaction class, counted from 1. Class 0 stands for undeclared transactions.
#[derive(Clone, Copy, PartialEq, Eq)]
pub struct ClassNo(pub u32);

impl Exact for ClassNo {
    ghost exact = { Prim.search rules };
}

impl Parcel for ClassNo {
    fn copy(&self) -> Result<Self, NoMemory> {
        Ok(*self)
    }
}

/// The number of a relation, counted from 1.
#[derive(Clone, Copy, PartialEq, Eq)]
pub struct RelNo(pub u32);

impl Exact for RelNo {
    ghost exact = { Prim.search rules };
}

impl Parcel for RelNo {
    fn copy(&self) -> Result<Self, NoMemory> {
        Ok(*self)
    }
}

/// The number of a fragment, counted from 1.
#[derive(Clone, Copy, PartialEq, Eq)]
pub struct FragNo(pub u32);

impl Exact for FragNo {
    ghost exact = { Prim.search rules };
}

impl Parcel for FragNo {
    fn copy(&self) -> Result<Self, NoMemory> {
        Ok(*self)
    }
}

/// The number of a transaction, counted from 1.
#[derive(Clone, Copy, PartialEq, Eq)]
pub struct TxnNo(pub u32);

impl Exact for TxnNo {
    ghost exact = { Prim.search rules };
}

impl Parcel for TxnNo {
    fn copy(&self) -> Result<Self, NoMemory> {
        Ok(*self)
    }
}

/// A timestamp or another time: `clock * 64 + number of the module`.
#[derive(Clone, Copy, PartialEq, Eq)]
pub struct Ts(pub u64);

impl Exact for Ts {
    ghost exact = { Prim.search rules };
}

impl Parcel for Ts {
    fn copy(&self) -> Result<Self, NoMemory> {
        Ok(*self)
    }
}
