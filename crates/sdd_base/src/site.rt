ghost use Rattle.std.proofs.Common.{rules};

use crate::exact::Exact;
use crate::no_memory::NoMemory;
use crate::number::{DmNo, TmNo};
use crate::parcel::Parcel;

/// A site of the network. The order of sites is U, then T by number, then D by number.
#[derive(Clone, Copy, PartialEq, Eq)]
pub enum Site {
    /// The module for undeclared transactions.
    U,
    /// A transaction module.
    T(TmNo),
    /// A data module.
    D(DmNo),
}

impl Exact for Site {
    ghost exact = { Prim.search rules };
}

impl Parcel for Site {
    fn copy(&self) -> Result<Self, NoMemory> {
        Ok(*self)
    }
}
