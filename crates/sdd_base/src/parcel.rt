ghost use Rattle.std.specs.Prelude.{◌≡◌, IfOk};

use crate::no_memory::NoMemory;
use std::alloc::Global;

/// A value of which a copy can be made, where memory is there.
///
/// It stands in place of `Clone`, whose clause says nothing of the copy.
pub trait Parcel: Sized + Drop {
    /// A copy, which equals its source. Costs time and memory linear in the value.
    fn copy(&self) -> Result<Self, NoMemory>
        ensures { IfOk result (λ copy. copy ≡ self.now) };

    /// Copies of all these, in room for just so many. Costs what the copies cost.
    fn copy_all(alloc: Global, items: &[Self]) -> Result<Vec<Self>, NoMemory>
        ensures { IfOk result (λ copies. copies.items ≡ items.now) }
    {
        let mut copies = Vec::with_capacity(alloc, items.len())?;
        for item in items {
            copies.push(item.copy()?)?;
        }
        Ok(copies)
    }
}

impl Parcel for u8 {
    fn copy(&self) -> Result<Self, NoMemory> {
        Ok(*self)
    }

    /// Bytes are copied at once.
    fn copy_all(alloc: Global, items: &[Self]) -> Result<Vec<Self>, NoMemory> {
        let mut copies = Vec::with_capacity(alloc, items.len())?;
        copies.extend_from_slice(items)?;
        Ok(copies)
    }
}

impl Parcel for u32 {
    fn copy(&self) -> Result<Self, NoMemory> {
        Ok(*self)
    }
}

impl Parcel for u64 {
    fn copy(&self) -> Result<Self, NoMemory> {
        Ok(*self)
    }
}

impl Parcel for i64 {
    fn copy(&self) -> Result<Self, NoMemory> {
        Ok(*self)
    }
}

impl<A: Parcel, B: Parcel> Parcel for (A, B) {
    fn copy(&self) -> Result<Self, NoMemory> {
        Ok((self.0.copy()?, self.1.copy()?))
    }
}

impl<A: Parcel> Parcel for Option<A> {
    fn copy(&self) -> Result<Self, NoMemory> {
        match self {
            Some(a) => Ok(Some(a.copy()?)),
            None => Ok(None),
        }
    }
}
