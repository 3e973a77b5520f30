use crate::listed::Listed;
use crate::no_memory::NoMemory;
use crate::number::{ClassNo, Ts};
use crate::parcel::Parcel;
use crate::usage::Frags;

/// A read condition: of the writes of the class that change one of the fragments, the reader sees exactly
/// those that are before the time.
#[derive(Drop, PartialEq, Eq)]
pub struct Cond {
    pub class: ClassNo,
    pub time: Ts,
    pub frags: Frags,
}

/// The conditions of a read at one data module, ascending by class.
pub type Conds = Listed<Cond>;

impl Parcel for Cond {
    fn copy(&self) -> Result<Self, NoMemory> {
        Ok(Cond {
            class: self.class,
            time: self.time,
            frags: self.frags.copy()?,
        })
    }
}
