use crate::listed::Listed;
use crate::no_memory::NoMemory;
use crate::number::{FragNo, RelNo};
use crate::parcel::Parcel;
use crate::restriction::Restrictions;

/// Fragments. Where nothing else is said they ascend without repeats.
pub type Frags = Listed<FragNo>;

/// One use of a relation by a transaction: a relation named after `from`, an update or a delete.
#[derive(Drop, PartialEq, Eq)]
pub struct Use {
    /// Its number, counted from 1 through all statements of the transaction.
    pub number: u32,
    pub rel: RelNo,
    /// The fragments that hold a key allowed by the restrictions, ascending.
    pub frags: Frags,
    pub restrictions: Restrictions,
}

/// The uses of a transaction, by their numbers.
pub type Uses = Listed<Use>;

impl Parcel for Use {
    fn copy(&self) -> Result<Self, NoMemory> {
        Ok(Use {
            number: self.number,
            rel: self.rel,
            frags: self.frags.copy()?,
            restrictions: self.restrictions.copy()?,
        })
    }
}
