use crate::listed::Listed;
use crate::no_memory::NoMemory;
use crate::number::FragNo;
use crate::parcel::Parcel;
use crate::value::Row;

/// What a transaction makes of one item, which is a fragment and a key.
#[derive(Drop, PartialEq, Eq)]
pub struct Change {
    pub frag: FragNo,
    pub key: i64,
    /// The new row, or None where the item is deleted.
    pub row: Option<Row>,
}

/// The changes of a transaction, ascending by fragment and then by key, one for each item.
pub type Changes = Listed<Change>;

impl Parcel for Change {
    fn copy(&self) -> Result<Self, NoMemory> {
        Ok(Change {
            frag: self.frag,
            key: self.key,
            row: self.row.copy()?,
        })
    }
}
