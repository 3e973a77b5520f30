use sdd_base::{Listed, NoMemory, Parcel, Value};

/// What an update does to a column of each row that it replaces. Columns are counted from 1.
#[derive(Drop)]
pub enum Assign {
    /// `=`: the column gets the value.
    To { column: u32, value: Value },
    /// `+=`: the column gets its old value and this number, added up.
    Add { column: u32, by: i64 },
}

/// The assignments of an update, of which the later one to a column wins.
pub type Sets = Listed<Assign>;

impl Parcel for Assign {
    fn copy(&self) -> Result<Self, NoMemory> {
        match self {
            Assign::To { column, value } => Ok(Assign::To {
                column: *column,
                value: value.copy()?,
            }),
            Assign::Add { column, by } => Ok(Assign::Add {
                column: *column,
                by: *by,
            }),
        }
    }
}
