use crate::no_memory::NoMemory;
use crate::parcel::Parcel;
use crate::value::Answers;

/// What a transaction answers to the user.
#[derive(Drop)]
pub enum Reply {
    /// The answers of its queries, in order.
    Rows(Answers),
    /// A sum of an update leaves the range of a whole number. Nothing is changed.
    Overflow,
    /// The answers have more than 4,096 rows together. Nothing is changed.
    TooMany,
}

impl Parcel for Reply {
    fn copy(&self) -> Result<Self, NoMemory> {
        match self {
            Reply::Rows(answers) => Ok(Reply::Rows(answers.copy()?)),
            Reply::Overflow => Ok(Reply::Overflow),
            Reply::TooMany => Ok(Reply::TooMany),
        }
    }
}
