use crate::statement::Statements;
use sdd_base::{Name, NoMemory, Parcel, TmNo};

/// A transaction.
#[derive(Drop)]
pub struct Txn {
    pub name: Name,
    /// The module to which it is given.
    pub tm: TmNo,
    pub statements: Statements,
}

impl Parcel for Txn {
    fn copy(&self) -> Result<Self, NoMemory> {
        Ok(Txn {
            name: self.name.copy()?,
            tm: self.tm,
            statements: self.statements.copy()?,
        })
    }
}
