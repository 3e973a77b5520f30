use sdd_base::{Listed, NoMemory, Op, Parcel, Value};

/// A column of a statement's relation.
#[derive(Clone, Copy)]
pub struct Ref {
    /// The place of the relation after `from`, counted from 1; 1 in an update or delete.
    pub part: u32,
    /// The column, counted from 1.
    pub column: u32,
}

/// Columns, in the order in which a query lists them.
pub type Refs = Listed<Ref>;

/// What rows have to meet.
#[derive(Drop)]
pub enum Condition {
    /// The column is compared with a constant.
    Const { left: Ref, op: Op, value: Value },
    /// The columns are equal.
    Same { left: Ref, right: Ref },
}

/// Conditions that are joined by `and`.
pub type Conditions = Listed<Condition>;

impl Parcel for Ref {
    fn copy(&self) -> Result<Self, NoMemory> {
        Ok(*self)
    }
}

impl Parcel for Condition {
    fn copy(&self) -> Result<Self, NoMemory> {
        match self {
            Condition::Const { left, op, value } => Ok(Condition::Const {
                left: *left,
                op: *op,
                value: value.copy()?,
            }),
            Condition::Same { left, right } => Ok(Condition::Same {
                left: *left,
                right: *right,
            }),
        }
    }
}
