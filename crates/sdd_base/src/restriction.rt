ghost use Rattle.std.specs.Prelude.{◌≡◌};
ghost use Rattle.std.proofs.Common.{rules};
ghost use Rattle.sdd_base.specs.Order.{admits};

use crate::exact::Exact;
use crate::listed::Listed;
use crate::no_memory::NoMemory;
use crate::parcel::Parcel;
use crate::value::Value;
use std::cmp::Ordering;

/// How a column is compared with a value.
#[derive(Clone, Copy, PartialEq, Eq)]
pub enum Op {
    /// `=`
    Eq,
    /// `!=`
    Ne,
    /// `<`
    Lt,
    /// `<=`
    Le,
    /// `>`
    Gt,
    /// `>=`
    Ge,
}

impl Op {
    /// Whether the operator admits this outcome of the comparison of a column with a constant.
    pub fn admits(self, outcome: Ordering) -> bool
        ensures { result ≡ admits self outcome }
    {
        match self {
            Op::Eq => outcome.is_eq(),
            Op::Ne => outcome.is_ne(),
            Op::Lt => outcome.is_lt(),
            Op::Le => outcome.is_le(),
            Op::Gt => outcome.is_gt(),
            Op::Ge => outcome.is_ge(),
        }
    }
}

/// A condition of a use that compares one of its columns with a constant of the column's kind.
#[derive(Drop, PartialEq, Eq)]
pub struct Restriction {
    /// The column, counted from 1.
    pub column: u32,
    pub op: Op,
    pub value: Value,
}

/// The restrictions of a use, in the order of the statement's conditions.
pub type Restrictions = Listed<Restriction>;

impl Exact for Op {
    ghost exact = { Prim.search rules };
}

impl Parcel for Op {
    fn copy(&self) -> Result<Self, NoMemory> {
        Ok(*self)
    }
}

impl Parcel for Restriction {
    fn copy(&self) -> Result<Self, NoMemory> {
        Ok(Restriction {
            column: self.column,
            op: self.op,
            value: self.value.copy()?,
        })
    }
}
