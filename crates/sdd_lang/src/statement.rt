use crate::assign::Sets;
use crate::condition::{Conditions, Refs};
use sdd_base::{Listed, NoMemory, Parcel, RelNo, Row};

/// A statement of a transaction. It works on the database as it was when the transaction began.
#[derive(Drop)]
pub enum Stmt {
    /// The row stands at its key from then on.
    Put {
        rel: RelNo,
        row: Row,
    },
    /// Of each tuple of rows of the relations that meets the conditions, the listed columns.
    Query {
        out: Refs,
        rels: Rels,
        conds: Conditions,
    },
    /// Each row of the relation that meets the conditions is replaced.
    Update {
        rel: RelNo,
        sets: Sets,
        conds: Conditions,
    },
    /// Each row of the relation that meets the conditions is deleted.
    Delete {
        rel: RelNo,
        conds: Conditions,
    },
}

/// The relations of a query, in the order in which they stand after `from`.
pub type Rels = Listed<RelNo>;

/// The statements of a transaction, in order.
pub type Statements = Listed<Stmt>;

impl Parcel for Stmt {
    fn copy(&self) -> Result<Self, NoMemory> {
        match self {
            Stmt::Put { rel, row } => Ok(Stmt::Put {
                rel: *rel,
                row: row.copy()?,
            }),
            Stmt::Query { out, rels, conds } => Ok(Stmt::Query {
                out: out.copy()?,
                rels: rels.copy()?,
                conds: conds.copy()?,
            }),
            Stmt::Update { rel, sets, conds } => Ok(Stmt::Update {
                rel: *rel,
                sets: sets.copy()?,
                conds: conds.copy()?,
            }),
            Stmt::Delete { rel, conds } => Ok(Stmt::Delete {
                rel: *rel,
                conds: conds.copy()?,
            }),
        }
    }
}
