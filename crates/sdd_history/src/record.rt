use crate::printed::PrintedReply;
use sdd_base::{Changes, ClassNo, Conds, DmNo, Listed, Ts, TxnNo, Uses};

/// What a site records. Attempts of a transaction are counted from 1.
#[derive(Drop)]
pub enum Rec {
    /// A transaction is given to its module.
    Submit(TxnNo),
    /// An attempt of a transaction begins in its class, with this timestamp.
    Start {
        txn: TxnNo,
        attempt: u64,
        class: ClassNo,
        ts: Ts,
        /// The time up to which protocol P2 asks; an undeclared attempt has none.
        p2: Option<Ts>,
        /// What the transaction reads.
        uses: Uses,
    },
    /// The READ of an attempt has come to a data module.
    Arrive {
        txn: TxnNo,
        attempt: u64,
        dm: DmNo,
    },
    /// The READ waits there until these conditions are met.
    Wait {
        txn: TxnNo,
        attempt: u64,
        dm: DmNo,
        conds: Conds,
    },
    /// The READ is answered there: the rows of its uses are frozen.
    Answer {
        txn: TxnNo,
        attempt: u64,
        dm: DmNo,
    },
    /// The READ is rejected there: a WRITE of the class with this timestamp, which one of its
    /// conditions puts after it, has been processed.
    Reject {
        txn: TxnNo,
        attempt: u64,
        dm: DmNo,
        class: ClassNo,
        ts: Ts,
    },
    /// The attempt commits.
    Commit {
        txn: TxnNo,
        attempt: u64,
        reply: PrintedReply,
        changes: Changes,
        /// How many values were sent for it, in VALUES and in REDUCE messages.
        values: u128,
        /// How many rows were sent for it, in ROWS messages.
        rows: u128,
    },
    /// The WRITE of a transaction is applied to the copies of a data module.
    Apply {
        txn: TxnNo,
        class: ClassNo,
        dm: DmNo,
        ts: Ts,
    },
    /// A NULL of a class is processed at a data module.
    Pass {
        class: ClassNo,
        dm: DmNo,
        time: Ts,
    },
    /// An event found nothing to do.
    Nothing,
}

/// Records, in the order in which they were made.
pub type Recs = Listed<Rec>;
