use sdd_base::{
    Changes, ClassNo, Conds, Listed, NoMemory, Page, Parcel, Row, Ts, TxnNo, Uses, Value,
};

/// How many rows are held for each use, by the uses' numbers.
pub type UseCounts = Listed<(u32, u64)>;

/// Values of a column, ascending and without repeats.
pub type ValueList = Listed<Value>;

/// Rows, each with the number of the use that it is held for: by use, and then by key.
pub type UseRows = Listed<(u32, Row)>;

/// The bytes that spell one message. Copies share them.
pub type Spelling = Page;

/// A message from one site to another. `ts` is the timestamp of the attempt that it concerns, and
/// `class` the class of that attempt. READ, WRITE and NULL go through the pipe of their class at
/// a data module.
#[derive(Drop)]
pub enum Msg {
    /// To a data module: freeze the rows of these uses, once the conditions are met.
    Read {
        ts: Ts,
        class: ClassNo,
        txn: TxnNo,
        attempt: u64,
        conds: Conds,
        uses: Uses,
    },
    /// The READ is answered: so many rows are held for each of its uses.
    Ready {
        ts: Ts,
        class: ClassNo,
        counts: UseCounts,
    },
    /// The READ comes too late: class `by` has had a WRITE at time `write`.
    Reject {
        ts: Ts,
        class: ClassNo,
        by: ClassNo,
        write: Ts,
    },
    /// To a data module: send the values of a column of the rows of a use. Columns are counted
    /// from 1.
    Fetch {
        ts: Ts,
        class: ClassNo,
        use_no: u32,
        column: u32,
    },
    /// The distinct values that FETCH asks for.
    Values {
        ts: Ts,
        class: ClassNo,
        use_no: u32,
        values: ValueList,
    },
    /// To a data module: of the rows of a use keep those whose column is among the values.
    Reduce {
        ts: Ts,
        class: ClassNo,
        use_no: u32,
        column: u32,
        values: ValueList,
    },
    /// So many rows of the use are left after REDUCE.
    Reduced {
        ts: Ts,
        class: ClassNo,
        use_no: u32,
        count: u64,
    },
    /// To a data module: send all rows that are held, and give them up.
    Ship {
        ts: Ts,
        class: ClassNo,
    },
    /// The rows that SHIP asks for.
    Rows {
        ts: Ts,
        class: ClassNo,
        rows: UseRows,
    },
    /// To a data module: what the transaction changes there.
    Write {
        ts: Ts,
        class: ClassNo,
        txn: TxnNo,
        changes: Changes,
    },
    /// To a data module: what the class still sends there has a time of at least `time`.
    Null {
        class: ClassNo,
        time: Ts,
    },
    /// To a transaction module: send a NULL of the class once it can have this time or a later one.
    Ask {
        class: ClassNo,
        time: Ts,
    },
    /// To a transaction module: let what is under way end, and start nothing.
    Hold,
    /// The module holds; its next timestamp is above this time.
    Held {
        time: Ts,
    },
    /// The WRITE of an undeclared transaction is applied.
    Done {
        ts: Ts,
    },
    /// To a transaction module: the hold is over; the next timestamp is to be above this one.
    Release {
        ts: Ts,
    },
}
