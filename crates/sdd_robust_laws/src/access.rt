use sdd_lang::RelNo;

/// A column that a transaction may read or change, of the rows of one relation from one key to another.
#[derive(Clone, Copy)]
pub struct Access {
    pub rel: RelNo,
    /// The first and the last key, both within; the first isn't above the last.
    pub least: i64,
    pub greatest: i64,
    /// The column, counted from 1; 0 stands for all columns, and for whether there is a row.
    pub column: u32,
    /// Whether the column may be read.
    pub reads: bool,
    /// Whether the column may be changed, or, of all columns, rows may be put or deleted.
    pub changes: bool,
    /// Whether it is one row, which each run of the transaction changes that ends.
    pub sure: bool,
}
