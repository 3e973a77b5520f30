//! The text of a report on a run: its records, the serial order, the replies along the order, what was
//! shipped, the transactions that are pending, and the copies.
//!
//! The one contract to the layer above: `report_pages` gives exactly `report_text` of
//! `specs/Report.antt`, which is a function of the values that a `Report` holds, each of whose lines is
//! one definition of `specs/`.
#![tactic(auto)]

mod committed;
mod copies;
mod names;
mod pending;
mod replies;
mod report;
mod trace;
mod words;

pub use copies::{CopyTable, CopyTables};
pub use pending::{Pending, Waiting, Why, under_way};
pub use replies::put_reply;
pub use report::{Report, report_pages};
