//! The attempts of a site that runs transactions, as T and U make them alike: queues, and how an
//! attempt begins, goes on and commits.
//!
//! The one contract to the layer above: what is known of each of these is a function of the
//! site's log, and changes with each entry as its definition says. A `Line` keeps it for one class.
#![tactic(auto)]

mod commit;
mod line;
mod writes;

pub use line::Line;

// What lies below, for the crates above.
pub use sdd_module::{
    Catalogue, Change, ClassNo, Clock, Conds, DmNo, Draft, Event, FragNo, Listed, Module, Msg,
    NoMemory, Outcome, Pages, Parcel, Rec, Row, Site, Spelling, Table, TmNo, Ts, Txn, TxnNo,
    class_for, table,
};
pub use sdd_rules::Standing;
pub use sdd_running::{Answer, LineStep};
