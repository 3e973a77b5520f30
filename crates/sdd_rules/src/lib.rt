//! What a site does by its log, as definitions: what it knows after each entry of the log, and what
//! is due of it then.
//!
//! The one contract to the layers above, which are the code of the sites and the theory of the log:
//! of each kind of site what it knows (`Views`), what is due (`Due`) and what a message has to meet
//! when it is handed to it (`Fits`), in `specs/dm`, `specs/tm` and `specs/umod`; and in
//! `specs/attempt` what T and U have alike. The three small types that these definitions name stand
//! here too.
#![tactic(auto)]

mod asked;
mod standing;
mod step;

pub use asked::Asked;
pub use standing::Standing;
pub use step::Step;

// What lies below, for the crates above.
pub use sdd_module::{
    Catalogue, Change, ClassNo, Clock, Conds, DmNo, Draft, Event, FragNo, Listed, Module, Msg,
    NoMemory, Outcome, Pages, Parcel, Rec, Row, Site, Spelling, Table, TmNo, Ts, Txn, TxnNo,
    class_for, table,
};
