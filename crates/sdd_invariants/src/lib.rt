//! What holds of every permitted log, said of the logs of its sites at places of the one log.
//!
//! The one contract to the layer above: each invariant is the conclusion of a law function. First
//! what each act that is due at a site is (`steps_laws`), then what holds of the log of one site
//! that runs transactions (`invariants_laws`), of one data module (`processing_laws`), of U and
//! the transaction modules' holds (`holds_laws`); then, across sites, what is handed over and at
//! which place (`traffic_laws`), what a data module has seen (`seen_laws`), what each record has
//! as its cause (`records_laws`), and whether a transaction is before or after an undeclared one
//! (`barrier_laws`).
#![tactic(auto)]

pub mod barrier_laws;
pub mod holds_laws;
pub mod invariants_laws;
pub mod processing_laws;
pub mod records_laws;
pub mod seen_laws;
pub mod steps_laws;
pub mod traffic_laws;

// What lies below, for the crates above.
pub use sdd_log::{
    Catalogue, Change, ClassNo, Conds, DmNo, Event, FragNo, Listed, Msg, NoMemory, Packet, Packets,
    Pages, Parcel, Rec, Row, Site, Spelling, Table, TmNo, Ts, TxnNo, table,
};
