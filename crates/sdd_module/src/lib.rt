//! What a site does by itself, as a log of it.
//!
//! The one contract to the layer above: a `Module` represents the log of all that was handed to
//! its site and all that the site did, and a call makes exactly the acts that are due, one after
//! the other, until none is. `Draft` gathers what a call records and sends. `specs/Making.antt`
//! and `proofs/Does.antt` carry the loop of a call from a module's state to its log.
#![tactic(auto)]

mod draft;
mod module;

pub use draft::Draft;
pub use module::Module;

// What lies below, for the crates above.
pub use sdd_history::{PrintedReply, Rec};
pub use sdd_lang::{
    Catalogue, Change, Changes, ClassNo, Clock, Cond, Conditions, Conds, DmNo, Effect, Event,
    FragNo, Frags, Listed, NoMemory, Pages, Parcel, Ref, RelNo, Row, Site, Stmt, TmNo, Ts, Txn,
    TxnNo, Use, Uses, Value, class_for, key_of, law_rows_make_database, read_set, uses,
};
pub use sdd_protocol::{Table, table, undeclared_conds};
pub use sdd_wire::{Msg, Outcome, Spelling, UseCounts, UseRows, ValueList};
