//! What the modules require of calls: on every lawful log, the message that is handed over next,
//! the transaction that is submitted next and the next tick fit the module to which they go.
//!
//! The one contract to the layer above: all of it holds, so that a world can make the call
//! (`law_obligations` of `obligations_laws`). It stands on the exchange of an attempt with a data module, which goes by turns
//! (`dialogue_laws`), on the databases of snapshots and the changes of WRITEs (`effects_laws`), on
//! the rows that are frozen, shipped and serve (`shipped_laws`, `served_laws`), and on bounds of
//! clocks and times (`clocks_laws`).
#![tactic(auto)]

pub mod clocks_laws;
pub mod dialogue_laws;
pub mod effects_laws;
pub mod obligations_laws;
pub mod served_laws;
pub mod shipped_laws;

// What lies below, for the crates above.
pub use sdd_invariants::{
    Catalogue, Change, ClassNo, Conds, DmNo, Event, FragNo, Listed, Msg, NoMemory, Packet, Packets,
    Pages, Parcel, Rec, Row, Site, Spelling, Table, TmNo, Ts, TxnNo, table,
};
pub use sdd_laws::{Copies, serial_order};
