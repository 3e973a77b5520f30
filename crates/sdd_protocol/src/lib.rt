//! The protocol table: which reads have to wait for which classes, and up to which time.
//!
//! The one contract to the layer above is the table of a catalogue, as `specs/Protocols.antt` defines it,
//! and the read conditions of an attempt, as `specs/Conditions.antt` defines them. What holds of all
//! tables stands in `specs/Laws.antt`.
#![tactic(auto)]

mod asked;
mod attempt;
mod condition;
mod diagonal_index;
mod entries;
mod entry;
mod law;
mod making;
mod protocol;
mod protocol_table;
mod undeclared_attempt;

pub use entry::Entry;
pub use law::{law_one_protocol, law_one_table};
pub use making::table;
pub use protocol::Protocol;
pub use protocol_table::Table;
pub use undeclared_attempt::undeclared_conds;
