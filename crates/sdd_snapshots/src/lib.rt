//! Snapshot isolation on one ordinary database: when it is enough.
//!
//! The one contract to the layer above is a law: where the protocol table of a catalogue has no P3,
//! transactions that run under snapshot isolation, of each class one at a time, have no cycle of
//! precedence (`specs/Theorems.antt`). No rule about two that change one item at once is needed.
#![tactic(auto)]

mod law;

pub use law::law_snapshots_leave_no_cycle;
