//! No cycle of precedence: why a serial order always exists.
//!
//! The one contract to the layer above: where a history gives the core's facts
//! (`specs/Deeds.antt`), the catalogue in force and its table fit the transactions (`specs/Fits.antt`)
//! and eras follow one another, precedence has no cycle (`orderly_in_eras` in `proofs/Apart.antt`).
//! The laws here are about the core alone, over any transactions.
#![tactic(auto)]

mod law;

pub use law::{law_each_table, law_forests_leave_no_cycle, law_protocols_leave_no_cycle};
