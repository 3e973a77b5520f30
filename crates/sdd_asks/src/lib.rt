//! The open ASKs of a class of a transaction module: which of them can be answered, and the time of
//! the NULL that answers one.
//!
//! The one contract to the layer above: each function does what one definition of
//! `specs/Asks.antt` says.
#![tactic(auto)]

mod asks;

pub use asks::{answer_time, answers, take_first};

// What lies below, for the crate above.
pub use sdd_rules::Asked;
