//! An attempt that is under way: how it begins, with its READs and their conditions, what it sends
//! and what it takes.
//!
//! The one contract to the layer above: `start_attempt` makes the Start that `start_act` of
//! `sdd_rules/specs/attempt/Acts.antt` defines, and each message that a `Running` sends or takes
//! changes its exchange as is defined there.
#![tactic(auto)]

mod begin;
mod queued;
mod reads;
mod running;
mod step;

pub use begin::start_attempt;
pub use queued::Queued;
pub use running::Running;
pub use step::LineStep;

// What lies below, for the crate above.
pub use sdd_exchange::Answer;
