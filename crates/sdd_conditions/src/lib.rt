//! What the conditions of a READ ask of the pipes of a data module: whether they are met, which of
//! them a WRITE has spoilt, and which WRITEs they hold back.
//!
//! The one contract to the layer above are the definitions of `specs/Conditions.antt`; each function
//! is one of them.
#![tactic(auto)]

mod conditions;
mod holding;

pub use conditions::{all_met, first_unmet, lacks_at, last_write, place_unmet, spoiler, unmet};
pub use holding::any_holds;
