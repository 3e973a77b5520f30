//! What the module of the site U counts: of each transaction module the HOLDs, HELDs and RELEASEs,
//! and of the transaction that it served last the DONEs.
//!
//! The one contract to the layer above: a [`Serving`] and a [`TmCount`] are the `Served` and the
//! `TmCounts` of `sdd_rules/specs/umod/Views.antt`, and each function does what one definition of
//! `specs/` says.
#![tactic(auto)]

mod serving;
mod tm_count;

pub use serving::Serving;
pub use tm_count::{
    Sign, TmCount, all_hold, all_missing, any_asked_to_hold, any_on_hold, count, first_free,
    first_missing, first_on_hold,
};
