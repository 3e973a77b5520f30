//! The union of the values that modules send for a reducer step: each value once, ascending.
//!
//! The one contract to the layer above: [`unite`] puts values in as `with_values` of `sdd_base` says,
//! and [`list_values`] lists them.
#![tactic(auto)]

mod union;

pub use union::{list_values, unite};
