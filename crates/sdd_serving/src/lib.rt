//! The exchange serves: the rows that an attempt's modules ship are enough to compute what its
//! transaction does to the database of its snapshots.
//!
//! The one contract to the layer above: whatever steps were made, and however far the last one is,
//! the rows that are held serve the database that has the copies read (`law_exchange_serves`), so
//! the effect computed from them is the effect on it (`law_shipped_effect`); and the exchange of
//! an attempt makes only such steps (`law_exchange_follows`).
#![tactic(auto)]

mod law;

pub use law::{law_arrival, law_exchange_follows, law_exchange_serves, law_shipped_effect};
