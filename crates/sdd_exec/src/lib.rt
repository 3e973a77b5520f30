//! Joins, and the effect of a transaction, computed from the rows that were shipped for its uses.
//!
//! The one contract to the layer above: `join` answers what the product of the parts' rows defines
//! (`sdd_lang/specs/Query.antt`), through an index, part by part; where there are many choices by a
//! search that looks ahead (`specs/Exploring.antt` says what it finds), and where that takes too
//! long by sieves (`specs/Sifting.antt` says what has to be kept); and on every database that a
//! `Snapshot` serves (`sdd_shipped/specs/Serves.antt`), `effect` is the plain meaning of the transaction
//! (`sdd_lang/specs/Effect.antt`).
#![tactic(auto)]

mod choice;
mod exploring;
mod found;
mod from_rows;
mod index;
mod joins;
mod known;
mod links;
mod matched;
mod order;
mod parts;
mod plan;
mod sieve;
mod sifting;
mod snapshot;
mod source;
mod tie;

pub use from_rows::{effect, law_one_effect};
pub use joins::join;
pub use parts::Parts;
pub use snapshot::Snapshot;
