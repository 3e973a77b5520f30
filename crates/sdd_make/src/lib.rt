//! Made input: the bank's catalogue, a workload that is made from a seed, and the summary of its run.
//!
//! What the layer above gets: `bank` is the catalogue `bank` of `specs/Bank.antt`, `workload` exactly
//! `workload_of` of `specs/Turns.antt`, whose numbers are drawn one after the other as
//! `specs/Draws.antt` says, and which the bank allows (`law_workload_allowed`); `make` gives their
//! files (`specs/Files.antt`). `summary_of` counts the records of a history, and `summary_text` is the
//! text of the counts (`specs/Summary.antt`).
#![tactic(auto)]

mod catalogue;
mod files;
mod law;
mod naming;
mod random;
mod statements;
mod summary;
mod turns;

pub use catalogue::bank;
pub use files::{Made, make};
pub use law::law_workload_allowed;
pub use summary::{Summary, summary_of, summary_text};
pub use turns::workload;
