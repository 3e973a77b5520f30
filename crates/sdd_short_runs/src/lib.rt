//! Short runs of a workload's transactions under snapshot isolation: one begins, up to three others run
//! one after the other, and the first one ends.
//!
//! The one contract to the layer above: `find_counterexample` carries short runs out, and one that it
//! gives is like no serial run (`IsShortCounterexample` of `specs/ShortRuns.antt`).
//!
//! Where it gives none, of each pair of transactions that is tried (`tried_pairs` of `specs/Pairs.antt`)
//! not both commit in such a run, or some order of the two gives its replies (`IsExplainedPair` of
//! `specs/Found.antt`).
#![tactic(auto)]

mod candidates;
mod carrying;
mod finding;
mod near;
mod orders;
mod pairs;

pub use finding::{ShortRun, find_counterexample};
