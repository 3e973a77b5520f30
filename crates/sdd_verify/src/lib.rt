//! Judging a report against one plain database, whoever wrote it.
//!
//! The one contract to the layer above: `verify` gives exactly `verdict` of `specs/Verdict.antt`, which
//! goes through the rules in their order, and a verdict is Yes exactly where the report is verified, as
//! `specs/Verified.antt` says in terms of one plain database alone (`law_yes`).
#![tactic(auto)]

mod classes;
mod flaw;
mod judging;
mod laws;
mod limits;
mod lines;
mod order;
mod order_line;
mod passing;
mod replies;
mod submitted;
mod verdict;

pub use judging::verify;
pub use laws::law_yes;
pub use limits::MAX_REPORT_BYTES;
pub use verdict::Verdict;
