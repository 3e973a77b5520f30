//! Certifying a report, whoever wrote it: whether its order is serializable, names all whose commit is
//! told, and keeps what was over before what began later.
//!
//! The one contract to the layer above: `certify` gives exactly the text of `specs/Certificate.antt`.
//! What its lines mean stands in laws: a report is complete, and strict, exactly where
//! `specs/Kept.antt` says so (`law_complete`, `law_strict`); a line that is expected stands in each
//! report that is verified and has the same lines before it (`law_expected`).
#![tactic(auto)]

mod bytes;
mod certificate;
mod complete;
mod due;
mod finding;
mod laws;
mod lines;
mod names;
mod pieces;
mod replies;
mod strict;
mod words;

pub use certificate::certify;
pub use laws::{law_complete, law_expected, law_strict};
pub use pieces::{law_in_parts, law_two_reports};

// What lies below, for the crates above.
pub use sdd_script::Workload;
pub use sdd_verify::MAX_REPORT_BYTES;
