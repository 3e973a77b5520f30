//! The report on a run is verified: `verify` finds no fault in it.
//!
//! The contracts to the layer above are laws: `law_verified`, which joins the report on a run of
//! `sdd_run` to the verdict of `sdd_verify`; `law_pending_lines`, which of its lines are of pending
//! transactions; `law_one_text`, what can be read from its text; and of summaries `law_all_committed` and `law_made_all_committed`.
#![tactic(auto)]

mod law;
mod pending_law;
mod summary_law;
mod text_law;

pub use law::law_verified;
pub use pending_law::law_pending_lines;
pub use summary_law::{law_all_committed, law_made_all_committed};
pub use text_law::law_one_text;

// What lies below, for the crates above.
pub use sdd_run::{
    Workload, WorldEnd, bank, law_workload_allowed, run_report, run_summary, workload,
};
