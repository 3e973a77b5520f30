//! The report on a run is complete: its order names each transaction whose commit it tells.
//!
//! The one contract to the layer above is a law, `law_run_complete`, which joins the report on a run
//! of `sdd_run` to what `sdd_certify` finds.
#![tactic(auto)]

mod law;

pub use law::law_run_complete;
