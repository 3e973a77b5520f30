//! Histories of small workloads that keep the laws, and one that breaks the law of read conditions
//! alone.
//!
//! The one contract to the layer above: the laws can be kept, also where transactions wait, start
//! again, follow one another in a class, run undeclared or under a further class list; and without
//! read conditions there need not be a serial order. No program has to call these functions.
#![tactic(auto)]

mod law;
mod tables;

pub use law::{
    law_conditions_needed, law_one_after_other, law_reads_before, law_redeclares, law_runs_alone,
    law_starts_again, law_waits_at_two, law_waits_for_other,
};
pub use tables::law_tables;
