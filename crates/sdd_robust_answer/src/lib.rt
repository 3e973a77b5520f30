//! The answer whether the transactions of a workload may run under snapshot isolation.
//!
//! The one contract to the layer above: `robust_work_text` gives a text that answers truly
//! (`IsRobustAnswer` of `specs/Answers.antt`).
#![tactic(auto)]

mod answer;
mod lines;

pub use answer::robust_work_text;
