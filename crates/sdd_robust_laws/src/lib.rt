//! Transactions that may run under snapshot isolation: definitions, and the law that the test is right.
//!
//! What a run under snapshot isolation with the rule of the first committer is, when a workload is
//! robust, and what a counterexample is: `specs/Runs.antt`. What a transaction may read and change:
//! `specs/Accesses.antt`. The test, by the accesses alone: `specs/Shown.antt`.
//!
//! The one contract to the layer above is a law (`specs/Theorems.antt`): a workload that passes the
//! test is robust.
#![tactic(auto)]

mod access;
mod law;

pub use access::Access;
pub use law::law_robust;
