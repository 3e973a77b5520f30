//! A workload's transactions, as the test sees them.
use sdd_lang::Listed;
use sdd_robust_laws::Access;

/// What a transaction may read and change.
pub type Accesses = Listed<Access>;

/// A transaction.
#[derive(Drop)]
pub struct Member {
    /// Its place among the transactions of the workload, from 0.
    pub place: usize,
    pub accesses: Accesses,
}
