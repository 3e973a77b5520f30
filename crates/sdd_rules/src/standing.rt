use sdd_module::{ClassNo, Site, Ts};

/// How a site has a transaction.
#[derive(Clone, Copy)]
pub enum Standing {
    /// It isn't in a queue of the site.
    Absent,
    /// It waits in the queue of the class, at this place, counted from 1 without the transaction that
    /// is being served.
    Queued(ClassNo, u64),
    /// It is being served in the class. The timestamp is that of its active attempt, where that has
    /// started; the site is the lowest one from which a message is missing.
    Underway(ClassNo, Option<Ts>, Site),
}
