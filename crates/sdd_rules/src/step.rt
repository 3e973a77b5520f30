use sdd_module::{ClassNo, Conds, Ts};

/// What the first unprocessed message of a pipe may do.
#[derive(Drop)]
pub enum Step {
    /// It is processed: a NULL passes, a WRITE is applied, a READ is answered.
    Processes,
    /// A READ is rejected, since a WRITE of the class with this timestamp has been processed.
    Refuses(ClassNo, Ts),
    /// A READ begins to wait for these conditions.
    Waits(Conds),
}
