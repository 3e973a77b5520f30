use sdd_attempt::TmNo;

/// What the module does next by itself.
#[derive(Clone, Copy)]
pub(crate) enum Step {
    /// The attempt sends the next message of its exchange.
    Send,
    /// The attempt commits.
    Commit,
    /// A RELEASE goes to a transaction module.
    Release(TmNo),
    /// The first transaction of the queue starts.
    Start,
    /// A HOLD goes to a transaction module.
    Hold(TmNo),
}
