/// What a class does next by itself.
#[derive(Clone, Copy)]
pub(crate) enum Step {
    /// Its attempt sends the next message of its exchange.
    Send,
    /// Its attempt commits.
    Commit,
    /// It answers the first ASK that it can answer.
    Answer,
    /// The first transaction of its queue starts its next attempt.
    Start,
}
