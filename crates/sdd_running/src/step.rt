/// What the active attempt of a line does next by itself.
#[derive(Clone, Copy)]
pub enum LineStep {
    /// It sends the next message of its exchange.
    Sends,
    /// It commits.
    Commits,
}
