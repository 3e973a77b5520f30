/// What a site holds of a transaction: whether its writes are made.
#[derive(Clone, Copy)]
pub enum Val {
    /// The site doesn't know yet.
    Unknown,
    /// All of them are.
    All,
    /// None of them is.
    Nought,
}
