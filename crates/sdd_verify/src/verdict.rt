/// What a report is judged to be.
#[derive(Clone, Copy)]
pub enum Verdict {
    /// The replies are those of one plain database that runs the named transactions in that order.
    Yes,
    /// The number of the first line at fault, counted from 1; 0 where the report is too long.
    No(u32),
}
