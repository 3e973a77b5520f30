/// What an attempt that is under way awaits from data modules.
#[derive(Clone, Copy)]
pub enum Answer {
    /// How many rows there are for its READ.
    Ready,
    Values,
    /// How many rows are left after a REDUCE.
    Reduced,
    Rows,
}
