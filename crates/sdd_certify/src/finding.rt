use sdd_script::Bytes;

/// What a rule finds of a report. Lines are counted from 1.
#[derive(Drop)]
pub enum Finding {
    /// No line before the order line is at fault.
    Yes,
    /// There is no order to judge: 0 where the report is too long, else the number after its last line.
    NoOrder(usize),
    /// The first line at fault, and the name of the transaction that it is at fault with.
    At(usize, Bytes),
}
