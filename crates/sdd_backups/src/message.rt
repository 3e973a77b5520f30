use crate::value::Val;

/// A message from a site to another.
#[derive(Clone, Copy)]
pub enum Message {
    /// The value of the sender.
    Value(Val),
    /// The sender took the value that it was told.
    Ok,
    /// The sender has stopped.
    Gone,
}
