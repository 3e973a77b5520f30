use sdd_lang::Ts;

/// How two committed transactions meet at a fragment.
#[derive(Clone, Copy)]
pub enum Meeting {
    /// Both change it; the timestamps of the first and of the second.
    Writes(Ts, Ts),
    /// The first changes it and the second reads it; whether the second saw the first.
    WriteRead(bool),
    /// The first reads it and the second changes it; whether the first saw the second.
    ReadWrite(bool),
}
