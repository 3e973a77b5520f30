use sdd_base::{ClassNo, Ts};

/// What the conditions of an attempt rest on.
#[derive(Clone, Copy)]
pub(crate) struct Attempt {
    pub(crate) class: ClassNo,
    /// Its own timestamp, up to which P3 asks.
    pub(crate) own: Ts,
    /// The time up to which P2 asks.
    pub(crate) p2: Ts,
}
