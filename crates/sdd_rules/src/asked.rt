use sdd_module::{Site, Ts};

/// An ASK that has no NULL yet, as its class keeps it.
#[derive(Clone, Copy)]
pub struct Asked {
    pub from: Site,
    pub time: Ts,
}
