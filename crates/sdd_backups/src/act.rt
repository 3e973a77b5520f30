use sdd_base::{Listed, NoMemory, Parcel};

/// An event. Site 0 is the committer, and sites from 1 on are its backups.
#[derive(Clone, Copy)]
pub enum Act {
    /// The site makes its next send.
    Step(u32),
    /// The first message on the link from the first site arrives at the second.
    Deliver(u32, u32),
    /// The site stops for good.
    Stop(u32),
}

/// Events, the first to happen first.
pub type Acts = Listed<Act>;

impl Parcel for Act {
    fn copy(&self) -> Result<Self, NoMemory> {
        Ok(*self)
    }
}
