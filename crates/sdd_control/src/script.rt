use sdd_backups::Acts;

/// What a control file gives.
#[derive(Drop)]
pub struct ControlScript {
    /// How many backups there are, from 1 to 8.
    pub backups: u32,
    /// How many writes there are, from 1 to 64.
    pub writes: u32,
    /// The events, at most 262,144.
    pub acts: Acts,
}
