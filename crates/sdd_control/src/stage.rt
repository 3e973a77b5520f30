/// What the first line of a control file says.
#[derive(Clone, Copy)]
pub struct Head {
    pub backups: u32,
    pub writes: u32,
}

/// Where in the file the next line stands.
#[derive(Clone, Copy)]
pub enum Stage {
    /// It is the first.
    First,
    /// It is an event or the end.
    Events(Head),
    /// It is after the end.
    Ended(Head),
}
