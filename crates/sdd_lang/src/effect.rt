use sdd_base::{Changes, NoMemory, Parcel, Reply};

/// What a transaction does to a database: its answer to the user and its changes.
#[derive(Drop)]
pub struct Effect {
    pub reply: Reply,
    pub changes: Changes,
}

impl Parcel for Effect {
    fn copy(&self) -> Result<Self, NoMemory> {
        Ok(Effect {
            reply: self.reply.copy()?,
            changes: self.changes.copy()?,
        })
    }
}
