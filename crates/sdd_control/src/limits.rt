/// The most backups of a committer.
pub const MAX_BACKUPS: u32 = 8;

/// The most writes of a transaction.
pub const MAX_WRITES: u32 = 64;
