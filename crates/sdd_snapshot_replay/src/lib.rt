//! Replay of runs under snapshot isolation: one database that runs the transactions one after the other
//! gives the same replies.
//!
//! The one contract to the layer above is a law (`specs/Replays.antt`): where the protocol table of a
//! catalogue has no P3, a run of its classes' transactions on one database, of each class one at a time,
//! has an order in which a serial run gives the replies and leaves the database.
#![tactic(auto)]

mod law;

pub use law::law_snapshots_replay;
