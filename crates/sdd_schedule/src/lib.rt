//! One scheduler: the events of a schedule, carried out one by one, each before an observer; and what
//! is told of the world at their end.
//!
//! The contract to the layer above: after `carry_out` the world represents the complete lawful log of
//! all events that it was given, and the observer has followed it, event by event; or the limit ends
//! that log. What following means is the observer's own (`Observer::follows`): it looks at the world
//! before each event and after it, with all that the event made due. `Nobody` looks at nothing.
//!
//! Of a world that represents a complete log, `copy_tables` tells the copies of all data modules, and
//! `pending_txns` the transactions that were submitted and aren't committed, and why: what that log
//! says. They read the world, and stand here since the edits of `sdd_world` that must fail have
//! nothing to do with them.
#![tactic(auto)]

mod commits;
mod nobody;
mod observer;
mod pending;
mod schedule;
mod tables;
mod turn;
mod waits;

pub use nobody::Nobody;
pub use observer::Observer;
pub use pending::pending_txns;
pub use schedule::{ClassList, carry_out};
pub use tables::copy_tables;
pub use turn::Turn;

// What lies below, for the crates above.
pub use sdd_world::{
    Answer, Asked, ClassNos, ClassRun, DataModule, Line, TxnModule, UModule, World, WorldEnd,
    data_modules, home,
};
