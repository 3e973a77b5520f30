//! The laws that the history of every run keeps, and what follows from them.
//!
//! Of the changes of an item the one with the greatest date stands (`specs/Values.antt`), and a copy
//! holds these rows for the items of its fragment, by the rows with which its module began and the
//! transactions that are applied there (`specs/Committed.antt`, `law_copy_holds_values`): it is
//! determined by which of the transactions that change its fragment are applied (`law_same_copies`).
//! Replay: along an order that agrees with what the transactions did (`specs/Order.antt`) one plain
//! database that runs the committed transactions one by one gives their replies and changes, and
//! leaves what the copies hold (`law_replay_along`, `specs/Replayed.antt`).
//!
//! The one contract to the layer above: a history that keeps the laws has no cycle (`law_acyclic`),
//! and its serial order replays (`law_replay`).
#![tactic(auto)]

mod agreeing;
mod contents_law;
mod copies;
mod law;
mod meeting;
mod replay;
mod replay_along_law;
mod taking;

pub use agreeing::law_agreeing_copies;
pub use contents_law::{
    law_any_order, law_copy_holds_values, law_copy_takes, law_one_value, law_same_copies,
};
pub use copies::{is_applied, law_copies};
pub use law::{law_acyclic, law_attempts};
pub use meeting::Meeting;
pub use replay::law_replay;
pub use replay_along_law::law_replay_along;
pub use taking::counts;

// What lies below, for the crates above.
pub use sdd_copy::Copies;
pub use sdd_lang::{Catalogue, DmNo, Ref, Txn, Use};
pub use sdd_order::serial_order;
