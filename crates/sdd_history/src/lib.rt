//! What happened: the records of a run, each with the number of its event, in the order in which
//! they were made.
//!
//! The one contract to the layer above: a history is a list of pairs of an event and a record
//! (`specs/Records.antt`), and all that the layers above the world promise is said of it.
#![tactic(auto)]

mod history;
mod printed;
mod record;

pub use history::History;
pub use printed::PrintedReply;
pub use record::{Rec, Recs};
