//! What happens while a world carries out a schedule, event by event, and the text of it.
//!
//! The contract to the layer above: `schedule_text` is the text of *the* log of what the world is given
//! (`IsTextOf`, `specs/Text.antt`), one line for each event, or the limit ends that log.
//!
//! `Watch` keeps what stood where when the last event was over. What an event changed of links, queues
//! and pipes `sdd_moments` finds; here stand what the event was about to find, the rows that it
//! changed, the sites that took part and how they stand, and the line that tells all this. Sites are
//! gone through one by one only at an event that isn't one of a link.
#![tactic(auto)]

mod commits;
mod dones;
mod foreseen;
mod rows;
mod states;
mod taking_part;
mod teller;
mod watch;
mod whole_text;

pub use whole_text::schedule_text;

// What lies below, for the crates above.
pub use sdd_moments::Table;
