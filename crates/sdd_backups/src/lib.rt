//! A committer and its backups: what is noted of each event, by what happened before.
//!
//! Site 0 is the committer, and the sites above it are its backups. `specs/` defines the log of
//! events with their notes (`Log`), how a site stands by it (`Standing`), the messages on each link
//! (`Links`), what a leader sends next (`Sends`), and the note of an event (`Steps`).
//!
//! The one contract to the layer above is `State`: tables that say what the log says (`Tracks` of
//! `specs/State.antt`), the note that they give an event, and how a note changes them.
#![tactic(auto)]

mod act;
mod change;
mod links;
mod message;
mod note;
mod state;
mod table;
mod value;

pub use act::{Act, Acts};
pub use note::Note;
pub use state::State;
pub use value::Val;
