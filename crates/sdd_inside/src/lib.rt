//! The text of what happens inside a run: one line of JSON for each event, which tells what the event
//! changed.
//!
//! The contract to the layer above: `put_line` puts exactly `line` of `specs/Lines.antt`, a function of
//! the values that a `Delta` holds, and `put_beginning` the first line of the text; `difference` gives
//! what an event changed between two moments (`specs/Differences.antt`). `specs/Json.antt` says how
//! strings, lists and members are spelled, `specs/Words.antt` names and rows, `specs/Messages.antt`
//! packets, and `specs/Standings.antt` how a site stands. docs/INSIDE.md describes the same for readers
//! of the text.
//!
//! JSON is spelled here, and not by a crate that writes a tree of values: the text is made of a few
//! kinds of lists and objects whose members stand in a fixed order, so each piece goes straight to the
//! end of the text, and no tree of texts is made of a line first.
#![tactic(auto)]

mod comparing;
mod delta;
mod escape;
mod events;
mod kinds;
mod lines;
mod messages;
mod moment;
mod names;
mod numbers;
mod pieces;
mod standing;
mod standings;
mod to_json;
mod words;

pub use comparing::difference;
pub use delta::{Delta, Found, Handed, InFlight, PipeDelta, Put, QueueDelta, RowDelta, Taken};
pub use lines::{put_beginning, put_line};
pub use moment::{Happened, LinkMoment, Moment, PipeMoment, QueueMoment};
pub use standing::{Active, DmState, Head, Phase, Question, SiteState, Stage, TmState, UState};
