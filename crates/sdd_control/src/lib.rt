//! Transaction control: all writes of a transaction or none, though the sender stops between two.
//!
//! Site 0 is the committer, and the sites above it are its backups. The lowest site that hasn't
//! stopped takes the commit to its end. What is noted of each event by the events before it is
//! defined in `sdd_backups`.
//!
//! What the layer above gets: `read_control` gives exactly the script that the bytes of a file give,
//! or its first fault (`specs/Walk.antt`), and `write_report` the text that the script makes
//! (`specs/Report.antt`). `Control` returns the note of each event, and the laws promise for every
//! list of events what `specs/Laws.antt` says.
#![tactic(auto)]

mod control;
mod draft;
mod fault;
mod key;
mod laws;
mod limits;
mod line;
mod reading;
mod report;
mod script;
mod stage;

pub use control::Control;
pub use laws::{law_all_or_none, law_leader, law_one_value};
pub use limits::{MAX_BACKUPS, MAX_WRITES};
pub use reading::read_control;
pub use report::write_report;
pub use script::ControlScript;
