//! The commands of `sdd1` that carry out no run: what words ask for, and what each of these prints.
//!
//! What the layer above gets: `parse_words` gives the command that the words have, and one function for
//! each kind of command answers it over the files that it names, as the clauses of `sdd_shell` say of a
//! request (`AnswersRequest`). `listing_answer` prints a catalogue's counts, its conflict graph
//! (`sdd_graph`) with the blocks, its protocol table (`sdd_protocol`), or why each read has its protocol
//! (`sdd_advise`): `specs/Listing.antt`. `plain_answer` prints the replies that serial execution on one
//! database gives (`sdd_lang`): `specs/Serially.antt`. `verify_answer` judges a report against one plain
//! database (`sdd_verify`), and `control_answer` prints what a script of transaction control gives
//! (`sdd_control`): `specs/Requests.antt`.
//!
//! `run` and `make`, which carry out a run, are `sdd_app`'s. So this crate stands on no part of the
//! running system, nor on what is proved of it.
#![tactic(auto)]

mod check;
mod command;
mod control_file;
mod edges;
mod judging;
mod listing;
mod plain_command;
mod serially;

pub use command::{Command, parse_words};
pub use control_file::control_answer;
pub use judging::verify_answer;
pub use listing::{Listing, listing_answer};
pub use plain_command::plain_answer;
