//! What a reader of the text of what happens inside a run has. Its lines and two reading rules give the flights of
//! all links, the messages that were put on them and how many are handed over, what waits in each queue and pipe,
//! and the time that a class has passed: after one line (`law_read_back`), and after each line of a run
//! (`law_read_run`). So do the bytes of a line and of a text, by names (`law_read_bytes`, `law_read_text`).
//! `specs/WorkedLines.antt` and `WorkedDowns.antt` have worked lines: what the definitions print of events of worked logs.
//! It has no code and no layer above.
#![tactic(auto)]

mod law;

pub use law::{law_read_back, law_read_bytes, law_read_run, law_read_text};
