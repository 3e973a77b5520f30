//! Reads the bytes of the text of what happens inside a run: it is cut into lines, a line as JSON into its members,
//! and what it tells of links, queues and pipes comes back (`law_line_read`). It has no code.
#![tactic(auto)]

mod law;

pub use law::{law_line_read, law_lines_read};
