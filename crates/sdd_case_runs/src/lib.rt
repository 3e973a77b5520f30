//! The runs of cases: the calls that a case asks for, each over a shelf and sinks in memory, and how
//! their answers are printed.
//!
//! What the layer above gets: [`tell_cases`] runs the cases that lines of text ask for, and writes what
//! their calls answer. Who makes a call is handed in, as [`Programs`]: so nothing here stands on a
//! program, and all but the calls themselves is proved before the programs are. No clause says what is
//! written; the answers that `sdd_cases` has to print do. The lines are described at its `main`.
#![tactic(auto)]

mod answer;
mod cases;
mod printed;
mod programs;
mod runs;

pub use cases::tell_cases;
pub use programs::Programs;
pub use sdd_base::{MemShelf, MemSink};
pub use sdd_case_lines::Program;
pub use sdd_shell::Status;
