//! The top call: all that the program does, over a shelf of files and two sinks that are handed in.
//!
//! `run_sdd1` is the one contract to the layer above. What each form of the words asks for is defined in
//! `specs/Answer.antt`, a line a form. The words, and the commands that carry out no run, are
//! `sdd_commands`'. Here are the two that carry one out: `run` prints the report on the run of a workload
//! (`sdd_run`), `make` the summary of the run of a workload that is made of a seed (`sdd_make`).
//!
//! How a call ends, and how its first files are read and judged, is `sdd_shell`'s.
#![tactic(auto)]

mod made_input;
mod run;
mod workload_answer;

pub use run::run_sdd1;
