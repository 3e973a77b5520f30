//! The programs whose cases are run.
use sdd_base::{MemShelf, MemSink};
use sdd_case_lines::Program;
use sdd_shell::Status;
use std::alloc::Global;

/// The programs whose cases are run. They stand above this crate, which knows of each its name alone.
pub trait Programs {
    /// Makes the call of a program with these words, over this shelf and these sinks for the text and for
    /// the error line.
    fn call(
        &self,
        alloc: Global,
        program: Program,
        words: &[String],
        shelf: &mut MemShelf,
        out: &mut MemSink,
        err: &mut MemSink,
    ) -> Status;
}
