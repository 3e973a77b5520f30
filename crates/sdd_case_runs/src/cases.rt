//! The cases of a text, one after the other.
use crate::programs::Programs;
use crate::runs::tell_runs;
use anyhow::{Context, Result};
use sdd_case_lines::CaseReader;
use std::alloc::Global;
use std::io::Write;

/// Runs the cases of the lines one after the other, and writes what they answer.
pub fn tell_cases<P: Programs, W: Write>(
    alloc: Global,
    programs: &P,
    lines: &str,
    out: &mut W,
) -> Result<()> {
    let mut reader = CaseReader::new(alloc);
    for (before, line) in lines.split('\n').enumerate() {
        take_line(alloc, programs, &mut reader, line, out).context(format_args!(
            "line {}",
            before.saturating_add(1)
        ))?;
    }
    match reader.end() {
        None => Ok(()),
        Some(case) => tell_runs(alloc, programs, &case, out),
    }
}

/// Reads a line, and runs the case that it ends.
fn take_line<P: Programs, W: Write>(
    alloc: Global,
    programs: &P,
    reader: &mut CaseReader,
    line: &str,
    out: &mut W,
) -> Result<()> {
    match reader.take(alloc, line)? {
        None => Ok(()),
        Some(case) => tell_runs(alloc, programs, &case, out),
    }
}
