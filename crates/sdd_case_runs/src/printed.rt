//! How cases are printed.
use crate::answer::Answer;
use anyhow::Result;
use std::io::Write;

/// Writes a case's name.
pub fn put_name<W: Write>(out: &mut W, name: &str) -> Result<()> {
    writeln!(out, "case {name}")?;
    Ok(())
}

/// Writes the numbers of runs that answer the same.
pub fn put_numbers<W: Write>(out: &mut W, first: usize, last: usize) -> Result<()> {
    if first == last {
        writeln!(out, "run {first}")?;
    } else {
        writeln!(out, "runs {first} to {last}")?;
    }
    Ok(())
}

/// Writes a status and what both sinks took.
pub fn put_answer<W: Write>(out: &mut W, answer: &Answer) -> Result<()> {
    let status = answer.status.number();
    writeln!(out, "status {status}")?;
    put_lines(out, b"!", answer.err.taken())?;
    put_lines(out, b"|", answer.out.taken())
}

/// Writes each line after the mark, and after `>` what no newline ends.
fn put_lines<W: Write>(out: &mut W, mark: &[u8], bytes: &[u8]) -> Result<()> {
    for line in bytes.split_inclusive(|byte| *byte == b'\n') {
        if line.ends_with(b"\n") {
            out.write_all(mark)?;
            out.write_all(line)?;
        } else {
            out.write_all(b">")?;
            out.write_all(line)?;
            out.write_all(b"\n")?;
        }
    }
    Ok(())
}
