//! Runs the cases of its standard input through the top call of a program, and prints what each answers.
//!
//! What is expected stands in `stdout`, made elsewhere. The input is text, line by line; blank
//! lines and lines that begin with `#` are skipped.
//!
//! | line | meaning |
//! |---|---|
//! | `keep NAME` | a text that cases may name begins; its lines follow |
//! | `case NAME` | a case begins; no other has its name |
//! | `program NAME` | whose call it is: `sdd1`, as where the line is left out, `sdd1_inside` or `sdd1_ask` |
//! | `words W ..` | the words of the call, none where the line is left out |
//! | `file NAME KEPT` | the shelf has the kept text KEPT under NAME |
//! | `text NAME` | the shelf has a text of its own under NAME; its lines follow |
//! | `reads N` | a read gives at most N bytes |
//! | `shelf-fails N` | the Nth call of the shelf fails |
//! | `out-takes N`, `err-takes N` | a write of that sink takes at most N bytes; none where N is 0 |
//! | `out-room N`, `err-room N` | that sink takes N bytes in all |
//! | `out-fails N`, `err-fails N` | the Nth call of that sink fails |
//! | `each cut NAME` | one run for each front of whole lines of that file, from none to all |
//! | `each cut-byte NAME` | one run for each front of that file, from no byte to all |
//! | `each shelf-call` | one run for each call of the shelf, which fails, and one where none does |
//! | `each out-call` | the same of the sink for the text |
//!
//! The lines of a text: `|TEXT` is TEXT and a newline, `>TEXT` is TEXT alone, `=HEX` the bytes that
//! HEX spells, and `*N LINE` such a line N times.
//!
//! Printed are `case NAME`, then `run K` or `runs K to L` where the case has several (runs that
//! follow each other and answer alike are printed once), `status N`, the error line after `!` and
//! the text after `|`, or `>` where no newline ends it. A line of the input that is none of these
//! ends the program with status 1, and its number is printed.
#![tactic(auto)]

use anyhow::Result;
use sdd_app::run_sdd1;
use sdd_app_ask::run_ask;
use sdd_app_inside::run_inside;
use sdd_case_runs::{MemShelf, MemSink, Program, Programs, Status, tell_cases};
use std::alloc::Global;
use std::io::{self, BufWriter, Write};

fn main(rt: HostRuntime) -> Result<()> {
    let alloc = rt.alloc();
    let lines = io::read_to_string(alloc, rt.reader())?;
    let mut out = BufWriter::new(alloc, io::writer(&rt))?;
    tell_cases(alloc, &TopCalls, lines.as_str(), &mut out)?;
    out.flush()?;
    Ok(())
}

/// The top calls of the three programs.
#[derive(Drop)]
struct TopCalls;

impl Programs for TopCalls {
    fn call(
        &self,
        alloc: Global,
        program: Program,
        words: &[String],
        shelf: &mut MemShelf,
        out: &mut MemSink,
        err: &mut MemSink,
    ) -> Status {
        match program {
            Program::Sdd1 => run_sdd1(alloc, words, shelf, out, err),
            Program::Inside => run_inside(alloc, words, shelf, out, err),
            Program::Ask => run_ask(alloc, words, shelf, out, err),
        }
    }
}
