//! The program that shows what happens inside a run: the words, files and streams of the system, handed
//! to its call.
//!
//! What is read and printed is proved at `run_inside`; that the process ends with the status's number,
//! at `exit_code`; what is said if memory runs out before that call, at `end_out_of_memory`; which bytes
//! are read and written, at the adapters `HostShelf` and `HostSink`. What the system's own `open`, `read`
//! and `write` do, and what `main` hands over and ends with, is trusted.
#![tactic(auto)]

use sdd_app_inside::run_inside;
use sdd_shell::{HostShelf, HostSink, end_out_of_memory, exit_code};
use std::env;
use std::io::ErrorKind;
use std::process::ExitCode;

/// The number that the process ends with where a word of the command line isn't text, which is that
/// of no status. Nothing is written then.
const NO_WORDS: u8 = 10;

fn main(rt: HostRuntime) -> ExitCode {
    let mut err = HostSink::new(rt.stderr(), &rt);
    let words: Vec<String> = match env::args(&rt) {
        Ok(words) => match words.skip(1).collect(rt.alloc()) {
            Ok(words) => words,
            Err(_) => return end_out_of_memory(&mut err),
        },
        Err(fault) => {
            if fault.kind() == ErrorKind::OutOfMemory {
                return end_out_of_memory(&mut err);
            }
            return ExitCode::from(NO_WORDS);
        }
    };
    let mut shelf = HostShelf::new(&rt);
    let mut out = HostSink::new(rt.stdout(), &rt);
    let status = run_inside(rt.alloc(), words.as_slice(), &mut shelf, &mut out, &mut err);
    exit_code(status)
}
