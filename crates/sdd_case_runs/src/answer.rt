//! One call of a program, and what it answers.
ghost use Rattle.std.specs.Prelude.{◌≡◌, IsTrue};

use crate::programs::Programs;
use anyhow::{Result, anyhow};
use sdd_base::{Bytes, CallNos, Files, MemShelf, MemSink, ShelfFile};
use sdd_case_lines::{Case, Taking, Text};
use sdd_shell::Status;
use std::alloc::Global;

/// How one run differs from what its case says. A call's number 0 is that of none.
#[derive(Clone, Copy)]
pub struct Run<'a> {
    /// The file that is cut, and how many bytes of it are left.
    pub cut: Option<(&'a str, usize)>,
    pub shelf_fails: u64,
    pub out_fails: u64,
}

#[derive(Drop)]
pub struct Answer {
    pub status: Status,
    pub out: MemSink,
    pub err: MemSink,
}

impl Answer {
    /// Whether the other call ended with the same status and both sinks took the same.
    pub fn is_same(&self, other: &Self) -> bool
        ensures status { IsTrue result → self.now.status ≡ other.now.status }
        ensures out { IsTrue result → self.now.out.sink.taken ≡ other.now.out.sink.taken }
        ensures err { IsTrue result → self.now.err.sink.taken ≡ other.now.err.sink.taken }
        ensures alike { self.now.status ≡ other.now.status
            → self.now.out.sink.taken ≡ other.now.out.sink.taken
            → self.now.err.sink.taken ≡ other.now.err.sink.taken → IsTrue result }
    {
        self.status == other.status
            && self.out.taken() == other.out.taken()
            && self.err.taken() == other.err.taken()
    }
}

/// Makes the call.
pub fn call<P: Programs>(alloc: Global, programs: &P, case: &Case, run: Run<'_>) -> Result<Answer> {
    let mut shelf = shelf(alloc, case, run)?;
    call_over(alloc, programs, case, run, &mut shelf)
}

/// Makes the call over this shelf.
fn call_over<P: Programs>(
    alloc: Global,
    programs: &P,
    case: &Case,
    run: Run<'_>,
    shelf: &mut MemShelf,
) -> Result<Answer> {
    let mut answer = empty_answer(alloc, case, run)?;
    answer.status = programs.call(
        alloc,
        case.program,
        case.words.as_slice(),
        shelf,
        &mut answer.out,
        &mut answer.err,
    );
    Ok(answer)
}

fn shelf(alloc: Global, case: &Case, run: Run<'_>) -> Result<MemShelf> {
    let fails = calls(alloc, run.shelf_fails)?;
    let files = files(alloc, case.files.as_slice(), run.cut)?;
    Ok(MemShelf::new(files, case.reads.max(1), fails))
}

/// The sinks before the call. Its status is set once the call is made.
fn empty_answer(alloc: Global, case: &Case, run: Run<'_>) -> Result<Answer> {
    let out = sink(alloc, case.out, run.out_fails)?;
    let err = sink(alloc, case.err, case.err.fails)?;
    let status = Status::Done;
    Ok(Answer { status, out, err })
}

fn sink(alloc: Global, taking: Taking, fails: u64) -> Result<MemSink> {
    let fails = calls(alloc, fails)?;
    MemSink::new(alloc, taking.room, taking.most, fails).map_err(|_| anyhow!("no memory"))
}

fn calls(alloc: Global, number: u64) -> Result<CallNos> {
    Ok(CallNos::from_vec(vec![in alloc; number]?))
}

fn files(alloc: Global, texts: &[Text], cut: Option<(&str, usize)>) -> Result<Files> {
    let mut files = Vec::new(alloc);
    add_files(alloc, &mut files, texts, cut)?;
    Ok(Files::from_vec(files))
}

fn add_files(
    alloc: Global,
    files: &mut Vec<ShelfFile>,
    texts: &[Text],
    cut: Option<(&str, usize)>,
) -> Result<()> {
    for text in texts {
        let file = file(alloc, text.name.as_bytes(), left_of(text, cut))?;
        files.push(file)?;
    }
    Ok(())
}

/// The bytes of a text that are left where one may be cut.
fn left_of<'a>(text: &'a Text, cut: Option<(&str, usize)>) -> &'a [u8] {
    let all = text.bytes.as_slice();
    match cut {
        Some((name, count)) if text.name.as_str() == name => &all[..count.min(all.len())],
        _ => all,
    }
}

fn file(alloc: Global, name: &[u8], bytes: &[u8]) -> Result<ShelfFile> {
    let name = Vec::from_slice(alloc, name)?;
    let bytes = Vec::from_slice(alloc, bytes)?;
    Ok(ShelfFile {
        name: Bytes::from_vec(name),
        bytes: Bytes::from_vec(bytes),
    })
}
