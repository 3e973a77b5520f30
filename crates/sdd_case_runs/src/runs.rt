//! The runs of a case.
use crate::answer::{Answer, Run, call};
use crate::printed::{put_answer, put_name, put_numbers};
use crate::programs::Programs;
use anyhow::{Result, bail};
use sdd_case_lines::{Case, Each, front};
use sdd_shell::Status;
use std::alloc::Global;
use std::io::Write;

/// How many runs a case may have.
const MOST: usize = 10_000;

/// Runs of a case that follow each other and answer the same.
#[derive(Drop)]
struct Group {
    first: usize,
    last: usize,
    answer: Answer,
}

/// Makes the runs of a case, and writes its name and what they answer.
pub fn tell_runs<P: Programs, W: Write>(
    alloc: Global,
    programs: &P,
    case: &Case,
    out: &mut W,
) -> Result<()> {
    put_name(out, case.name.as_str())?;
    match &case.each {
        Each::Alone => tell_alone(alloc, programs, case, out),
        _ => tell_each(alloc, programs, case, out),
    }
}

fn tell_alone<P: Programs, W: Write>(
    alloc: Global,
    programs: &P,
    case: &Case,
    out: &mut W,
) -> Result<()> {
    let answer = call(alloc, programs, case, nth(case, 0))?;
    put_answer(out, &answer)
}

fn tell_each<P: Programs, W: Write>(
    alloc: Global,
    programs: &P,
    case: &Case,
    out: &mut W,
) -> Result<()> {
    let mut group = None;
    tell_groups(alloc, programs, case, &mut group, out)
}

/// Makes the runs, and writes each group once it is whole.
fn tell_groups<P: Programs, W: Write>(
    alloc: Global,
    programs: &P,
    case: &Case,
    group: &mut Option<Group>,
    out: &mut W,
) -> Result<()> {
    for number in first(case)..MOST {
        if make_run(alloc, programs, case, number, group, out)? {
            return put_group(out, group);
        }
    }
    bail!("a case of too many runs")
}

/// Makes one run, and says whether it is the last.
fn make_run<P: Programs, W: Write>(
    alloc: Global,
    programs: &P,
    case: &Case,
    number: usize,
    group: &mut Option<Group>,
    out: &mut W,
) -> Result<bool> {
    let next = call(alloc, programs, case, nth(case, number))?;
    let last = is_last(case, number, &next);
    add_run(group, number, next, out)?;
    Ok(last)
}

/// The number of the first run: of no lines or bytes, or of the first call.
fn first(case: &Case) -> usize {
    match &case.each {
        Each::Alone | Each::Cut(_) | Each::CutByte(_) => 0,
        Each::ShelfCall | Each::OutCall => 1,
    }
}

/// What differs in a run: the number of lines or bytes, or of the call.
fn nth(case: &Case, number: usize) -> Run<'_> {
    let mut run = Run {
        cut: None,
        shelf_fails: case.shelf_fails,
        out_fails: case.out.fails,
    };
    match &case.each {
        Each::Alone => {}
        Each::Cut(name) => run.cut = Some((name.as_str(), length_of(case, name.as_str(), number))),
        Each::CutByte(name) => run.cut = Some((name.as_str(), number)),
        Each::ShelfCall => run.shelf_fails = number as u64,
        Each::OutCall => run.out_fails = number as u64,
    }
    run
}

/// How many bytes the first lines of a file have.
fn length_of(case: &Case, name: &str, lines: usize) -> usize {
    match case.file(name) {
        None => 0,
        Some(text) => front(text.bytes.as_slice(), lines).len(),
    }
}

/// Whether the file was whole, or no call failed.
fn is_last(case: &Case, number: usize, answer: &Answer) -> bool {
    match &case.each {
        Each::Alone => true,
        Each::Cut(name) => match case.file(name.as_str()) {
            None => true,
            Some(text) => text.lines() <= number,
        },
        Each::CutByte(name) => match case.file(name.as_str()) {
            None => true,
            Some(text) => text.bytes.len() <= number,
        },
        Each::ShelfCall => answer.status != Status::ReadFault,
        Each::OutCall => answer.status != Status::WriteFault,
    }
}

/// Adds one run to the group; where it answers otherwise, the group is written and a new one begins.
fn add_run<W: Write>(
    group: &mut Option<Group>,
    number: usize,
    answer: Answer,
    out: &mut W,
) -> Result<()> {
    if !join(group, number, &answer) {
        put_group(out, group)?;
        *group = Some(Group {
            first: number,
            last: number,
            answer,
        });
    }
    Ok(())
}

/// Counts a run to the group where it answers the same, and says whether it does.
fn join(group: &mut Option<Group>, number: usize, answer: &Answer) -> bool {
    match group {
        None => false,
        Some(group) => {
            let same = group.answer.is_same(answer);
            if same {
                group.last = number;
            }
            same
        }
    }
}

fn put_group<W: Write>(out: &mut W, group: &Option<Group>) -> Result<()> {
    match group {
        None => Ok(()),
        Some(group) => {
            put_numbers(out, group.first, group.last)?;
            put_answer(out, &group.answer)
        }
    }
}
