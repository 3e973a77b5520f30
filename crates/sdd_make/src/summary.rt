//! The summary of a run.
ghost use Rattle.std.specs.Prelude.{◌≡◌, ◌++◌, count_by, IfOk, OnOk};
ghost use Rattle.sdd_make.specs.Summary.{is_commit, is_reject, is_wait, summary_of, count_line, first_counts, last_counts, summary_text};

use sdd_history::Rec;
use sdd_script::{NoMemory, put, put_count};
use std::alloc::Global;

/// What a run comes to.
#[derive(Clone, Copy)]
pub struct Summary {
    /// How many transactions the workload has.
    pub transactions: u32,
    pub committed: u64,
    /// How many READs were rejected.
    pub rejections: u64,
    /// How many READs waited.
    pub waits: u64,
    /// The number of the last event.
    pub events: u32,
}

fn is_commit(made: &(u32, Rec)) -> bool
    ensures { result ≡ is_commit made.now }
{
    matches!(made.1, Rec::Commit { .. })
}

fn is_reject(made: &(u32, Rec)) -> bool
    ensures { result ≡ is_reject made.now }
{
    matches!(made.1, Rec::Reject { .. })
}

fn is_wait(made: &(u32, Rec)) -> bool
    ensures { result ≡ is_wait made.now }
{
    matches!(made.1, Rec::Wait { .. })
}

fn commits(history: &[(u32, Rec)]) -> usize
    ensures { result ≡ count_by is_commit history.now }
{
    history.iter().filter(|made| is_commit(made)).count()
}

fn rejects(history: &[(u32, Rec)]) -> usize
    ensures { result ≡ count_by is_reject history.now }
{
    history.iter().filter(|made| is_reject(made)).count()
}

fn waits(history: &[(u32, Rec)]) -> usize
    ensures { result ≡ count_by is_wait history.now }
{
    history.iter().filter(|made| is_wait(made)).count()
}

/// The summary of a run with this history, on a workload of so many transactions, whose last event
/// has this number. Costs time in the records, and takes no memory.
pub fn summary_of(transactions: u32, history: &[(u32, Rec)], events: u32) -> Summary
    ensures { result ≡ summary_of transactions history.now events }
{
    Summary {
        transactions,
        committed: commits(history) as u64,
        rejections: rejects(history) as u64,
        waits: waits(history) as u64,
        events,
    }
}

/// A line with a count.
fn put_line(out: &mut Vec<u8>, word: &[u8], count: u64) -> Result<(), NoMemory>
    ensures { OnOk result (out.new.items ≡ out.old.items ++ count_line word.now count) }
{
    put(out, word)?;
    put(out, b" ")?;
    put_count(out, count)?;
    put(out, b"\n")
}

fn put_first_counts(out: &mut Vec<u8>, summary: &Summary) -> Result<(), NoMemory>
    ensures { OnOk result (out.new.items ≡ out.old.items ++ first_counts summary.now) }
{
    put_line(out, b"transactions", u64::from(summary.transactions))?;
    put_line(out, b"committed", summary.committed)?;
    put_line(out, b"rejections", summary.rejections)
}

fn put_last_counts(out: &mut Vec<u8>, summary: &Summary) -> Result<(), NoMemory>
    ensures { OnOk result (out.new.items ≡ out.old.items ++ last_counts summary.now) }
{
    put_line(out, b"waits", summary.waits)?;
    put_line(out, b"events", u64::from(summary.events))?;
    put(out, b"end\n")
}

/// The text of a summary.
pub fn summary_text(alloc: Global, summary: &Summary) -> Result<Vec<u8>, NoMemory>
    ensures { IfOk result (λ text. text.items ≡ summary_text summary.now) }
{
    let mut text = Vec::new(alloc);
    put_first_counts(&mut text, summary)?;
    put_last_counts(&mut text, summary)?;
    Ok(text)
}
