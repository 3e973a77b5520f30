//! The text of a report.
ghost use Rattle.std.specs.Prelude.{◌≡◌, ◌++◌, OnOk, IfOk};
ghost use Rattle.sdd_report.specs.Report as definitions;
ghost use Rattle.sdd_report.specs.Committed.{order_line};
ghost use Rattle.sdd_report.specs.Report.{report_text, after_replies};
ghost use Rattle.sdd_report.specs.Trace.{trace};

use crate::committed::{Commits, add_replies, put_all_shipped, put_order};
use crate::copies::{CopyTable, put_copies};
use crate::pending::{Pending, put_pending};
use crate::trace::put_trace;
use sdd_history::Rec;
use sdd_lang::{Catalogue, NoMemory, Pages, Txn, TxnNo};
use sdd_words::put;
use std::alloc::Global;
use std::marker::Model;

/// What follows the replies is a page of its own where it has as many bytes.
const MIN_PAGE_BYTES: usize = 4096;

/// What a report prints of a run.
#[derive(Drop)]
pub struct Report<'a> {
    /// The catalogue whose classes and fragments the numbers name, those of further class lists
    /// among them.
    pub catalogue: &'a Catalogue,
    /// The transactions, submitted or not.
    pub txns: &'a [Txn],
    /// The records, each with the number of its event.
    pub history: &'a [(u32, Rec)],
    /// The committed transactions, in the serial order.
    pub order: &'a [TxnNo],
    /// The others that were submitted, in order of submission.
    pub pending: &'a [Pending],
    /// The copies, ascending by module and then by fragment.
    pub copies: &'a [CopyTable],
}

impl<'a> Model for Report<'a> {
    ghost Value = { definitions.Report };

    ghost view = { λ r. record {
      catalogue = r.catalogue.now;
      txns = r.txns.now;
      history = r.history.now;
      order = r.order.now;
      pending = r.pending.now;
      copies = r.copies.now;
    } };
}

/// What stands before the replies: the trace, and the order.
fn put_front(out: &mut Vec<u8>, report: &Report) -> Result<(), NoMemory>
    ensures { OnOk result (
        out.new.items
        ≡ out.old.items ++ (trace report.now.catalogue report.now.txns report.now.history
        ++ order_line report.now.txns report.now.order)) }
{
    put_trace(out, report.catalogue, report.txns, report.history)?;
    put_order(out, report.txns, report.order)
}

/// What follows the replies.
fn put_end(out: &mut Vec<u8>, report: &Report, commits: &Commits) -> Result<(), NoMemory>
    requires { commits.now ≡ report.now.history }
    ensures { OnOk result (out.new.items ≡ out.old.items ++ after_replies report.now) }
{
    put_all_shipped(out, report.txns, commits, report.order)?;
    put_pending(out, report.catalogue, report.txns, report.pending)?;
    put_copies(out, report.catalogue, report.copies)?;
    put(out, b"end\n")
}

/// Adds what follows the replies. Where it is short it is copied, so that a short report is one page.
fn add_end(out: &mut Pages, end: Vec<u8>) -> Result<(), NoMemory>
    ensures { OnOk result (out.new ≡ out.old ++ end.items) }
{
    if end.len() < MIN_PAGE_BYTES {
        return out.put(end.as_slice());
    }
    out.add(end)
}

/// The text of the report. A number that names nothing has the empty name, and a transaction of the
/// order without a Commit has no reply; of two Commits of a transaction the first is printed.
///
/// Costs time in the text and, for each record, in the logarithm of the transactions. The lines of
/// large replies are shared with the history; takes memory for the other lines and a few words for
/// each transaction.
#[tactic(auto, using(crate::proofs::Whole::whole_report))]
pub fn report_pages(alloc: Global, report: &Report) -> Result<Pages, NoMemory>
    ensures { IfOk result (λ text. text ≡ report_text report.now) }
{
    let commits = Commits::of(alloc, report.history)?;
    let mut front = Vec::new(alloc);
    put_front(&mut front, report)?;
    let mut text = Pages::of(alloc, front);
    add_replies(&mut text, report.txns, &commits, report.order)?;
    let mut end = Vec::new(alloc);
    put_end(&mut end, report, &commits)?;
    add_end(&mut text, end)?;
    Ok(text)
}
