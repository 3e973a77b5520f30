//! A line of the replies that are due.
ghost use Rattle.std.specs.Prelude.{◌≡◌, ◌+◌, map, length, slice_get, All, IfOk, MatchResult, Some};
ghost use Rattle.sdd_certify.specs.Skipping.{IsSkipped};
ghost use Rattle.sdd_report.specs.Replies.{reply_lines};
ghost use Rattle.sdd_script.specs.All.{FitsStart, FitsTxn, database_of};
ghost use Rattle.sdd_verify.specs.Lines.{lines_of};
ghost use Rattle.sdd_verify.specs.Replies.{replies_on};

use crate::bytes::copied;
use sdd_plain::Plain;
use sdd_report::put_reply;
use sdd_script::{Bytes, Catalogue, NoMemory, Reply, StartRows, Txn, next_line};
use std::alloc::Global;

/// Where a line is that stands behind some others.
#[derive(Drop)]
pub enum Skipped {
    /// It is this one.
    Line(Bytes),
    /// It stands so many lines behind the end of the text.
    Left(usize),
}

/// The line of the text that stands behind so many.
fn line_behind<'a>(text: &'a [u8], skipped: usize) -> Result<&'a [u8], usize>
    ensures { MatchResult result (λ line. slice_get (lines_of text.now) skipped ≡ Some line.now)
        (λ left. length (lines_of text.now) + left ≡ skipped) }
{
    let mut left = skipped;
    let mut rest = text;
    'lines: while let Some((line, behind)) = next_line(rest) {
        if left == 0 {
            return Ok(line);
        }
        left -= 1;
        rest = behind;
    }
    Err(left)
}

/// The line of a reply that stands behind so many.
fn reply_line(
    alloc: Global,
    name: &[u8],
    reply: &Reply,
    skipped: usize,
) -> Result<Skipped, NoMemory>
    ensures { IfOk result (IsSkipped (lines_of (reply_lines name.now reply.now)) skipped) }
{
    let mut text = Vec::new(alloc);
    put_reply(&mut text, name, reply)?;
    match line_behind(text.as_slice(), skipped) {
        Ok(line) => Ok(Skipped::Line(copied(alloc, line)?)),
        Err(left) => Ok(Skipped::Left(left)),
    }
}

/// The line that stands behind so many among the replies of these transactions, on the one plain
/// database that begins with these rows and runs them one after the other.
///
/// Costs what the transactions do up to that line, and memory for one reply.
pub(crate) fn replies_line(
    alloc: Global,
    catalogue: &Catalogue,
    rows: &StartRows,
    txns: &[&Txn],
    skipped: usize,
) -> Result<Option<Bytes>, NoMemory>
    requires rows { All (FitsStart catalogue.now) rows.now }
    requires txns { All (λ t. FitsTxn catalogue.now t.now) txns.now }
    ensures { IfOk result (λ line. line ≡ slice_get
        (lines_of (replies_on catalogue.now (database_of catalogue.now rows.now) (map (λ t. t.now) txns.now))) skipped) }
{
    let mut plain = Plain::new(alloc, catalogue, rows.as_slice())?;
    let mut left = skipped;
    'txns: for txn in txns {
        let reply = plain.run(catalogue, txn)?;
        let next = reply_line(alloc, txn.name.as_str().as_bytes(), &reply, left)?;
        match next {
            Skipped::Line(line) => return Ok(Some(line)),
            Skipped::Left(more) => left = more,
        }
    }
    Ok(None)
}
