//! The replies that have to come.
ghost use Rattle.std.specs.Prelude.{◌≡◌, map, All};
ghost use Rattle.sdd_script.specs.All.{FitsStart, FitsTxn, GivesReading, database_of};
ghost use Rattle.sdd_report.specs.Replies.{reply_lines};
ghost use Rattle.sdd_verify.specs.Flaws.{line_in};
ghost use Rattle.sdd_verify.specs.Lines.{lines_of, passed};
ghost use Rattle.sdd_verify.specs.Numbered.{numbered};
ghost use Rattle.sdd_verify.specs.Replies.{replies_on};

use crate::flaw::Flaw;
use crate::lines::Lines;
use crate::passing::pass;
use sdd_plain::Plain;
use sdd_report::put_reply;
use sdd_script::{Catalogue, Reply, StartRows, Txn};
use std::alloc::Global;

/// What follows the lines of this reply, which have to come first.
fn pass_reply<'a>(
    alloc: Global,
    name: &[u8],
    reply: &Reply,
    report: Lines<'a>,
) -> Result<Lines<'a>, Flaw>
    ensures { GivesReading line_in numbered result
        (passed report.entry.number (lines_of (reply_lines name.now reply.now)) (lines_of report.entry.bytes.now)) }
{
    let mut text = Vec::new(alloc);
    put_reply(&mut text, name, reply)?;
    pass(text.as_slice(), report)
}

/// What follows the replies of these transactions, which have to come first: the replies of the one
/// plain database that begins with these rows and runs the transactions one after the other.
///
/// Costs what the transactions do until the first line that is another, and memory for one reply.
pub(crate) fn pass_replies<'a>(
    alloc: Global,
    catalogue: &Catalogue,
    rows: &StartRows,
    txns: &[&Txn],
    report: Lines<'a>,
) -> Result<Lines<'a>, Flaw>
    requires rows { All (FitsStart catalogue.now) rows.now }
    requires txns { All (λ t. FitsTxn catalogue.now t.now) txns.now }
    ensures { GivesReading line_in numbered result
        (passed report.entry.number
        (lines_of (replies_on catalogue.now (database_of catalogue.now rows.now) (map (λ t. t.now) txns.now)))
        (lines_of report.entry.bytes.now)) }
{
    let mut plain = Plain::new(alloc, catalogue, rows.as_slice())?;
    let mut lines = report;
    'txns: for txn in txns {
        let reply = plain.run(catalogue, txn)?;
        lines = pass_reply(alloc, txn.name.as_str().as_bytes(), &reply, lines)?;
    }
    Ok(lines)
}
