//! Whether what was over before another transaction began stands before it.
ghost use Rattle.std.specs.Prelude.{◌≡◌, IfOk};
ghost use Rattle.std.specs.Option.{option_copied};
ghost use Rattle.sdd_certify.specs.Findings.{before_order, first_fault};
ghost use Rattle.sdd_certify.specs.Places.{place_of};
ghost use Rattle.sdd_certify.specs.Strict.{late_behind, late_on};
ghost use Rattle.sdd_certify.specs.Told.{told};
ghost use Rattle.sdd_verify.specs.Lines.{lines_of};

use crate::bytes::copied;
use crate::finding::Finding;
use crate::lines::next_before_order;
use crate::names::OrderNames;
use crate::words::told;
use sdd_script::NoMemory;
use std::alloc::Global;

/// The place of the transaction of which the line tells this.
fn place_told(
    alloc: Global,
    order: &OrderNames,
    verb: &[u8],
    line: &[u8],
) -> Result<usize, NoMemory>
    ensures { IfOk result (λ place. place ≡ place_of order.now (told verb.now line.now)) }
{
    let name = told(alloc, verb, line)?;
    order.place_of(alloc, name)
}

/// The transaction at the last place, where the one at this place stands before it.
fn late_behind<'a>(order: &OrderNames<'a>, last: usize, submitted: usize) -> Option<&'a [u8]>
    ensures { option_copied result ≡ late_behind order.now last submitted }
{
    if 0 < submitted && submitted < last {
        Some(order.name_at(last))
    } else {
        None
    }
}

/// The first line before the order line that tells the submission of a transaction that stands in the
/// order before one whose commit is told by then; of these the last is named. Costs time linear in
/// these lines, and a logarithmic step for each.
pub(crate) fn first_late(
    alloc: Global,
    order: &OrderNames,
    report: &[u8],
) -> Result<Finding, NoMemory>
    ensures { IfOk result (λ found. found ≡ first_fault (late_on order.now) (before_order (lines_of report.now))) }
{
    let mut before = 0;
    let mut last: usize = 0;
    let mut rest = report;
    'lines: while let Some((line, behind)) = next_before_order(rest) {
        let submitted = place_told(alloc, order, b"submit", line)?;
        if let Some(name) = late_behind(order, last, submitted) {
            return Ok(Finding::At(before + 1, copied(alloc, name)?));
        }
        last = last.max(place_told(alloc, order, b"commit", line)?);
        before += 1;
        rest = behind;
    }
    Ok(Finding::Yes)
}
