//! Whether the order names each transaction whose commit is told.
ghost use Rattle.std.specs.Prelude.{◌≡◌, IfOk};
ghost use Rattle.std.specs.Option.{option_copied};
ghost use Rattle.sdd_certify.specs.Complete.{missing, missing_on};
ghost use Rattle.sdd_certify.specs.Findings.{before_order, first_fault};
ghost use Rattle.sdd_certify.specs.Told.{commit_on};
ghost use Rattle.sdd_verify.specs.Lines.{lines_of};

use crate::bytes::copied;
use crate::finding::Finding;
use crate::lines::next_before_order;
use crate::names::OrderNames;
use crate::words::told;
use sdd_script::NoMemory;
use std::alloc::Global;

/// The transaction whose commit the line tells, where the order doesn't name it.
fn missing_on<'a>(
    alloc: Global,
    order: &OrderNames,
    line: &'a [u8],
) -> Result<Option<&'a [u8]>, NoMemory>
    ensures { IfOk result (λ name. option_copied name ≡ missing order.now (commit_on line.now)) }
{
    let committed = told(alloc, b"commit", line)?;
    if order.place_of(alloc, committed)? == 0 {
        Ok(committed)
    } else {
        Ok(None)
    }
}

/// The first line before the order line that tells the commit of a transaction that the order doesn't
/// name. Costs time linear in these lines, and a logarithmic step for each.
pub(crate) fn first_missing(
    alloc: Global,
    order: &OrderNames,
    report: &[u8],
) -> Result<Finding, NoMemory>
    ensures { IfOk result (λ found. found ≡ first_fault (missing_on order.now) (before_order (lines_of report.now))) }
{
    let mut before = 0;
    let mut rest = report;
    'lines: while let Some((line, behind)) = next_before_order(rest) {
        if let Some(name) = missing_on(alloc, order, line)? {
            return Ok(Finding::At(before + 1, copied(alloc, name)?));
        }
        before += 1;
        rest = behind;
    }
    Ok(Finding::Yes)
}
