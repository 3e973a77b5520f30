//! The line of a report that gives the order.
ghost use Rattle.std.specs.Prelude.{◌≡◌};
ghost use Rattle.sdd_script.specs.All.{GivesReading};
ghost use Rattle.sdd_verify.specs.Flaws.{line_in};
ghost use Rattle.sdd_verify.specs.Lines.{is_order_line, lines_of, order_line_in};
ghost use Rattle.sdd_verify.specs.Numbered.{numbered};

use crate::flaw::Flaw;
use crate::lines::Lines;

/// Whether the line gives the order.
fn is_order_line(line: &[u8]) -> bool
    ensures { result ≡ is_order_line line.now }
{
    line == b"order".as_slice() || line.starts_with(b"order ")
}

/// The first order line, with its number and the lines after it. Costs time linear in the lines.
pub(crate) fn order_line(report: Lines<'_>) -> Result<(u32, &[u8], Lines<'_>), Flaw>
    ensures { GivesReading line_in (λ at. (at.0, at.1.now, numbered at.2)) result
        (order_line_in report.entry.number (lines_of report.entry.bytes.now)) }
{
    let mut lines = report;
    'lines: while let Some((line, behind)) = lines.next() {
        if is_order_line(line) {
            return Ok((lines.number, line, behind));
        }
        lines = behind;
    }
    Err(Flaw::Line(lines.number))
}
