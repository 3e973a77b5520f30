//! The lines of a report up to its order line.
ghost use Rattle.std.specs.Prelude.{◌≡◌, ◌+◌, ◌<◌, ◌≤◌, ◌∷◌, [], length, MatchOption, Some};
ghost use Rattle.sdd_certify.specs.Findings.{before_order, order_in};
ghost use Rattle.sdd_script.specs.All.{GivesReading};
ghost use Rattle.sdd_verify.specs.Lines.{is_order_line, lines_of, order_line_in};

use sdd_script::next_line;
use sdd_verify::MAX_REPORT_BYTES;

/// Whether the line gives the order.
fn is_order_line(line: &[u8]) -> bool
    ensures { result ≡ is_order_line line.now }
{
    line == b"order".as_slice() || line.starts_with(b"order ")
}

/// The next line, and what stands after it, where the order line doesn't come yet.
pub(crate) fn next_before_order(report: &[u8]) -> Option<(&[u8], &[u8])>
    ensures { MatchOption result
        (before_order (lines_of report.now) ≡ [])
        (λ x. (before_order (lines_of report.now) ≡ x.0.now ∷ before_order (lines_of x.1.now))
        × (length x.1.now < length report.now)) }
{
    match next_line(report) {
        Some((line, rest)) => {
            if is_order_line(line) {
                None
            } else {
                Some((line, rest))
            }
        }
        None => None,
    }
}

/// The first order line, with its number and what stands after it; else the number after the last
/// line. Costs time linear in the report.
pub(crate) fn order_line(report: &[u8]) -> Result<(usize, &[u8], &[u8]), usize>
    ensures { GivesReading (λ number. Some number) (λ at. (at.0, at.1.now, (at.0 + 1, lines_of at.2.now))) result
        (order_line_in 1 (lines_of report.now)) }
{
    let mut number = 1;
    let mut rest = report;
    'lines: while let Some((line, behind)) = next_line(rest) {
        if is_order_line(line) {
            return Ok((number, line, behind));
        }
        number += 1;
        rest = behind;
    }
    Err(number)
}

/// The same of a report that isn't too long.
pub(crate) fn order_in(report: &[u8]) -> Result<(usize, &[u8], &[u8]), usize>
    ensures { GivesReading (λ number. Some number) (λ at. (at.0, at.1.now, (at.0 + 1, lines_of at.2.now))) result
        (order_in report.now) }
{
    if report.len() > MAX_REPORT_BYTES {
        return Err(0);
    }
    order_line(report)
}
