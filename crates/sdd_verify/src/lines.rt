//! The lines of a report.
ghost use Rattle.std.specs.Prelude.{◌≡◌, ◌+◌, ◌≤◌, ◌<◌, ◌∷◌, [], length, MatchOption};
ghost use Rattle.sdd_script.specs.All.{GivesReading};
ghost use Rattle.sdd_verify.specs.Flaws.{line_in};
ghost use Rattle.sdd_verify.specs.Lines.{lines_of, tells_reply};
ghost use Rattle.sdd_verify.specs.declared.limits.TheConstants.{MAX_REPORT_BYTES};

use crate::flaw::{Flaw, must};
use crate::limits::MAX_REPORT_BYTES;
use sdd_script::next_line;

/// Lines of a report that are left, with the number of the first of them.
#[derive(Clone, Copy)]
pub struct Lines<'a> {
    pub number: u32,
    pub bytes: &'a [u8],
    ghost few: { number + length bytes.now ≤ MAX_REPORT_BYTES + 1 },
}

impl<'a> Lines<'a> {
    ghost use Rattle.sdd_verify.specs.Numbered.{numbered};
    ghost use Rattle.sdd_verify.specs.Lines.{ends_replies, numbered_lines};

    /// All lines of a report; one that is too long is at fault before its first line.
    pub(crate) fn begin(report: &'a [u8]) -> Result<Self, Flaw>
        ensures { GivesReading line_in numbered result (numbered_lines report.now) }
    {
        must(0, report.len() <= MAX_REPORT_BYTES)?;
        Ok(Lines {
            number: 1,
            bytes: report,
        })
    }

    /// The first line, and the lines after it.
    pub(crate) fn next(self) -> Option<(&'a [u8], Lines<'a>)>
        ensures { MatchOption result
            (lines_of self.entry.bytes.now ≡ [])
            (λ x. (lines_of self.entry.bytes.now ≡ x.0.now ∷ lines_of x.1.bytes.now)
            × (x.1.number ≡ self.entry.number + 1) × (length x.1.bytes.now < length self.entry.bytes.now)) }
    {
        match next_line(self.bytes) {
            Some((line, bytes)) => Some((
                line,
                Lines {
                    number: self.number + 1,
                    bytes,
                },
            )),
            None => None,
        }
    }

    /// Whether the replies end before these lines: one is there, and it is of no reply.
    pub(crate) fn ends_replies(self) -> bool
        ensures { result ≡ ends_replies (lines_of self.entry.bytes.now) }
    {
        match self.next() {
            Some((line, _)) => !tells_reply(line),
            None => false,
        }
    }
}

/// Whether the line is of a reply.
fn tells_reply(line: &[u8]) -> bool
    ensures { result ≡ tells_reply line.now }
{
    line.starts_with(b"reply ") || line.starts_with(b"query ") || line.starts_with(b"row ")
}
