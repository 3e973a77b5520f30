//! Lines of a report that have to come.
ghost use Rattle.std.specs.Prelude.{◌≡◌, ◌∷◌, []};
ghost use Rattle.sdd_script.specs.All.{GivesReading};
ghost use Rattle.sdd_verify.specs.Flaws.{line_in};
ghost use Rattle.sdd_verify.specs.Lines.{lines_of, passed};
ghost use Rattle.sdd_verify.specs.Numbered.{numbered};

use crate::flaw::Flaw;
use crate::lines::Lines;
use sdd_script::next_line;

/// What follows this line, which has to come first.
fn pass_line<'a>(line: &[u8], report: Lines<'a>) -> Result<Lines<'a>, Flaw>
    ensures { GivesReading line_in numbered result
        (passed report.entry.number (line.now ∷ []) (lines_of report.entry.bytes.now)) }
{
    match report.next() {
        Some((found, behind)) => {
            if found == line {
                Ok(behind)
            } else {
                Err(Flaw::Line(report.number))
            }
        }
        None => Err(Flaw::Line(report.number)),
    }
}

/// What follows the lines of this text, which have to come first, one by one. Costs time linear in
/// the text.
pub(crate) fn pass<'a>(text: &[u8], report: Lines<'a>) -> Result<Lines<'a>, Flaw>
    ensures { GivesReading line_in numbered result
        (passed report.entry.number (lines_of text.now) (lines_of report.entry.bytes.now)) }
{
    let mut expected = text;
    let mut lines = report;
    'lines: while let Some((line, more)) = next_line(expected) {
        lines = pass_line(line, lines)?;
        expected = more;
    }
    Ok(lines)
}
