//! The call of the program for questions.
ghost use Rattle.std.specs.Prelude.{◌≡◌, map, string_bytes};
ghost use Rattle.sdd_shell.specs.Calls.{AnswersAs, EndsAs};
ghost use Rattle.sdd_shell.specs.States.{shelf_by, sink_by};
ghost use Rattle.sdd_app_ask.specs.Calls.{ask_call};
ghost use Rattle.sdd_app_ask.specs.Forms.{IsNoForm};

use crate::asked::{Asked, asked_in};
use crate::certifying::certify_answer;
use crate::questions::question_answer;
use crate::transactions::robust_answer;
use sdd_lang::{Pages, Shelf, Sink};
use sdd_shell::{Status, end_call};
use std::alloc::Global;

const USAGE: &[u8] = b"usage: sdd1_ask robust CAT [WORK] | needs CAT | certify CAT WORK REPORT\n";

/// The text for the words, or the status of a call that prints none.
fn answer<S: Shelf>(alloc: Global, words: &[String], shelf: &mut S) -> Result<Pages, Status>
    ensures answers { AnswersAs ask_call (map string_bytes words.now)
        (shelf_by S.files S.is_open S.opened S.faults S.sure shelf.old)
        (shelf_by S.files S.is_open S.opened S.faults S.sure shelf.new) result }
    ensures untouched { IsNoForm (map string_bytes words.now) → shelf.new ≡ shelf.old }
{
    match asked_in(words) {
        None => Err(Status::Usage),
        Some(asked) => match asked {
            Asked::OfCatalogue(question, catalogue) => {
                question_answer(alloc, shelf, catalogue, question)
            }
            Asked::RobustWorkload(catalogue, workload) => {
                robust_answer(alloc, shelf, catalogue, workload)
            }
            Asked::Certify(catalogue, workload, report) => {
                certify_answer(alloc, shelf, catalogue, workload, report)
            }
        },
    }
}

/// Does all that the program for questions does: takes the words after the program's name, reads the
/// files that they name from the shelf, writes the whole answer to `out` or else the status's line to
/// `err`.
///
/// The words are judged first, then the catalogue is read and judged, then the workload where one is
/// named, and then the report. One of the shelf's places is taken for each file that is read. Nothing is
/// written before the answer is whole. A question about a catalogue costs what its protocol table does,
/// and a certificate what `certify` says.
pub fn run_ask<S: Shelf, O: Sink, E: Sink>(
    alloc: Global,
    words: &[String],
    shelf: &mut S,
    out: &mut O,
    err: &mut E,
) -> Status
    // What each status says of the words, the files, the text and the line: the fields of `EndsAs`.
    ensures ends { EndsAs ask_call (map string_bytes words.now)
        (shelf_by S.files S.is_open S.opened S.faults S.sure shelf.old)
        (shelf_by S.files S.is_open S.opened S.faults S.sure shelf.new)
        (sink_by O.taken O.faults O.sure out.old) (sink_by O.taken O.faults O.sure out.new)
        (sink_by E.taken E.faults E.sure err.old) (sink_by E.taken E.faults E.sure err.new) result }

    // Words of no form leave the shelf as it was.
    ensures untouched { IsNoForm (map string_bytes words.now) → shelf.new ≡ shelf.old }
{
    end_call(answer(alloc, words, shelf), USAGE, out, err)
}
