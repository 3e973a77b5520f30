//! The call of the program that shows what happens inside a run.
ghost use Rattle.std.specs.Prelude.{◌≡◌, ◌∷◌, [], map, string_bytes, IfNone, IfSome};
ghost use Rattle.sdd_run.specs.Runs.{EndsAtLimit};
ghost use Rattle.sdd_run.specs.script.Valid.{IsValid};
ghost use Rattle.sdd_shell.specs.Calls.{AnswersAs, EndsAs};
ghost use Rattle.sdd_shell.specs.Requests.{AnswersRequest, about_workload};
ghost use Rattle.sdd_shell.specs.States.{shelf_by, sink_by};
ghost use Rattle.sdd_shell.specs.Verdict.{MakesText};
ghost use Rattle.sdd_app_inside.specs.Inside.{AreNotTwo, inside_call};
ghost use Rattle.sdd_app_inside.specs.Text.{IsInsideOf};

use crate::text::inside_text;
use sdd_lang::{Catalogue, Pages, Shelf, Sink};
use sdd_run::{Workload, WorldEnd};
use sdd_shell::{Status, accepted_catalogue, accepted_workload, end_call};
use std::alloc::Global;

const USAGE: &[u8] = b"usage: sdd1_inside CAT WORK\n";

/// The text of what happens inside the run of the workload.
fn inside_pages(alloc: Global, catalogue: &Catalogue, work: Workload) -> Result<Pages, Status>
    requires { IsValid catalogue.now work }
    ensures { MakesText (IsInsideOf catalogue.now work) (EndsAtLimit catalogue.now work) result }
{
    match inside_text(alloc, catalogue, work) {
        Ok(text) => Ok(Pages::of(alloc, text)),
        Err(WorldEnd::Limit) => Err(Status::Limit),
        Err(WorldEnd::NoMemory) => Err(Status::NoMemory),
    }
}

/// The text over the catalogue in the first file and the workload in the second.
fn inside_answer<S: Shelf>(
    alloc: Global,
    shelf: &mut S,
    catalogue: &str,
    workload: &str,
) -> Result<Pages, Status>
    ensures { AnswersRequest (about_workload catalogue.now workload.now IsInsideOf EndsAtLimit)
        (shelf_by S.files S.is_open S.opened S.faults S.sure shelf.old)
        (shelf_by S.files S.is_open S.opened S.faults S.sure shelf.new) result }
{
    let catalogue = accepted_catalogue(alloc, shelf, catalogue)?;
    let work = accepted_workload(alloc, shelf, workload, &catalogue)?;
    inside_pages(alloc, &catalogue, work)
}

/// The names of two files.
#[derive(Clone, Copy)]
struct Pair<'a> {
    catalogue: &'a str,
    workload: &'a str,
}

/// The two words that there are.
fn pair_of<'a>(words: &'a [String]) -> Option<Pair<'a>>
    ensures found { IfSome result (λ pair. map string_bytes words.now ≡ pair.catalogue.now ∷ pair.workload.now ∷ []) }
    ensures none { IfNone result (AreNotTwo (map string_bytes words.now)) }
{
    match words {
        [catalogue, workload] => Some(Pair {
            catalogue: catalogue.as_str(),
            workload: workload.as_str(),
        }),
        _ => None,
    }
}

/// The text for the words, or the status of a call that prints none.
fn answer<S: Shelf>(alloc: Global, words: &[String], shelf: &mut S) -> Result<Pages, Status>
    ensures answers { AnswersAs inside_call (map string_bytes words.now)
        (shelf_by S.files S.is_open S.opened S.faults S.sure shelf.old)
        (shelf_by S.files S.is_open S.opened S.faults S.sure shelf.new) result }
    ensures untouched { AreNotTwo (map string_bytes words.now) → shelf.new ≡ shelf.old }
{
    match pair_of(words) {
        None => Err(Status::Usage),
        Some(pair) => inside_answer(alloc, shelf, pair.catalogue, pair.workload),
    }
}

/// Does all that the program does which shows what happens inside a run: takes the words after the
/// program's name, reads the two files that they name from the shelf, writes the whole text to `out` or
/// else the status's line to `err`.
///
/// The words are judged first, then the catalogue is read and judged, then the workload. Nothing is
/// written before the text is whole. Costs what the events cost, for each of them a look at each link,
/// queue and pipe; and the text.
pub fn run_inside<S: Shelf, O: Sink, E: Sink>(
    alloc: Global,
    words: &[String],
    shelf: &mut S,
    out: &mut O,
    err: &mut E,
) -> Status
    // What each status says of the words, the files, the text and the line: the fields of `EndsAs`.
    ensures ends { EndsAs inside_call (map string_bytes words.now)
        (shelf_by S.files S.is_open S.opened S.faults S.sure shelf.old)
        (shelf_by S.files S.is_open S.opened S.faults S.sure shelf.new)
        (sink_by O.taken O.faults O.sure out.old) (sink_by O.taken O.faults O.sure out.new)
        (sink_by E.taken E.faults E.sure err.old) (sink_by E.taken E.faults E.sure err.new) result }

    // Words that aren't two leave the shelf as it was.
    ensures untouched { AreNotTwo (map string_bytes words.now) → shelf.new ≡ shelf.old }
{
    end_call(answer(alloc, words, shelf), USAGE, out, err)
}
