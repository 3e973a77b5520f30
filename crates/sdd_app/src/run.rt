//! The call of the program.
ghost use Rattle.std.specs.Prelude.{◌≡◌, map, string_bytes};
ghost use Rattle.sdd_commands.specs.Command.{IsForm, form_of};
ghost use Rattle.sdd_shell.specs.Calls.{AnswersAs, EndsAs, OpensNoFile};
ghost use Rattle.sdd_shell.specs.NamedFiles.{OpensNone};
ghost use Rattle.sdd_shell.specs.Requests.{AnswersRequest};
ghost use Rattle.sdd_shell.specs.States.{shelf_by, sink_by};
ghost use Rattle.sdd_app.specs.Answer.{request_of};
ghost use Rattle.sdd_app.specs.Calls.{sdd1_call};

use crate::made_input::make_answer;
use crate::workload_answer::run_answer;
use sdd_commands::{
    Command, Listing, control_answer, listing_answer, parse_words, plain_answer, verify_answer,
};
use sdd_lang::{Pages, Shelf, Sink};
use sdd_shell::{Status, end_call};
use std::alloc::Global;

const USAGE: &[u8] =
    b"usage: sdd1 check CAT | graph CAT | table CAT | run CAT WORK | plain CAT WORK | make SEED N | control FILE | verify CAT WORK REPORT | advise CAT\n";

/// The text that the command prints, or the status of a call that prints none.
fn carry_out_command<S: Shelf>(
    alloc: Global,
    command: Command,
    shelf: &mut S,
) -> Result<Pages, Status>
    requires { IsForm (form_of command) }
    ensures answers { AnswersRequest (request_of (form_of command.entry))
        (shelf_by S.files S.is_open S.opened S.faults S.sure shelf.old)
        (shelf_by S.files S.is_open S.opened S.faults S.sure shelf.new) result }
    ensures untouched { OpensNone (request_of (form_of command.entry)).names → shelf.new ≡ shelf.old }
{
    match command {
        Command::Check(catalogue) => listing_answer(alloc, shelf, catalogue, Listing::Counts),
        Command::Graph(catalogue) => listing_answer(alloc, shelf, catalogue, Listing::Graph),
        Command::Table(catalogue) => listing_answer(alloc, shelf, catalogue, Listing::Table),
        Command::Run(catalogue, workload) => run_answer(alloc, shelf, catalogue, workload),
        Command::Plain(catalogue, workload) => plain_answer(alloc, shelf, catalogue, workload),
        Command::Control(file) => control_answer(alloc, shelf, file),
        Command::Make(seed, count) => make_answer(alloc, seed, count),
        Command::Verify(catalogue, workload, report) => {
            verify_answer(alloc, shelf, catalogue, workload, report)
        }
        Command::Advise(catalogue) => listing_answer(alloc, shelf, catalogue, Listing::Advice),
    }
}

/// The text for the words, or the status of a call that prints none.
fn answer<S: Shelf>(alloc: Global, words: &[String], shelf: &mut S) -> Result<Pages, Status>
    ensures answers { AnswersAs sdd1_call (map string_bytes words.now)
        (shelf_by S.files S.is_open S.opened S.faults S.sure shelf.old)
        (shelf_by S.files S.is_open S.opened S.faults S.sure shelf.new) result }
    ensures untouched { OpensNoFile sdd1_call (map string_bytes words.now) → shelf.new ≡ shelf.old }
{
    match parse_words(words) {
        None => Err(Status::Usage),
        Some(command) => carry_out_command(alloc, command, shelf),
    }
}

/// Does all that the program does: takes the words after the program's name, reads the files that
/// they name from the shelf, writes the whole text to `out` or else the status's line to `err`.
///
/// The words are judged first, then the catalogue is read and judged, then the workload, then a report.
/// One of the shelf's places is taken for each file that is read. Nothing is written before the text is
/// whole. Reading takes time linear in the files, but for the square of the catalogue's parts;
/// transactions cost what they do on one plain database, and runs what their events cost.
pub fn run_sdd1<S: Shelf, O: Sink, E: Sink>(
    alloc: Global,
    words: &[String],
    shelf: &mut S,
    out: &mut O,
    err: &mut E,
) -> Status
    // What each status says of the words, the files, the text and the line: the fields of `EndsAs`.
    ensures ends { EndsAs sdd1_call (map string_bytes words.now)
        (shelf_by S.files S.is_open S.opened S.faults S.sure shelf.old)
        (shelf_by S.files S.is_open S.opened S.faults S.sure shelf.new)
        (sink_by O.taken O.faults O.sure out.old) (sink_by O.taken O.faults O.sure out.new)
        (sink_by E.taken E.faults E.sure err.old) (sink_by E.taken E.faults E.sure err.new) result }

    // Words of no form, and those of a form that opens no file, leave the shelf as it was.
    ensures untouched { OpensNoFile sdd1_call (map string_bytes words.now) → shelf.new ≡ shelf.old }
{
    end_call(answer(alloc, words, shelf), USAGE, out, err)
}
