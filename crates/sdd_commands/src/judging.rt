//! The command that judges a report.
ghost use Rattle.std.specs.Prelude.{◌≡◌, ◌++◌, IfOk, OnOk};
ghost use Rattle.sdd_script.specs.Valid.{IsValid};
ghost use Rattle.sdd_verify.specs.Verdict.{verdict};
ghost use Rattle.sdd_shell.specs.Accepting.{TellsOfRead};
ghost use Rattle.sdd_shell.specs.Requests.{AnswersRequest, about_report};
ghost use Rattle.sdd_shell.specs.States.{shelf_by};
ghost use Rattle.sdd_commands.specs.Requests.{judged_as};
ghost use Rattle.sdd_commands.specs.Judging.{verdict_line};

use sdd_lang::{Catalogue, NoMemory, Pages, Shelf};
use sdd_script::Workload;
use sdd_shell::{Status, accepted_catalogue, accepted_workload, read_named};
use sdd_verify::{MAX_REPORT_BYTES, Verdict, verify};
use sdd_words::{put, put_count};
use std::alloc::Global;

fn put_verdict(out: &mut Vec<u8>, verdict: Verdict) -> Result<(), NoMemory>
    ensures { OnOk result (out.new.items ≡ out.old.items ++ verdict_line verdict) }
{
    match verdict {
        Verdict::Yes => put(out, b"yes\n"),
        Verdict::No(line) => {
            put(out, b"no ")?;
            put_count(out, u64::from(line))?;
            put(out, b"\n")
        }
    }
}

/// The line with the verdict on the report.
fn judge_report(
    alloc: Global,
    catalogue: &Catalogue,
    work: &Workload,
    report: &[u8],
) -> Result<Vec<u8>, NoMemory>
    requires { IsValid catalogue.now work.now }
    ensures { IfOk result (λ text. text.items ≡ verdict_line (verdict catalogue.now work.now report.now)) }
{
    let verdict = verify(alloc, catalogue, work, report)?;
    let mut text = Vec::new(alloc);
    put_verdict(&mut text, verdict)?;
    Ok(text)
}

/// The line with the verdict on the report in the file.
fn report_answer<S: Shelf>(
    alloc: Global,
    shelf: &mut S,
    catalogue: &Catalogue,
    work: &Workload,
    report: &str,
) -> Result<Pages, Status>
    requires { IsValid catalogue.now work.now }
    ensures { TellsOfRead MAX_REPORT_BYTES report.now (judged_as catalogue.now work.now)
        (shelf_by S.files S.is_open S.opened S.faults S.sure shelf.old)
        (shelf_by S.files S.is_open S.opened S.faults S.sure shelf.new) result }
{
    let bytes = read_named(alloc, shelf, report, MAX_REPORT_BYTES)?;
    Ok(Pages::of(
        alloc,
        judge_report(alloc, catalogue, work, bytes.as_slice())?,
    ))
}

/// What `verify` answers over the catalogue in the first file, the workload in the second and the
/// report in the third.
pub fn verify_answer<S: Shelf>(
    alloc: Global,
    shelf: &mut S,
    catalogue: &str,
    workload: &str,
    report: &str,
) -> Result<Pages, Status>
    ensures { AnswersRequest (about_report MAX_REPORT_BYTES catalogue.now workload.now report.now judged_as)
        (shelf_by S.files S.is_open S.opened S.faults S.sure shelf.old)
        (shelf_by S.files S.is_open S.opened S.faults S.sure shelf.new) result }
{
    let catalogue = accepted_catalogue(alloc, shelf, catalogue)?;
    let work = accepted_workload(alloc, shelf, workload, &catalogue)?;
    report_answer(alloc, shelf, &catalogue, &work, report)
}
