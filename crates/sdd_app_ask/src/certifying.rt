//! What a report promises of a workload.
ghost use Rattle.sdd_certify.specs.Certificate.{certificate};
ghost use Rattle.sdd_certify.specs.script.Valid.{IsValid};
ghost use Rattle.sdd_shell.specs.Accepting.{TellsOfRead};
ghost use Rattle.sdd_shell.specs.Requests.{AnswersRequest, about_report};
ghost use Rattle.sdd_shell.specs.States.{shelf_by};

use sdd_certify::{MAX_REPORT_BYTES, Workload, certify};
use sdd_lang::{Catalogue, Pages, Shelf};
use sdd_shell::{Status, accepted_catalogue, accepted_workload, read_named};
use std::alloc::Global;

/// The certificate of the report in the file.
fn report_answer<S: Shelf>(
    alloc: Global,
    shelf: &mut S,
    catalogue: &Catalogue,
    work: &Workload,
    report: &str,
) -> Result<Pages, Status>
    requires { IsValid catalogue.now work.now }
    ensures { TellsOfRead MAX_REPORT_BYTES report.now (certificate catalogue.now work.now)
        (shelf_by S.files S.is_open S.opened S.faults S.sure shelf.old)
        (shelf_by S.files S.is_open S.opened S.faults S.sure shelf.new) result }
{
    let bytes = read_named(alloc, shelf, report, MAX_REPORT_BYTES)?;
    Ok(Pages::of(alloc, certify(alloc, catalogue, work, bytes.as_slice())?))
}

/// The certificate over the catalogue in the first file, the workload in the second and the report in
/// the third.
pub fn certify_answer<S: Shelf>(
    alloc: Global,
    shelf: &mut S,
    catalogue: &str,
    workload: &str,
    report: &str,
) -> Result<Pages, Status>
    ensures { AnswersRequest (about_report MAX_REPORT_BYTES catalogue.now workload.now report.now certificate)
        (shelf_by S.files S.is_open S.opened S.faults S.sure shelf.old)
        (shelf_by S.files S.is_open S.opened S.faults S.sure shelf.new) result }
{
    let catalogue = accepted_catalogue(alloc, shelf, catalogue)?;
    let work = accepted_workload(alloc, shelf, workload, &catalogue)?;
    report_answer(alloc, shelf, &catalogue, &work, report)
}
