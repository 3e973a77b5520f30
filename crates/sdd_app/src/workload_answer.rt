//! The command that runs a workload.
ghost use Rattle.sdd_verified.specs.run.Runs.{EndsAtLimit, IsReportOn};
ghost use Rattle.sdd_verified.specs.script.Valid.{IsValid};
ghost use Rattle.sdd_shell.specs.Requests.{AnswersRequest, about_workload};
ghost use Rattle.sdd_shell.specs.States.{shelf_by};
ghost use Rattle.sdd_shell.specs.Verdict.{MakesText};

use sdd_lang::{Catalogue, Pages, Shelf};
use sdd_shell::{Status, accepted_catalogue, accepted_workload};
use sdd_verified::{Workload, WorldEnd, run_report};
use std::alloc::Global;

/// The report on the run of the workload.
fn report_pages_of(alloc: Global, catalogue: &Catalogue, work: Workload) -> Result<Pages, Status>
    requires { IsValid catalogue.now work }
    ensures { MakesText (IsReportOn catalogue.now work) (EndsAtLimit catalogue.now work) result }
{
    match run_report(alloc, catalogue, work) {
        Ok(text) => Ok(text),
        Err(WorldEnd::Limit) => Err(Status::Limit),
        Err(WorldEnd::NoMemory) => Err(Status::NoMemory),
    }
}

/// What `run` answers over the catalogue in the first file and the workload in the second.
pub fn run_answer<S: Shelf>(
    alloc: Global,
    shelf: &mut S,
    catalogue: &str,
    workload: &str,
) -> Result<Pages, Status>
    ensures { AnswersRequest (about_workload catalogue.now workload.now IsReportOn EndsAtLimit)
        (shelf_by S.files S.is_open S.opened S.faults S.sure shelf.old)
        (shelf_by S.files S.is_open S.opened S.faults S.sure shelf.new) result }
{
    let catalogue = accepted_catalogue(alloc, shelf, catalogue)?;
    let work = accepted_workload(alloc, shelf, workload, &catalogue)?;
    report_pages_of(alloc, &catalogue, work)
}
