//! Whether snapshot isolation is enough for the transactions of a workload.
ghost use Rattle.sdd_certify.specs.script.Valid.{IsValid};
ghost use Rattle.sdd_robust_answer.specs.Answers.{IsRobustAnswer};
ghost use Rattle.sdd_shell.specs.OverWorkload.{MakesNoRun};
ghost use Rattle.sdd_shell.specs.Requests.{AnswersRequest, about_workload};
ghost use Rattle.sdd_shell.specs.States.{shelf_by};
ghost use Rattle.sdd_shell.specs.Verdict.{MakesText};

use sdd_certify::Workload;
use sdd_lang::{Catalogue, Pages, Shelf};
use sdd_robust_answer::robust_work_text;
use sdd_shell::{Status, accepted_catalogue, accepted_workload};
use std::alloc::Global;

/// The answer for the workload.
fn robust_pages(alloc: Global, catalogue: &Catalogue, work: &Workload) -> Result<Pages, Status>
    requires { IsValid catalogue.now work.now }
    ensures { MakesText (IsRobustAnswer catalogue.now work.now) (MakesNoRun catalogue.now work.now) result }
{
    Ok(Pages::of(alloc, robust_work_text(alloc, catalogue, work)?))
}

/// The answer over the catalogue in the first file and the workload in the second.
pub fn robust_answer<S: Shelf>(
    alloc: Global,
    shelf: &mut S,
    catalogue: &str,
    workload: &str,
) -> Result<Pages, Status>
    ensures { AnswersRequest (about_workload catalogue.now workload.now IsRobustAnswer MakesNoRun)
        (shelf_by S.files S.is_open S.opened S.faults S.sure shelf.old)
        (shelf_by S.files S.is_open S.opened S.faults S.sure shelf.new) result }
{
    let catalogue = accepted_catalogue(alloc, shelf, catalogue)?;
    let work = accepted_workload(alloc, shelf, workload, &catalogue)?;
    robust_pages(alloc, &catalogue, &work)
}
