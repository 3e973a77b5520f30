//! The command that runs a workload on one plain database.
ghost use Rattle.std.specs.Prelude.{◌≡◌};
ghost use Rattle.sdd_script.specs.Valid.{IsValid};
ghost use Rattle.sdd_shell.specs.OverWorkload.{MakesNoRun};
ghost use Rattle.sdd_shell.specs.Requests.{AnswersRequest, about_workload};
ghost use Rattle.sdd_shell.specs.States.{shelf_by};
ghost use Rattle.sdd_shell.specs.Verdict.{MakesText};
ghost use Rattle.sdd_commands.specs.Requests.{IsSerialText};

use crate::serially::serial_text;
use sdd_lang::{Catalogue, Pages, Shelf};
use sdd_script::Workload;
use sdd_shell::{Status, accepted_catalogue, accepted_workload};
use std::alloc::Global;

/// The replies of the workload, whose transactions run one after the other.
fn serial_pages(alloc: Global, catalogue: &Catalogue, work: &Workload) -> Result<Pages, Status>
    requires { IsValid catalogue.now work.now }
    ensures { MakesText (IsSerialText catalogue.now work.now) (MakesNoRun catalogue.now work.now) result }
{
    Ok(Pages::of(alloc, serial_text(alloc, catalogue, work)?))
}

/// What `plain` answers over the catalogue in the first file and the workload in the second.
pub fn plain_answer<S: Shelf>(
    alloc: Global,
    shelf: &mut S,
    catalogue: &str,
    workload: &str,
) -> Result<Pages, Status>
    ensures { AnswersRequest (about_workload catalogue.now workload.now IsSerialText MakesNoRun)
        (shelf_by S.files S.is_open S.opened S.faults S.sure shelf.old)
        (shelf_by S.files S.is_open S.opened S.faults S.sure shelf.new) result }
{
    let catalogue = accepted_catalogue(alloc, shelf, catalogue)?;
    let work = accepted_workload(alloc, shelf, workload, &catalogue)?;
    serial_pages(alloc, &catalogue, &work)
}
