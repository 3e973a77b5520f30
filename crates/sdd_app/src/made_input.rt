//! The command that runs made input.
ghost use Rattle.std.specs.Prelude.{◌≤◌};
ghost use Rattle.sdd_lang.specs.All.{MAX_TXNS};
ghost use Rattle.sdd_verified.specs.run.Runs.{EndsAtLimit, IsSummaryOn};
ghost use Rattle.sdd_verified.specs.script.Valid.{IsValid};
ghost use Rattle.sdd_app.specs.Made.{IsMadeSummary, MadeEndsAtLimit};
ghost use Rattle.sdd_shell.specs.Verdict.{MakesText};

use sdd_lang::{Catalogue, Pages};
use sdd_shell::Status;
use sdd_verified::{Workload, WorldEnd, bank, law_workload_allowed, run_summary, workload};
use std::alloc::Global;

/// The summary of the run of the workload.
fn summed_up(alloc: Global, catalogue: &Catalogue, work: Workload) -> Result<Pages, Status>
    requires { IsValid catalogue.now work }
    ensures { MakesText (IsSummaryOn catalogue.now work) (EndsAtLimit catalogue.now work) result }
{
    match run_summary(alloc, catalogue, work) {
        Ok(text) => Ok(Pages::of(alloc, text)),
        Err(WorldEnd::Limit) => Err(Status::Limit),
        Err(WorldEnd::NoMemory) => Err(Status::NoMemory),
    }
}

/// What `make` answers: the summary of the run on the bank of the workload that is made of a seed,
/// with so many transactions.
pub fn make_answer(alloc: Global, seed: u32, count: u32) -> Result<Pages, Status>
    requires { count ≤ MAX_TXNS }
    ensures { MakesText (IsMadeSummary seed count) (MadeEndsAtLimit seed count) result }
{
    law_workload_allowed(seed, count);
    let catalogue = bank(alloc)?;
    let work = workload(alloc, seed, count)?;
    summed_up(alloc, &catalogue, work)
}
