//! Whether the transactions of a workload may run under snapshot isolation.
ghost use Rattle.std.specs.Prelude.{◌≡◌, IfOk};
ghost use Rattle.sdd_lang.specs.All.{database_of};
ghost use Rattle.sdd_robust.specs.Members.{members_of};
ghost use Rattle.sdd_robust.specs.Workloads.{IsPivotOf};
ghost use Rattle.sdd_robust_answer.specs.Answers.{IsRobustAnswer};
ghost use Rattle.sdd_script.specs.All.{IsValid};

use crate::lines::{not_robust, robust, unknown};
use sdd_lang::{Catalogue, NoMemory};
use sdd_robust::{Member, Places, find_pivot, members};
use sdd_script::Workload;
use sdd_short_runs::find_counterexample;
use std::alloc::Global;

/// The answer where there is a pivot: a run that is like no serial one, if one is found.
fn pivot_text(
    alloc: Global,
    catalogue: &Catalogue,
    work: &Workload,
    all: &[Member],
    pivot: Places,
) -> Result<Vec<u8>, NoMemory>
    requires valid { IsValid catalogue.now work.now }
    requires members { all.now ≡ members_of catalogue.now work.now.txns (database_of catalogue.now work.now.rows) }
    requires pivot { IsPivotOf catalogue.now work.now.txns (database_of catalogue.now work.now.rows) pivot }
    ensures { IfOk result (λ text. IsRobustAnswer catalogue.now work.now text.items) }
{
    let rows = work.rows.as_slice();
    let txns = work.txns.as_slice();
    match find_counterexample(alloc, catalogue, rows, txns, all)? {
        Some(short) => not_robust(alloc, &short),
        None => unknown(alloc, txns, pivot),
    }
}

/// Whether the transactions of the workload, each any number of times, may run under snapshot isolation
/// from the workload's rows on: `robust` where no transaction may be a pivot; else `not robust`, with a
/// run that is like no serial one, where a short one is found; else `unknown`, with a pivot.
///
/// Costs what `members`, `find_pivot` and, where there is a pivot, `find_counterexample` cost.
pub fn robust_work_text(
    alloc: Global,
    catalogue: &Catalogue,
    work: &Workload,
) -> Result<Vec<u8>, NoMemory>
    requires { IsValid catalogue.now work.now }
    ensures { IfOk result (λ text. IsRobustAnswer catalogue.now work.now text.items) }
{
    let all = members(alloc, catalogue, work)?;
    match find_pivot(alloc, catalogue, work, all.as_slice())? {
        None => robust(alloc),
        Some(pivot) => pivot_text(alloc, catalogue, work, all.as_slice(), pivot),
    }
}
