//! Whether a workload is robust under snapshot isolation.
ghost use Rattle.std.specs.Prelude.{◌≡◌, IfNone, IfOk, IfSome};
ghost use Rattle.sdd_lang.specs.All.{database_of};
ghost use Rattle.sdd_script.specs.All.{IsValid};
ghost use Rattle.sdd_robust_laws.specs.Runs.{IsRobust};
ghost use Rattle.sdd_robust_laws.specs.Shown.{IsShownRobust};
ghost use Rattle.sdd_robust.specs.Members.{members_of};
ghost use Rattle.sdd_robust.specs.Workloads.{IsPivotOf};

use crate::listing::members_in;
use crate::member::Member;
use crate::pivot::first_pivot;
use sdd_lang::{Catalogue, NoMemory};
use sdd_robust_laws::law_robust;
use sdd_script::Workload;
use std::alloc::Global;

/// Three transactions of a workload, by their places among all of its transactions, from 0. The pivot
/// reads what the missed one changes, and changes what the missing one reads.
#[derive(Clone, Copy)]
pub struct Places {
    pub pivot: usize,
    pub missed: usize,
    pub missing: usize,
}

/// The transactions of the workload with what they access. All of them count, whether they are
/// submitted or not.
///
/// Costs a logarithmic step for each initial row, time in the transactions, and for each update of one
/// row time in the deletes of the workload. Takes memory for the accesses, and while it runs for a
/// reference to each row and for the deletes.
pub fn members(
    alloc: Global,
    catalogue: &Catalogue,
    work: &Workload,
) -> Result<Vec<Member>, NoMemory>
    requires { IsValid catalogue.now work.now }
    ensures { IfOk result (λ all. all.items
        ≡ members_of catalogue.now work.now.txns (database_of catalogue.now work.now.rows)) }
{
    members_in(alloc, catalogue, work.rows.as_slice(), work.txns.as_slice())
}

/// The first pivot among the members of the workload, or None where no transaction may be one. Then the
/// workload is robust: each run of its transactions under snapshot isolation, each any number of times,
/// is like a serial one. Where there is a pivot, the workload may be robust or not.
///
/// Costs for each two transactions a comparison of what they access, up to where it differs. Of those with
/// the same accesses only the first counts for the rest: for each access time in the changes of its
/// relation, and for each two transactions of which one may miss a change of the other time in the accesses
/// of both. For a transaction that may miss a change and of which a change may be missed it costs for each
/// access time in all accesses, and for each other transaction a step for each 64 of them, to follow
/// conflicts. With which transactions one conflicts is found once, where that is asked for: it costs for
/// each two transactions up to the accesses of both. Takes memory of a bit for each two transactions.
pub fn find_pivot(
    alloc: Global,
    catalogue: &Catalogue,
    work: &Workload,
    all: &[Member],
) -> Result<Option<Places>, NoMemory>
    requires valid { IsValid catalogue.now work.now }
    requires members { all.now ≡ members_of catalogue.now work.now.txns (database_of catalogue.now work.now.rows) }
    ensures shown { IfOk result (λ found. IfNone found
        (IsShownRobust catalogue.now work.now.txns (database_of catalogue.now work.now.rows))) }
    ensures robust { IfOk result (λ found. IfNone found
        (IsRobust catalogue.now work.now.txns (database_of catalogue.now work.now.rows))) }
    ensures pivot { IfOk result (λ found. IfSome found
        (IsPivotOf catalogue.now work.now.txns (database_of catalogue.now work.now.rows))) }
{
    law_robust(catalogue);
    match first_pivot(alloc, all)? {
        Some(found) => Ok(Some(Places {
            pivot: found.pivot.place,
            missed: found.missed.place,
            missing: found.missing.place,
        })),
        None => Ok(None),
    }
}
