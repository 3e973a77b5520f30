//! Which transactions records commit.
ghost use Rattle.std.specs.Prelude.{◌≡◌, ◌||◌, ℕ, IfOk, OnOk};
ghost use Rattle.std.specs.BTreeSet.{contains};
ghost use Rattle.std.specs.Ordering.{nat_cmp};
ghost use Rattle.sdd_world.specs.needs.All.{History};
ghost use Rattle.sdd_schedule.specs.LastHomes.{AreCommitted};
ghost use Rattle.sdd_schedule.specs.Pending.{commits};

use sdd_world::{NoMemory, Rec};
use std::alloc::Global;
use std::collections::BTreeSet;

/// Adds the transaction that a record commits, where it is a Commit.
fn add_committed(entry: &(u32, Rec), numbers: &mut BTreeSet<u32>) -> Result<(), NoMemory>
    ensures { OnOk result ((n : ℕ) → contains nat_cmp numbers.new n
        ≡ (commits n entry.now || contains nat_cmp numbers.old n)) }
{
    if let Rec::Commit { txn, .. } = &entry.1 {
        numbers.insert(txn.0)?;
    }
    Ok(())
}

/// The numbers of the transactions that records commit. O(r log t) for r records of t transactions.
pub(crate) fn committed_txns(
    alloc: Global,
    history: &[(u32, Rec)],
) -> Result<BTreeSet<u32>, NoMemory>
    ensures { IfOk result (λ numbers. AreCommitted numbers history.now) }
{
    let mut numbers = BTreeSet::new(alloc);
    for entry in history {
        add_committed(entry, &mut numbers)?;
    }
    Ok(numbers)
}
