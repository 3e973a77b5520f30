//! What is pending when a run ends.
ghost use Rattle.std.specs.Prelude.{◌≡◌, ◌++◌, ◌∷◌, [], filter_map, IfOk, OnOk};
ghost use Rattle.sdd_world.specs.Represents.{Represents};
ghost use Rattle.sdd_world.specs.needs.All.{History, Input, Log};
ghost use Rattle.sdd_schedule.specs.LastHomes.{AreCommitted, all_at_last, pending_at_last, why_at_last};
ghost use Rattle.sdd_schedule.specs.Pending.{pending_as};

use crate::commits::committed_txns;
use crate::waits::why_at_end;
use sdd_report::Pending;
use sdd_world::{NoMemory, Rec, TxnNo, World};
use std::alloc::Global;
use std::collections::BTreeSet;

/// The transaction, where its site has it, and why it is pending.
fn pending_one(alloc: Global, world: &World<'_>, number: TxnNo) -> Result<Option<Pending>, NoMemory>
    requires { (g : Input) × (log : Log) × Represents world.now g log }
    ensures { IfOk result (λ one. (g : Input) (log : Log) → Represents world.now g log
        → one ≡ pending_as number (why_at_last g log number.0)) }
{
    match why_at_end(alloc, world, number)? {
        Some(why) => Ok(Some(Pending { txn: number, why })),
        None => Ok(None),
    }
}

/// The transaction that a record submits, where it is pending.
fn pending_in(
    alloc: Global,
    world: &World<'_>,
    entry: &(u32, Rec),
    committed: &BTreeSet<u32>,
) -> Result<Option<Pending>, NoMemory>
    requires { (g : Input) × (log : Log) × Represents world.now g log }
    ensures { IfOk result (λ one. (g : Input) (log : Log) (all : History)
        → Represents world.now g log → AreCommitted committed.now all
        → one ≡ pending_at_last g log all entry.now) }
{
    let Rec::Submit(number) = &entry.1 else {
        return Ok(None);
    };
    if committed.contains(&number.0) {
        return Ok(None);
    }
    pending_one(alloc, world, *number)
}

/// Adds the transaction that a record submits, where it is pending.
fn add_pending(
    alloc: Global,
    world: &World<'_>,
    entry: &(u32, Rec),
    committed: &BTreeSet<u32>,
    found: &mut Vec<Pending>,
) -> Result<(), NoMemory>
    requires { (g : Input) × (log : Log) × Represents world.now g log }
    ensures { OnOk result ((g : Input) (log : Log) (all : History)
        → Represents world.now g log → AreCommitted committed.now all
        → found.new.items ≡ found.old.items
        ++ filter_map (pending_at_last g log all) (entry.now ∷ [])) }
{
    let Some(one) = pending_in(alloc, world, entry, committed)? else {
        return Ok(());
    };
    found.push(one)?;
    Ok(())
}

/// The transactions that were submitted to a world and aren't committed, in order of submission,
/// each with what it waits for. Each is looked for at the site of its class by the list in force.
///
/// O(r log t) for r records of t transactions, and of each that is pending a look at its queue
/// and at each data module.
///
/// # Errors
///
/// Only where memory runs out.
pub fn pending_txns(alloc: Global, world: &World<'_>) -> Result<Vec<Pending>, NoMemory>
    requires { (g : Input) × (log : Log) × Represents world.now g log }
    ensures { IfOk result (λ found. (g : Input) (log : Log) → Represents world.now g log
        → found.items ≡ all_at_last g log) }
{
    let history = world.history().as_slice();
    let committed = committed_txns(alloc, history)?;
    let mut found = Vec::new(alloc);
    for entry in history {
        add_pending(alloc, world, entry, &committed, &mut found)?;
    }
    Ok(found)
}
