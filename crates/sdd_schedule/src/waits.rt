//! Why a transaction is pending.
ghost use Rattle.std.specs.Prelude.{◌≡◌, ◌≤◌, ◌++◌, ◌∷◌, [], ℕ, filter_map, length, IfOk, OnOk};
ghost use Rattle.sdd_world.specs.Represents.{Represents};
ghost use Rattle.sdd_world.specs.needs.All.{D, Input, IsSiteOf, Log};
ghost use Rattle.sdd_schedule.specs.LastHomes.{last_home as last_home_in, why_at_last};
ghost use Rattle.sdd_schedule.specs.Pending.{wait_at, waits_of, why_of};

use sdd_report::{Waiting, Why, under_way};
use sdd_world::{ClassNo, DmNo, NoMemory, Site, Standing, Ts, TxnNo, World, home};
use std::alloc::Global;

/// Adds the wait of a READ at a module, where it waits there.
fn add_wait(
    world: &World<'_>,
    dm: DmNo,
    class: ClassNo,
    ts: Ts,
    found: &mut Vec<Waiting>,
) -> Result<(), NoMemory>
    requires { (g : Input) × (log : Log) × IsSiteOf g (D dm) × Represents world.now g log }
    ensures { OnOk result ((g : Input) (log : Log) → IsSiteOf g (D dm) → Represents world.now g log
        → class.0 ≤ length g.catalogue.classes → found.new.items
        ≡ found.old.items ++ filter_map (wait_at g log class.0 ts.0) (dm.0 ∷ [])) }
{
    let Some(cond) = world.waits(dm, class, ts) else {
        return Ok(());
    };
    found.push(Waiting {
        dm,
        class: cond.class,
        time: cond.time,
    })?;
    Ok(())
}

/// Where a READ waits, ascending by module, and for what.
fn all_waits(
    alloc: Global,
    world: &World<'_>,
    class: ClassNo,
    ts: Ts,
) -> Result<Vec<Waiting>, NoMemory>
    requires { (g : Input) × (log : Log) × Represents world.now g log }
    ensures { IfOk result (λ found. (g : Input) (log : Log) → Represents world.now g log
        → found.items ≡ waits_of g log class.0 ts.0) }
{
    let catalogue = world.whole();
    catalogue.law_is_sound();
    let mut found = Vec::new(alloc);
    if class.0 > catalogue.classes() {
        return Ok(found);
    }
    for number in 1..catalogue.dms() + 1 {
        add_wait(world, DmNo(number as u8), class, ts, &mut found)?;
    }
    Ok(found)
}

/// Why a transaction is pending that stands so.
fn why_so(alloc: Global, world: &World<'_>, standing: Standing) -> Result<Option<Why>, NoMemory>
    requires { (g : Input) × (log : Log) × Represents world.now g log }
    ensures { IfOk result (λ why. (g : Input) (log : Log) → Represents world.now g log
        → why ≡ why_of g log standing) }
{
    match standing {
        Standing::Absent => Ok(None),
        Standing::Queued(class, place) => Ok(Some(Why::Queued(class, place))),
        Standing::Underway(_, None, site) => Ok(Some(Why::Underway(site))),
        Standing::Underway(class, Some(ts), site) => {
            let waiting = all_waits(alloc, world, class, ts)?;
            Ok(Some(under_way(site, waiting.as_slice())))
        }
    }
}

/// The site of a transaction's class, by its number and by the class list in force.
fn last_home(world: &World<'_>, number: TxnNo) -> Site
    requires { (g : Input) × (log : Log) × Represents world.now g log }
    ensures { (g : Input) (log : Log) → Represents world.now g log
        → result ≡ last_home_in g log number.0 }
{
    let place = number.0.saturating_sub(1);
    match world.transactions().get(place as usize) {
        Some(txn) => home(world.catalogue(), txn),
        None => Site::U,
    }
}

/// Why a transaction is pending, or None where the site of its class, by the list in force,
/// doesn't have it.
pub(crate) fn why_at_end(
    alloc: Global,
    world: &World<'_>,
    number: TxnNo,
) -> Result<Option<Why>, NoMemory>
    requires { (g : Input) × (log : Log) × Represents world.now g log }
    ensures { IfOk result (λ why. (g : Input) (log : Log) → Represents world.now g log
        → why ≡ why_at_last g log number.0) }
{
    let at = last_home(world, number);
    let standing = world.standing(at, number);
    why_so(alloc, world, standing)
}
