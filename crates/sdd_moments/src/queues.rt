//! The queues of classes.
ghost use Rattle.std.specs.Prelude.{◌≡◌, ◌++◌, ◌∷◌, [], ℕ, drop, map, IfOk, OnOk};
ghost use Rattle.std.specs.List.{flat_map, list_any};
ghost use Rattle.sdd_progress.specs.obligations.All.{Input, IsSiteOf, Log, Site as Place, T};
ghost use Rattle.sdd_schedule.specs.world.Represents.{Calm};
ghost use Rattle.sdd_moments.specs.Looking.{AreAside, looks, queue_in, queue_of, queues_if};
ghost use Rattle.sdd_moments.specs.AtEvent.{is_of_queue};
ghost use Rattle.sdd_moments.specs.Moments.{queues_at, queues_from};
ghost use Rattle.sdd_moments.specs.Changes.{all_sites, queues_by};

use crate::at_site::AtSite;
use crate::both::Both;
use crate::places::all_sites;
use crate::reach::{Reach, may_act};
use sdd_inside::QueueMoment;
use sdd_progress::{Listed, NoMemory, Parcel, Rec, Site, TmNo, TxnNo};
use sdd_schedule::{ClassRun, Line, World};
use std::alloc::Global;
use std::mem;

/// The queue of a line.
fn queue(line: &Line<'_>) -> Result<QueueMoment, NoMemory>
    ensures { IfOk result (λ moment. moment ≡ queue_of line.now.class line.now.queue) }
{
    Ok(QueueMoment {
        class: line.class(),
        queue: Listed::from_vec(line.queued_txns()?),
    })
}

/// Adds the queues of classes.
fn add_queues(classes: &[ClassRun<'_>], queues: &mut Vec<QueueMoment>) -> Result<(), NoMemory>
    ensures { OnOk result (queues.new.items ≡ queues.old.items ++ map queue_in classes.now) }
{
    for class in classes {
        queues.push(queue(class.line())?)?;
    }
    Ok(())
}

/// Adds the queues of a transaction module.
fn add_queues_at(world: &World<'_>, tm: TmNo, queues: &mut Vec<QueueMoment>) -> Result<(), NoMemory>
    requires { (g : Input) × (log : Log) × Calm world.now g log × IsSiteOf g (T tm) }
    ensures { OnOk result ((g : Input) (log : Log) → Calm world.now g log → IsSiteOf g (T tm)
        → queues.new.items ≡ queues.old.items ++ queues_at g log tm.0) }
{
    add_queues(world.sites().txn_module(tm).classes(), queues)?;
    Ok(())
}

/// Adds the queues of a site; a data module has none.
fn add_queues_of(world: &World<'_>, at: Site, queues: &mut Vec<QueueMoment>) -> Result<(), NoMemory>
    requires { (g : Input) × (log : Log) × Calm world.now g log × IsSiteOf g at }
    ensures { OnOk result ((g : Input) (log : Log) → Calm world.now g log → IsSiteOf g at
        → queues.new.items ≡ queues.old.items ++ queues_from g log at) }
{
    match at {
        Site::U => {
            queues.push(queue(world.sites().u_module().line())?)?;
            Ok(())
        }
        Site::T(tm) => {
            add_queues_at(world, tm, queues)?;
            Ok(())
        }
        Site::D(_) => Ok(()),
    }
}

/// The queues of a site.
fn queues_by(alloc: Global, world: &World<'_>, at: Site) -> Result<AtSite<QueueMoment>, NoMemory>
    requires { (g : Input) × (log : Log) × Calm world.now g log × IsSiteOf g at }
    ensures { IfOk result (λ queues. (g : Input) (log : Log) → Calm world.now g log → IsSiteOf g at
        → queues ≡ queues_by g log at) }
{
    let mut parts = Vec::new(alloc);
    add_queues_of(world, at, &mut parts)?;
    Ok(AtSite { at, parts })
}

/// The queues of these sites, which are those of the network.
fn queues_by_site(
    alloc: Global,
    world: &World<'_>,
    sites: &[Site],
) -> Result<Vec<AtSite<QueueMoment>>, NoMemory>
    requires { (g : Input) × (log : Log) × Calm world.now g log × (sites.now ≡ all_sites g) }
    ensures { IfOk result (λ queues. (g : Input) (log : Log) → Calm world.now g log
        → sites.now ≡ all_sites g → queues.items ≡ map (queues_by g log) (all_sites g)) }
{
    let mut queues = Vec::new(alloc);
    for at in sites {
        queues.push(queues_by(alloc, world, *at)?)?;
    }
    Ok(queues)
}

/// All queues, by site. Out of memory is its one error. Steps: the transactions in the queues.
pub fn all_queues(alloc: Global, world: &World<'_>) -> Result<Vec<AtSite<QueueMoment>>, NoMemory>
    requires { (g : Input) × (log : Log) × Calm world.now g log }
    ensures { IfOk result (λ queues. (g : Input) (log : Log) → Calm world.now g log
        → queues.items ≡ map (queues_by g log) (all_sites g)) }
{
    let whole = world.whole();
    whole.law_is_sound();
    let tms = whole.tms();
    let dms = whole.dms();
    let sites = all_sites(alloc, tms, dms)?;
    let queues = queues_by_site(alloc, world, sites.as_slice())?;
    Ok(queues)
}

/// Whether the queues of a site are looked at, where a transaction entered a queue or left one.
fn looks(moved: bool, reach: Reach, at: Site) -> bool
    ensures { result ≡ looks moved reach at }
{
    moved && may_act(reach, at)
}

fn copy_of(alloc: Global, moment: &QueueMoment) -> Result<QueueMoment, NoMemory>
    ensures { IfOk result (λ copy. copy ≡ moment.now) }
{
    let queue = TxnNo::copy_all(alloc, moment.queue.as_slice())?;
    Ok(QueueMoment {
        class: moment.class,
        queue: Listed::from_vec(queue),
    })
}

/// Adds copies of queues.
fn add_copies(
    alloc: Global,
    queues: &[QueueMoment],
    copies: &mut Vec<QueueMoment>,
) -> Result<(), NoMemory>
    ensures { OnOk result (copies.new.items ≡ copies.old.items ++ queues.now) }
{
    for queue in queues {
        copies.push(copy_of(alloc, queue)?)?;
    }
    Ok(())
}

/// Adds the queues of a site as they were and as they are, and keeps them, where they are looked at.
fn look_at_queues_of(
    alloc: Global,
    world: &World<'_>,
    moved: bool,
    reach: Reach,
    queues: &mut AtSite<QueueMoment>,
    both: &mut Both<QueueMoment>,
) -> Result<(), NoMemory>
    requires { (g : Input) × (old : Log) × (new : Log) × (a : Place) × Calm world.now g new
        × IsSiteOf g a × (queues.old ≡ queues_by g old a) }
    ensures kept { OnOk result ((g : Input) (old new : Log) (a : Place) → Calm world.now g new
        → IsSiteOf g a → AreAside g old new moved reach → queues.old ≡ queues_by g old a
        → queues.new ≡ queues_by g new a) }
    ensures before { OnOk result ((g : Input) (old : Log) (a : Place) → queues.old ≡ queues_by g old a
        → both.new.before.items ≡ both.old.before.items ++ queues_if moved reach g old a) }
    ensures after { OnOk result ((g : Input) (old new : Log) (a : Place) → Calm world.now g new
        → IsSiteOf g a → queues.old ≡ queues_by g old a
        → both.new.after.items ≡ both.old.after.items ++ queues_if moved reach g new a) }
{
    let at = queues.at;
    if !looks(moved, reach, at) {
        return Ok(());
    }
    let mut after = Vec::new(alloc);
    add_queues_of(world, at, &mut after)?;
    add_copies(alloc, after.as_slice(), &mut both.after)?;
    let mut before = mem::replace(&mut queues.parts, after);
    both.before.append(&mut before)?;
    Ok(())
}

/// The queues of the site that may have acted, as they were and as they are, where a transaction
/// entered a queue or left one. Those of all sites are kept. Out of memory is its one error, after
/// which the list of queues is of no use. Steps: one for each site, and the transactions in the
/// queues of the one that may have acted; none where no transaction entered a queue or left one.
pub fn look_at_queues(
    alloc: Global,
    world: &World<'_>,
    moved: bool,
    reach: Reach,
    queues: &mut [AtSite<QueueMoment>],
) -> Result<Both<QueueMoment>, NoMemory>
    requires { (g : Input) × (old : Log) × (new : Log) × Calm world.now g new
        × AreAside g old new moved reach × (queues.old ≡ map (queues_by g old) (all_sites g)) }
    ensures before { IfOk result (λ both. (g : Input) (old new : Log) → Calm world.now g new
        → AreAside g old new moved reach → queues.old ≡ map (queues_by g old) (all_sites g)
        → both.before.items ≡ flat_map (queues_if moved reach g old) (all_sites g)) }
    ensures after { IfOk result (λ both. (g : Input) (old new : Log) → Calm world.now g new
        → AreAside g old new moved reach → queues.old ≡ map (queues_by g old) (all_sites g)
        → both.after.items ≡ flat_map (queues_if moved reach g new) (all_sites g)) }
    ensures kept { OnOk result ((g : Input) (old new : Log) → Calm world.now g new
        → AreAside g old new moved reach → queues.old ≡ map (queues_by g old) (all_sites g)
        → queues.new ≡ map (queues_by g new) (all_sites g)) }
{
    let mut both = Both::new(alloc);
    if !moved {
        return Ok(both);
    }
    for at in queues.iter_mut() {
        look_at_queues_of(alloc, world, moved, reach, at, &mut both)?;
    }
    Ok(both)
}

/// Whether a record is of a transaction that entered a queue or left it.
fn is_of_queue(made: &(u32, Rec)) -> bool
    ensures { result ≡ is_of_queue made.now }
{
    match &made.1 {
        Rec::Submit { .. } => true,
        Rec::Commit { .. } => true,
        _ => false,
    }
}

/// Whether one of the records from a place on is of a transaction that entered a queue or left it.
/// Takes no memory.
pub fn have_moved(records: &[(u32, Rec)], from: usize) -> bool
    ensures { result ≡ list_any is_of_queue (drop from records.now) }
{
    tail(records, from).iter().any(|made| is_of_queue(made))
}

/// The records from a place on.
fn tail(records: &[(u32, Rec)], from: usize) -> &[(u32, Rec)]
    ensures { result.now ≡ drop from records.now }
{
    if from < records.len() {
        let (_, rest) = records.split_at(from);
        rest
    } else {
        &[]
    }
}
