//! Which sites take part in an event, and how they stand.
ghost use Rattle.std.specs.Prelude.{◌≡◌, ◌++◌, ◌∷◌, ◌&&◌, [], All, false, filter, map, true, IfOk, OnOk};
ghost use Rattle.sdd_moments.specs.obligations.All.{Input, IsSiteOf, Log, Redeclare, Site as Place, same_site};
ghost use Rattle.sdd_inside.specs.declared.delta.Found.{Found as Finding};
ghost use Rattle.sdd_moments.specs.schedule.world.Represents.{Calm};
ghost use Rattle.sdd_watch.specs.Happens.{concerns, is_something, takes_part};
ghost use Rattle.sdd_moments.specs.AtEvent.{found_by, last_event};
ghost use Rattle.sdd_moments.specs.Reaching.{given_to};
ghost use Rattle.sdd_watch.specs.States.{state_of};
ghost use Rattle.sdd_watch.specs.Watching.{AreDones};
ghost use Rattle.sdd_moments.specs.Changes.{all_sites, arrived as arrived_between};

use crate::dones::Dones;
use crate::states::state;
use sdd_inside::{Found, SiteState};
use sdd_moments::{Arrived, Event, NoMemory, Site, World, is_reached, is_same};
use std::alloc::Global;

fn is_something(found: &Found) -> bool
    ensures { result ≡ is_something found.now }
{
    match found {
        Found::Nothing => false,
        _ => true,
    }
}

fn is_txn_module(at: Site) -> bool
    ensures { (g : Input) (log : Log) (found : Finding)
        → result ≡ concerns g log Redeclare found at }
{
    match at {
        Site::T(_) => true,
        _ => false,
    }
}

/// Whether an event that found this lets a site take part, being of another one or the same.
fn is_found_at(found: &Found, here: Site, at: Site) -> bool
    ensures { result ≡ (is_something found.now && same_site here at) }
{
    is_something(found) && is_same(here, at)
}

/// Whether an event by itself lets a site take part, which gives a transaction, if any, to `home`.
fn concerns(event: &Event, found: &Found, home: Site, at: Site) -> bool
    ensures { (g : Input) (log : Log) → home ≡ given_to g log event.now
        → result ≡ concerns g log event.now found.now at }
{
    match event {
        Event::Submit(_) => is_same(home, at),
        Event::Tick { tm, .. } => is_same(Site::T(*tm), at),
        Event::Down(here) => is_found_at(found, *here, at),
        Event::Up(here) => is_found_at(found, *here, at),
        Event::Redeclare => is_txn_module(at),
        _ => false,
    }
}

/// Whether a site takes part in an event that is carried out.
fn takes_part(event: &Event, found: &Found, home: Site, arrived: &[Arrived], at: Site) -> bool
    ensures { (g : Input) (old new : Log) → event.now ≡ last_event new
        → found.now ≡ found_by event.now old new → arrived.now ≡ arrived_between g old new
        → home ≡ given_to g new event.now → result ≡ takes_part g old new at }
{
    if is_reached(arrived, at) {
        return true;
    }
    concerns(event, found, home, at)
}

/// Adds a site, where it takes part.
fn add_busy(
    event: &Event,
    found: &Found,
    home: Site,
    arrived: &[Arrived],
    at: Site,
    busy: &mut Vec<Site>,
) -> Result<(), NoMemory>
    ensures { OnOk result ((g : Input) (old new : Log) → event.now ≡ last_event new
        → found.now ≡ found_by event.now old new → arrived.now ≡ arrived_between g old new
        → home ≡ given_to g new event.now
        → busy.new.items ≡ busy.old.items ++ filter (takes_part g old new) (at ∷ [])) }
{
    if takes_part(event, found, home, arrived, at) {
        busy.push(at)?;
        return Ok(());
    }
    Ok(())
}

/// Whether an event is one on a link: by itself it lets no site take part.
fn is_on_link(event: &Event) -> bool
    ensures { result ≡ true → (g : Input) (log : Log) (found : Finding) (at : Place)
        → concerns g log event.now found at ≡ false }
{
    match event {
        Event::Deliver { .. } => true,
        Event::Lose { .. } => true,
        Event::Repeat { .. } => true,
        Event::Resend { .. } => true,
        _ => false,
    }
}

/// The sites to which messages were handed.
fn reached(alloc: Global, arrived: &[Arrived]) -> Result<Vec<Site>, NoMemory>
    ensures { IfOk result (λ sites. sites.items ≡ map (λ one. one.to) arrived.now) }
{
    Ok(arrived.iter().map(|one| one.to).collect(alloc)?)
}

/// The sites, among these, that take part in an event that is carried out and gives a transaction,
/// if any, to `home`.
fn busy_among(
    alloc: Global,
    event: &Event,
    found: &Found,
    home: Site,
    arrived: &[Arrived],
    sites: &[Site],
) -> Result<Vec<Site>, NoMemory>
    ensures { IfOk result (λ busy. (g : Input) (old new : Log) → event.now ≡ last_event new
        → found.now ≡ found_by event.now old new → arrived.now ≡ arrived_between g old new
        → home ≡ given_to g new event.now
        → busy.items ≡ filter (takes_part g old new) sites.now) }
{
    let mut busy = Vec::new(alloc);
    for at in sites {
        add_busy(event, found, home, arrived, *at, &mut busy)?;
    }
    Ok(busy)
}

/// The sites that take part in an event that is carried out, in their order. At an event on a link
/// these are the sites to which messages were handed.
pub(crate) fn busy(
    alloc: Global,
    event: &Event,
    found: &Found,
    home: Site,
    arrived: &[Arrived],
    sites: &[Site],
) -> Result<Vec<Site>, NoMemory>
    ensures { IfOk result (λ busy. (g : Input) (old new : Log) → event.now ≡ last_event new
        → found.now ≡ found_by event.now old new → arrived.now ≡ arrived_between g old new
        → home ≡ given_to g new event.now → sites.now ≡ all_sites g
        → busy.items ≡ filter (takes_part g old new) (all_sites g)) }
{
    if arrived.len() < 2 && is_on_link(event) {
        let busy = reached(alloc, arrived)?;
        return Ok(busy);
    }
    let busy = busy_among(alloc, event, found, home, arrived, sites)?;
    Ok(busy)
}

/// How these sites stand.
pub(crate) fn states(
    alloc: Global,
    world: &World<'_>,
    dones: &Dones,
    busy: &[Site],
) -> Result<Vec<SiteState>, NoMemory>
    requires { (g : Input) × (log : Log) × Calm world.now g log × AreDones g log dones.now
        × All (IsSiteOf g) busy.now }
    ensures { IfOk result (λ states. (g : Input) (log : Log) → Calm world.now g log
        → AreDones g log dones.now → All (IsSiteOf g) busy.now
        → states.items ≡ map (state_of g log) busy.now) }
{
    let mut states = Vec::new(alloc);
    for at in busy {
        states.push(state(alloc, world, *at, dones)?)?;
    }
    Ok(states)
}
