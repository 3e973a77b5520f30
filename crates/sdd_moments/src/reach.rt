//! Which links an event may have changed.
ghost use Rattle.std.specs.Prelude.{◌≡◌, ◌≤◌, ◌<◌, ℕ, false};
ghost use Rattle.sdd_progress.specs.obligations.All.{Input, Log, Site as Place, nth_era, redeclares, txn_at};
ghost use Rattle.sdd_progress.specs.obligations.logs.Due.{home_of as class_site};
ghost use Rattle.sdd_progress.specs.obligations.net.Nets.{place_of};
ghost use Rattle.sdd_schedule.specs.world.Represents.{Calm};
ghost use Rattle.sdd_moments.specs.Reaching.{actor, home_in, is_to, may_act, may_change_from, other_end, reach_of, reach_of_delivery, touched_from};

use crate::places::{is_same, place_of};
use sdd_inside::Found;
use sdd_progress::{Event, Site, TxnNo};
use sdd_schedule::{World, home};

/// Which links an event may have changed.
#[derive(Clone, Copy)]
pub enum Reach {
    /// None.
    Nowhere,
    /// Those between two sites.
    Along(Site, Site),
    /// Those between two sites, and those from the second.
    Across(Site, Site),
    /// Those from a site.
    From(Site),
    /// Those from a site and those to it.
    Around(Site),
}

/// The site of a transaction's class, by its number and by the class list in force.
fn home_of(world: &World<'_>, number: TxnNo) -> Site
    requires { (g : Input) × (log : Log) × Calm world.now g log }
    ensures { (g : Input) (log : Log) → Calm world.now g log → result
        ≡ class_site (nth_era g (redeclares log)).catalogue (txn_at g number.0) }
{
    let place = number.0.saturating_sub(1);
    match world.transactions().get(place as usize) {
        Some(txn) => home(world.catalogue(), txn),
        None => Site::U,
    }
}

fn reach_of_delivery(from: Site, to: Site, found: &Found) -> Reach
    ensures { result ≡ reach_of_delivery from to found.now }
{
    match found {
        Found::Acknowledged { .. } => Reach::Along(from, to),
        _ => Reach::Across(from, to),
    }
}

/// Which links an event may have changed that is carried out and found this. Takes no memory.
pub fn reach_of(world: &World<'_>, event: &Event, found: &Found) -> Reach
    requires { (g : Input) × (log : Log) × Calm world.now g log }
    ensures { (g : Input) (log : Log) → Calm world.now g log
        → result ≡ reach_of g log event.now found.now }
{
    match event {
        Event::Submit(number) => Reach::From(home_of(world, *number)),
        Event::Deliver { from, to, .. } => reach_of_delivery(*from, *to, found),
        Event::Lose { from, to, .. } => Reach::Along(*from, *to),
        Event::Repeat { from, to, .. } => Reach::Along(*from, *to),
        Event::Resend { from, to } => Reach::Along(*from, *to),
        Event::Up(at) => Reach::Around(*at),
        _ => Reach::Nowhere,
    }
}

/// Whether a site may have acted.
pub(crate) fn may_act(reach: Reach, at: Site) -> bool
    ensures { result ≡ may_act reach at }
{
    match reach {
        Reach::Nowhere | Reach::Along(_, _) => false,
        Reach::Across(_, b) => is_same(at, b),
        Reach::From(a) => is_same(at, a),
        Reach::Around(a) => is_same(at, a),
    }
}

/// The site that may have acted, if one may.
pub(crate) fn actor(reach: Reach) -> Option<Site>
    ensures { result ≡ actor reach }
{
    match reach {
        Reach::Nowhere | Reach::Along(_, _) => None,
        Reach::Across(_, b) => Some(b),
        Reach::From(a) => Some(a),
        Reach::Around(a) => Some(a),
    }
}

/// The other one of two sites, where a site is one of them.
fn other_end(a: Site, b: Site, at: Site) -> Option<Site>
    ensures { result ≡ other_end a b at }
{
    if is_same(at, a) {
        return Some(b);
    }
    if is_same(at, b) {
        return Some(a);
    }
    None
}

/// The site to which the link from a site may have changed though no message was put on it.
pub(crate) fn touched_from(reach: Reach, from: Site) -> Option<Site>
    ensures { result ≡ touched_from reach from }
{
    match reach {
        Reach::Nowhere | Reach::From(_) => None,
        Reach::Along(a, b) => other_end(a, b, from),
        Reach::Across(a, b) => other_end(a, b, from),
        Reach::Around(a) => Some(a),
    }
}

/// Whether a site is that one.
pub(crate) fn is_to(one: Option<Site>, to: Site) -> bool
    ensures { result ≡ is_to one to }
{
    match one {
        Some(one) => is_same(to, one),
        None => false,
    }
}

/// A place, where it is this one at least, and else one past all.
fn if_ahead(from: usize, place: usize) -> usize
    ensures ahead { from ≤ result }
    ensures passed { (k : ℕ) → from ≤ k → k < result → (k ≡ place → ⊥) }
{
    if place < from { usize::MAX } else { place }
}

/// A place from this one on before which no site stands one of whose links may have changed, where
/// there are so many transaction modules; it may be past all sites.
pub(crate) fn next_reached(tms: u32, reach: Reach, from: usize) -> usize
    ensures ahead { from ≤ result }
    ensures passed { (x : Place) → from ≤ place_of tms x → place_of tms x < result
        → may_change_from reach x ≡ false }
{
    match reach {
        Reach::Nowhere => usize::MAX,
        Reach::Along(a, b) | Reach::Across(a, b) => {
            if_ahead(from, place_of(tms, a)).min(if_ahead(from, place_of(tms, b)))
        }
        Reach::From(a) => if_ahead(from, place_of(tms, a)),
        Reach::Around(_) => from,
    }
}

/// The site to which an event gives a transaction, and U where it gives none. Takes no memory.
pub fn home_in(reach: Reach) -> Site
    ensures { result ≡ home_in reach }
{
    match reach {
        Reach::From(home) => home,
        _ => Site::U,
    }
}
