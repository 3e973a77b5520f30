//! Where an event may stand after others.
ghost use Rattle.std.specs.Prelude.{◌≡◌, ◌<◌, count_by};
ghost use Rattle.std.specs.List.{list_any};
ghost use Rattle.sdd_lang.specs.All.{D, T, dm_no, numbers_to, tm_no};
ghost use Rattle.sdd_lang.specs.base.Sites.{same_site};
ghost use Rattle.sdd_script.specs.Redeclaring.{is_redeclare, turned_by, is_down, some_down, may_redeclare, may_follow};

use sdd_lang::{Catalogue, DmNo, Event, Site, TmNo};

fn is_redeclare(event: Event) -> bool
    ensures { result ≡ is_redeclare event }
{
    matches!(event, Event::Redeclare)
}

fn redeclares(events: &[Event]) -> usize
    ensures { result ≡ count_by is_redeclare events.now }
{
    events.iter().filter(|event| is_redeclare(**event)).count()
}

fn is_same_site(one: Site, other: Site) -> bool
    ensures { result ≡ same_site one other }
{
    match (one, other) {
        (Site::U, Site::U) => true,
        (Site::T(one), Site::T(other)) => one.0 == other.0,
        (Site::D(one), Site::D(other)) => one.0 == other.0,
        _ => false,
    }
}

/// Whether the module is down after an event, where it was so before or not.
fn turned_by(at: Site, event: Event, down: bool) -> bool
    ensures { result ≡ turned_by at event down }
{
    match event {
        Event::Down(module) => is_same_site(module, at) || down,
        Event::Up(module) => !is_same_site(module, at) && down,
        _ => down,
    }
}

/// Whether the module is down after the events.
fn is_down(at: Site, events: &[Event]) -> bool
    ensures { result ≡ is_down at events.now }
{
    events
        .iter()
        .fold(false, |down, event| turned_by(at, *event, down))
}

/// Whether one of so many transaction modules is down after the events.
fn some_tm_down(count: u8, events: &[Event]) -> bool
    requires { count < 255 }
    ensures { result ≡ list_any (λ n. is_down (T (tm_no n)) events.now) (numbers_to count) }
{
    (1..count + 1).any(|tm| is_down(Site::T(TmNo(tm)), events))
}

/// The same of the data modules.
fn some_dm_down(count: u8, events: &[Event]) -> bool
    requires { count < 255 }
    ensures { result ≡ list_any (λ n. is_down (D (dm_no n)) events.now) (numbers_to count) }
{
    (1..count + 1).any(|dm| is_down(Site::D(DmNo(dm)), events))
}

/// Whether a module of the catalogue is down after the events.
fn some_down(catalogue: &Catalogue, events: &[Event]) -> bool
    ensures { result ≡ some_down catalogue.now events.now }
{
    catalogue.law_is_sound();
    some_tm_down(catalogue.tms() as u8, events) || some_dm_down(catalogue.dms() as u8, events)
}

/// Whether the event may stand after these, where there are so many lists: a `redeclare` needs a
/// list that is left, and no module may be down.
///
/// For a `redeclare` costs time in the events and the modules; there are at most as many of
/// these as lists, and one more that may not stand.
pub fn may_follow(catalogue: &Catalogue, lists: usize, events: &[Event], event: Event) -> bool
    ensures { result ≡ may_follow catalogue.now lists events.now event }
{
    match event {
        Event::Redeclare => redeclares(events) < lists && !some_down(catalogue, events),
        _ => true,
    }
}
