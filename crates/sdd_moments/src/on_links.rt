//! The links that an event may have changed.
ghost use Rattle.std.specs.Prelude.{◌≡◌, ◌==◌, ◌&&◌, ◌||◌, ◌++◌, ◌∷◌, [], cond, length, map, not, IfOk, OnOk};
ghost use Rattle.std.specs.List.{cons_option};
ghost use Rattle.sdd_progress.specs.obligations.All.{Input, are_linked as are_linked_by, IsLinkOf, IsSiteOf, Log, Site as Place, sent};
ghost use Rattle.sdd_schedule.specs.world.Represents.{Calm};
ghost use Rattle.sdd_moments.specs.Looking.{AreSeen};
ghost use Rattle.sdd_moments.specs.Reaching.{is_to, may_act, reach_of, touched_from};
ghost use Rattle.sdd_moments.specs.Changes.{IsOver, all_sites, arrived, changed_links, is_still_link, link_after, link_before, links_from, watched_link, watched_links};

use crate::at_site::AtSite;
use crate::both::Both;
use crate::places::are_linked;
use crate::reach::{Reach, is_to, may_act, next_reached, touched_from};
use crate::watched_link::{Arrived, LinkSeen, WatchedLink};
use sdd_inside::{Found, LinkMoment};
use sdd_progress::{Event, NoMemory, Site};
use sdd_schedule::World;
use std::alloc::Global;

/// What happened on links at an event.
#[derive(Drop)]
pub struct OnLinks {
    /// Of the links of which something is reported.
    pub moments: Both<LinkMoment>,
    /// Of each link on which messages were handed over.
    pub arrived: Vec<Arrived>,
}

/// Adds the moments of a link, where something is reported of it.
fn add_changed(
    moments: &mut Both<LinkMoment>,
    before: LinkMoment,
    after: LinkMoment,
) -> Result<(), NoMemory>
    ensures before { OnOk result (moments.new.before.items
        ≡ moments.old.before.items ++ cond (not (is_still_link before after)) (before ∷ []) []) }
    ensures after { OnOk result (moments.new.after.items
        ≡ moments.old.after.items ++ cond (not (is_still_link before after)) (after ∷ []) []) }
{
    if is_still_link(&before, &after) {
        return Ok(());
    }
    moments.add(before, after)
}

/// Whether no packet was put and no message handed over.
fn is_still_link(before: &LinkMoment, after: &LinkMoment) -> bool
    ensures { result ≡ is_still_link before.now after.now }
{
    match after.flight.as_slice() {
        [] => before.handed == after.handed,
        _ => false,
    }
}

impl OnLinks {
    /// Adds what was seen of a link.
    fn add(&mut self, seen: LinkSeen) -> Result<(), NoMemory>
        ensures before { OnOk result (self.new.moments.before.items
            ≡ self.old.moments.before.items
            ++ cond (not (is_still_link seen.before seen.after)) (seen.before ∷ []) []) }
        ensures after { OnOk result (self.new.moments.after.items
            ≡ self.old.moments.after.items
            ++ cond (not (is_still_link seen.before seen.after)) (seen.after ∷ []) []) }
        ensures arrived { OnOk result (self.new.arrived.items
            ≡ self.old.arrived.items ++ cons_option seen.arrived []) }
    {
        let LinkSeen {
            before,
            after,
            arrived,
        } = seen;
        add_changed(&mut self.moments, before, after)?;
        match arrived {
            Some(one) => {
                self.arrived.push(one)?;
                Ok(())
            }
            None => Ok(()),
        }
    }
}

/// Whether a link may have changed, where the event touched the one that goes to a site, if it
/// touched one, and the site from which it comes may have acted.
fn may_change(world: &World<'_>, touched: Option<Site>, acts: bool, link: &WatchedLink) -> bool
    requires { (g : Input) × (log : Log) × Calm world.now g log
        × IsLinkOf g link.now.from link.now.to }
    ensures { (g : Input) (log : Log) → Calm world.now g log → IsLinkOf g link.now.from link.now.to
        → result ≡ (is_to touched link.now.to
        || acts && not (length (sent link.now.from link.now.to log) == link.now.sent)) }
{
    is_to(touched, link.to) || acts && world.mail().count_sent(link.from, link.to) != link.sent
}

/// Looks at a link where it may have changed.
fn look_at_link(
    alloc: Global,
    world: &World<'_>,
    event: &Event,
    found: &Found,
    touched: Option<Site>,
    acts: bool,
    link: &mut WatchedLink,
    on_links: &mut OnLinks,
) -> Result<(), NoMemory>
    requires { (g : Input) × (old : Log) × (new : Log)
        × IsOver g old new world.now event.now found.now × IsLinkOf g link.old.from link.old.to }
    ensures kept { OnOk result ((g : Input) (old new : Log) (l : Place × Place)
        → IsOver g old new world.now event.now found.now
        → touched ≡ touched_from (reach_of g new event.now found.now) l.0
        → acts ≡ may_act (reach_of g new event.now found.now) l.0
        → IsLinkOf g l.0 l.1 → link.old ≡ watched_link old l → link.new ≡ watched_link new l) }
    ensures seen { OnOk result ((g : Input) (old new : Log) (l : Place × Place)
        → IsOver g old new world.now event.now found.now
        → touched ≡ touched_from (reach_of g new event.now found.now) l.0
        → acts ≡ may_act (reach_of g new event.now found.now) l.0
        → IsLinkOf g l.0 l.1 → link.old ≡ watched_link old l
        → AreSeen old new (l ∷ []) on_links.old on_links.new) }
{
    if !may_change(world, touched, acts, link) {
        return Ok(());
    }
    let seen = link.look(alloc, world, event, found)?;
    on_links.add(seen)?;
    Ok(())
}

/// Looks at the links from a site.
fn look_at_links_from(
    alloc: Global,
    world: &World<'_>,
    event: &Event,
    found: &Found,
    touched: Option<Site>,
    acts: bool,
    links: &mut [WatchedLink],
    on_links: &mut OnLinks,
) -> Result<(), NoMemory>
    requires { (g : Input) × (old : Log) × (new : Log) × (a : Place)
        × IsOver g old new world.now event.now found.now
        × (touched ≡ touched_from (reach_of g new event.now found.now) a)
        × (acts ≡ may_act (reach_of g new event.now found.now) a)
        × IsSiteOf g a × (links.old ≡ map (watched_link old) (links_from g a)) }
    ensures kept { OnOk result ((g : Input) (old new : Log) (a : Place)
        → IsOver g old new world.now event.now found.now
        → touched ≡ touched_from (reach_of g new event.now found.now) a
        → acts ≡ may_act (reach_of g new event.now found.now) a
        → IsSiteOf g a → links.old ≡ map (watched_link old) (links_from g a)
        → links.new ≡ map (watched_link new) (links_from g a)) }
    ensures seen { OnOk result ((g : Input) (old new : Log) (a : Place)
        → IsOver g old new world.now event.now found.now
        → touched ≡ touched_from (reach_of g new event.now found.now) a
        → acts ≡ may_act (reach_of g new event.now found.now) a
        → IsSiteOf g a → links.old ≡ map (watched_link old) (links_from g a)
        → AreSeen old new (links_from g a) on_links.old on_links.new) }
{
    for link in links.iter_mut() {
        look_at_link(alloc, world, event, found, touched, acts, link, on_links)?;
    }
    Ok(())
}

/// Looks at the links from a site where one of them may have changed.
fn look_at_site(
    alloc: Global,
    world: &World<'_>,
    event: &Event,
    found: &Found,
    reach: Reach,
    links: &mut AtSite<WatchedLink>,
    on_links: &mut OnLinks,
) -> Result<(), NoMemory>
    requires { (g : Input) × (old : Log) × (new : Log) × (a : Place)
        × IsOver g old new world.now event.now found.now
        × (reach ≡ reach_of g new event.now found.now) × IsSiteOf g a
        × (links.old ≡ watched_links g old a) }
    ensures kept { OnOk result ((g : Input) (old new : Log) (a : Place)
        → IsOver g old new world.now event.now found.now → reach ≡ reach_of g new event.now found.now
        → IsSiteOf g a → links.old ≡ watched_links g old a → links.new ≡ watched_links g new a) }
    ensures seen { OnOk result ((g : Input) (old new : Log) (a : Place)
        → IsOver g old new world.now event.now found.now → reach ≡ reach_of g new event.now found.now
        → IsSiteOf g a → links.old ≡ watched_links g old a
        → AreSeen old new (links_from g a) on_links.old on_links.new) }
{
    let touched = touched_from(reach, links.at);
    let acts = may_act(reach, links.at);
    look_at_links_from(
        alloc,
        world,
        event,
        found,
        touched,
        acts,
        &mut links.parts,
        on_links,
    )?;
    Ok(())
}

/// Looks at the links of the sites that an event reaches, once it is carried out; there are so many
/// transaction modules, and the links stand by site, in the order of sites. The moments are of the
/// links of which something is reported. Out of memory is its one error, after which the list of
/// links is of no use. Steps: the links of the one or two sites, and of all sites where a module
/// comes up.
pub fn look_at_links(
    alloc: Global,
    world: &World<'_>,
    event: &Event,
    found: &Found,
    reach: Reach,
    tms: u32,
    links: &mut [AtSite<WatchedLink>],
) -> Result<OnLinks, NoMemory>
    requires { (g : Input) × (old : Log) × (new : Log)
        × IsOver g old new world.now event.now found.now
        × (reach ≡ reach_of g new event.now found.now) × (tms ≡ g.catalogue.tms)
        × (links.old ≡ map (watched_links g old) (all_sites g)) }
    ensures before { IfOk result (λ seen. (g : Input) (old new : Log)
        → IsOver g old new world.now event.now found.now
        → reach ≡ reach_of g new event.now found.now → tms ≡ g.catalogue.tms
        → links.old ≡ map (watched_links g old) (all_sites g)
        → seen.moments.before.items ≡ map (link_before old) (changed_links g old new)) }
    ensures after { IfOk result (λ seen. (g : Input) (old new : Log)
        → IsOver g old new world.now event.now found.now
        → reach ≡ reach_of g new event.now found.now → tms ≡ g.catalogue.tms
        → links.old ≡ map (watched_links g old) (all_sites g)
        → seen.moments.after.items ≡ map (link_after old new) (changed_links g old new)) }
    ensures arrived { IfOk result (λ seen. (g : Input) (old new : Log)
        → IsOver g old new world.now event.now found.now
        → reach ≡ reach_of g new event.now found.now → tms ≡ g.catalogue.tms
        → links.old ≡ map (watched_links g old) (all_sites g)
        → seen.arrived.items ≡ arrived g old new) }
    ensures kept { OnOk result ((g : Input) (old new : Log)
        → IsOver g old new world.now event.now found.now
        → reach ≡ reach_of g new event.now found.now → tms ≡ g.catalogue.tms
        → links.old ≡ map (watched_links g old) (all_sites g)
        → links.new ≡ map (watched_links g new) (all_sites g)) }
{
    let mut on_links = OnLinks {
        moments: Both::new(alloc),
        arrived: Vec::new(alloc),
    };
    let mut place = next_reached(tms, reach, 0);
    'sites: while place < links.len() {
        look_at_site(
            alloc,
            world,
            event,
            found,
            reach,
            &mut links[place],
            &mut on_links,
        )?;
        place = next_reached(tms, reach, place + 1);
    }
    Ok(on_links)
}

/// Adds a link on which nothing was done, where there is one between these sites.
fn add_link(
    alloc: Global,
    from: Site,
    to: Site,
    links: &mut Vec<WatchedLink>,
) -> Result<(), NoMemory>
    ensures { OnOk result (links.new.items ≡ links.old.items
        ++ cond (are_linked_by from to) (watched_link [] (from, to) ∷ []) []) }
{
    if are_linked(from, to) {
        links.push(WatchedLink::new(alloc, from, to))?;
    }
    Ok(())
}

/// The links from a site to those among the sites, on which nothing was done.
fn first_links_from(
    alloc: Global,
    from: Site,
    sites: &[Site],
) -> Result<AtSite<WatchedLink>, NoMemory>
    ensures { IfOk result (λ links. (g : Input) → sites.now ≡ all_sites g
        → links ≡ watched_links g [] from) }
{
    let mut links = Vec::new(alloc);
    for to in sites {
        add_link(alloc, from, *to, &mut links)?;
    }
    Ok(AtSite {
        at: from,
        parts: links,
    })
}

/// The links between these sites, on which nothing was done, by the site from which they come. Out
/// of memory is its one error. Steps: the square of the sites.
pub fn first_links(alloc: Global, sites: &[Site]) -> Result<Vec<AtSite<WatchedLink>>, NoMemory>
    ensures { IfOk result (λ links. (g : Input) → sites.now ≡ all_sites g
        → links.items ≡ map (watched_links g []) (all_sites g)) }
{
    let mut links = Vec::new(alloc);
    for from in sites {
        links.push(first_links_from(alloc, *from, sites)?)?;
    }
    Ok(links)
}
