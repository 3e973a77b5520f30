//! Links, as they stood when an event was over.
ghost use Rattle.std.specs.Prelude.{◌≡◌, [], IfOk, OnOk};
ghost use Rattle.std.specs.List.{list_any};
ghost use Rattle.sdd_progress.specs.obligations.All.{Input, IsLinkOf, Log, Site as Place, same_site};
ghost use Rattle.sdd_inside.specs.Differences.{is_of_link, takes_one};
ghost use Rattle.sdd_moments.specs.Awaiting.{behind};
ghost use Rattle.sdd_moments.specs.Looking.{advanced, arrived_with, seen_with};
ghost use Rattle.sdd_moments.specs.Changes.{IsOver, is_taken, left_of, seen_between, watched_link};

use crate::places::is_same;
use crate::waiting::{Purpose, Waiting};
use sdd_inside::{Found, LinkMoment};
use sdd_progress::{Event, Listed, Msg, NoMemory, Packets, Site};
use sdd_schedule::World;
use std::alloc::Global;

/// The messages of a link that were handed over, with their numbers: those that have a purpose.
#[derive(Drop)]
pub struct Arrived {
    pub from: Site,
    pub to: Site,
    pub messages: Listed<(u32, Purpose)>,
}

/// Whether a message was handed to a site. Takes no memory; steps: the links on which some were.
pub fn is_reached(arrived: &[Arrived], at: Site) -> bool
    ensures { result ≡ list_any (λ one. same_site one.to at) arrived.now }
{
    arrived.iter().any(|one| is_same(one.to, at))
}

/// A link before an event and after it, and what was handed over on it.
#[derive(Drop)]
pub(crate) struct LinkSeen {
    pub(crate) before: LinkMoment,
    pub(crate) after: LinkMoment,
    /// None where no message was handed over.
    pub(crate) arrived: Option<Arrived>,
}

/// A link, as it stood when the last event was over.
#[derive(Drop)]
pub struct WatchedLink {
    pub(crate) from: Site,
    pub(crate) to: Site,
    /// How many packets were in flight.
    pub(crate) flying: usize,
    /// How many messages were put on it.
    pub(crate) sent: u32,
    /// How many of them were handed over.
    pub(crate) handed: u32,
    /// The messages that weren't.
    pub(crate) waiting: Waiting,
}

fn takes_one(found: &Found) -> bool
    ensures { result ≡ takes_one found.now }
{
    match found {
        Found::Nothing | Found::Something => false,
        Found::Lost(_) | Found::Arrived { .. } | Found::Acknowledged { .. } => true,
    }
}

fn is_of_link(from: Site, to: Site, event: &Event) -> bool
    ensures { result ≡ is_of_link from to event.now }
{
    match event {
        Event::Deliver { from: a, to: b, .. } => is_same(*a, from) && is_same(*b, to),
        Event::Lose { from: a, to: b, .. } => is_same(*a, from) && is_same(*b, to),
        _ => false,
    }
}

/// Whether the event took a packet off the flight of a link.
fn is_taken(event: &Event, found: &Found, from: Site, to: Site) -> bool
    ensures { result ≡ is_taken event.now found.now (from, to) }
{
    takes_one(found) && is_of_link(from, to, event)
}

/// How many packets are left of so many in flight, where one was taken or none.
fn left_of(taken: bool, flying: usize) -> usize
    ensures { result ≡ left_of taken flying }
{
    if taken {
        flying.saturating_sub(1)
    } else {
        flying
    }
}

/// The link with these packets in flight.
fn moment(from: Site, to: Site, packets: Packets<Msg>, sent: u32, handed: u32) -> LinkMoment
    ensures { result ≡ record { from = from; to = to; flight = packets; sent = sent; handed = handed } }
{
    LinkMoment {
        from,
        to,
        flight: packets,
        sent,
        handed,
    }
}

impl WatchedLink {
    /// A link on which nothing was done.
    pub(crate) fn new(alloc: Global, from: Site, to: Site) -> WatchedLink
        ensures { result ≡ watched_link [] (from, to) }
    {
        WatchedLink {
            from,
            to,
            flying: 0,
            sent: 0,
            handed: 0,
            waiting: Waiting::new(alloc),
        }
    }

    /// Takes the messages that were handed over, where some were.
    fn arrive(&mut self, alloc: Global, handed: u32) -> Result<Option<Arrived>, NoMemory>
        ensures arrived { IfOk result (λ arrived. arrived
            ≡ arrived_with self.old handed self.old.waiting) }
        ensures kept { OnOk result (self.new
            ≡ record self.old { handed = handed; waiting = behind handed self.old.waiting }) }
    {
        let messages = self.waiting.take_up_to(alloc, handed)?;
        if self.handed == handed {
            return Ok(None);
        }
        self.handed = handed;
        Ok(Some(Arrived {
            from: self.from,
            to: self.to,
            messages: Listed::from_vec(messages),
        }))
    }

    /// Takes in that so many packets of the flight stayed and these were put after them, and how
    /// many messages are put and handed over in all.
    fn advance(
        &mut self,
        alloc: Global,
        left: usize,
        news: Packets<Msg>,
        sent: u32,
        handed: u32,
    ) -> Result<LinkSeen, NoMemory>
        ensures seen { IfOk result (λ seen. seen ≡ seen_with news sent handed self.old) }
        ensures kept { OnOk result (self.new ≡ advanced left news sent handed self.old) }
    {
        let none = Packets::from_vec(Vec::new(alloc));
        let before = moment(self.from, self.to, none, self.sent, self.handed);
        self.flying = left.checked_add(news.as_slice().len()).ok_or(NoMemory)?;
        self.waiting.note_all(self.sent, news.as_slice())?;
        let arrived = self.arrive(alloc, handed)?;
        self.sent = sent;
        Ok(LinkSeen {
            before,
            after: moment(self.from, self.to, news, sent, handed),
            arrived,
        })
    }

    /// Looks at the link once an event is carried out.
    pub(crate) fn look(
        &mut self,
        alloc: Global,
        world: &World<'_>,
        event: &Event,
        found: &Found,
    ) -> Result<LinkSeen, NoMemory>
        requires { (g : Input) × (old : Log) × (new : Log)
            × IsOver g old new world.now event.now found.now × IsLinkOf g self.old.from self.old.to }
        ensures seen { IfOk result (λ seen. (g : Input) (old new : Log)
            → IsOver g old new world.now event.now found.now → (l : Place × Place)
            → IsLinkOf g l.0 l.1 → self.old ≡ watched_link old l
            → seen ≡ seen_between old new l) }
        ensures kept { OnOk result ((g : Input) (old new : Log)
            → IsOver g old new world.now event.now found.now → (l : Place × Place)
            → IsLinkOf g l.0 l.1 → self.old ≡ watched_link old l
            → self.new ≡ watched_link new l) }
    {
        let taken = is_taken(event, found, self.from, self.to);
        let left = left_of(taken, self.flying);
        let mail = world.mail();
        let news = mail.packets_behind(self.from, self.to, left)?;
        let sent = mail.count_sent(self.from, self.to);
        let handed = world.count_handed(self.from, self.to);
        let seen = self.advance(alloc, left, news, sent, handed)?;
        Ok(seen)
    }
}
