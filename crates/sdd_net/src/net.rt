ghost use Rattle.std.specs.Prelude.{◌≡◌, ◌↔◌, ◌+◌, ◌-◌, ◌^◌, ◌≤◌, ◌<◌, [], ◌∷◌, ◌++◌, List, nat_lt, length, is_some, replicate, true, false, IsTrue, IfOk, OnOk, OnErr, slice_get, Some};
ghost use Rattle.std.specs.List.{filter_map, flat_map};
ghost use Rattle.sdd_base.specs.Sites.{links};
ghost use Rattle.sdd_net.specs.Links.{Call, Puts, Delivers, Loses, Repeats, Resends, link, packet_at, delivery, quiet, round};
ghost use Rattle.sdd_net.specs.Nets.{Represents, HasLink, Matches, Does, IsLiveAt, sent_on, unused_channel, quiet_at, resend_on, deliveries_on};

use crate::channel::Channel;
use crate::channels::{deliver_at, put_at, repeat_at, resend_at, take_at};
use crate::delivered::Delivered;
use crate::pieces::add_times;
use crate::placed_link::{PlacedLink, place_all};
use crate::sites::{all_links, index_of, is_link, pair_count};
use sdd_base::{Event, MAX_DMS, MAX_LINK_MESSAGES, MAX_TMS, NoMemory, Parcel, Site};
use std::alloc::Global;
use std::marker::Model;

/// For how many deliveries a round takes memory at first.
const ROUND_LEN: usize = 64;

/// The links between the sites of a network.
///
/// Contracts see whether it is live, and say which calls it represents: whatever list of calls,
/// newest first, it represented before a call, it represents that list with the call put before it.
/// What a list of calls makes of a link is defined on all that was ever sent and arrived, while the
/// net keeps only what is unacknowledged, in flight or early. Places in a flight count from 1.
///
/// To find a link takes constant time; what goes over all links finds each by a place that is kept.
/// The links that are unused take memory too, some hundred bytes for each pair of sites.
#[derive(Drop)]
pub struct Net<M> {
    tms: u32,
    dms: u32,
    links: Vec<PlacedLink>,
    channels: Vec<Channel<M>>,
    live: bool,
    alloc: Global,
}

impl<M> Model for Net<M> {
    ghost use Rattle.sdd_base.specs.Kept.{Kept};
    ghost use Rattle.sdd_net.specs.Nets.{Directions, IsNet};

    ghost Value = { Kept (Directions M) };

    ghost view = { λ n. record { live = n.live; value = record { tms = n.tms; dms = n.dms; channels = n.channels.items } } };

    ghost invariant = { λ n. IsNet n.tms n.dms n.links.items n.live n.channels.items };
}

impl<M: Parcel> Net<M> {
    /// The links between U, so many transaction modules and so many data modules, all unused.
    pub fn new(alloc: Global, tms: u32, dms: u32) -> Result<Net<M>, NoMemory>
        requires tms { tms ≤ MAX_TMS }
        requires dms { dms ≤ MAX_DMS }
        ensures live { IfOk result (λ net. IsTrue net.live) }
        ensures tms { IfOk result (λ net. net.value.tms ≡ tms) }
        ensures dms { IfOk result (λ net. net.value.dms ≡ dms) }
        ensures unused { IfOk result (λ net. Represents net []) }
    {
        let pairs = all_links(alloc, tms, dms)?;
        let links = place_all(alloc, tms, dms, &pairs)?;
        let channels = unused_channels(alloc, pair_count(tms, dms))?;
        Ok(Net {
            tms,
            dms,
            links,
            channels,
            live: true,
            alloc,
        })
    }

    /// False once a call ran out of memory; after that the net is only dropped.
    pub fn live(&self) -> bool
        ensures { result ≡ self.now.live }
    {
        self.live
    }

    /// Whether there is a link from one site to another. Takes no memory, and constant time.
    pub fn has_link(&self, from: Site, to: Site) -> bool
        ensures { IsTrue result ↔ HasLink self.now from to }
    {
        is_link(self.tms, self.dms, from, to)
    }

    /// One direction of a link, lent: its two ends, and what is in flight between them. Takes no
    /// memory, and constant time.
    pub fn direction(&self, from: Site, to: Site) -> &Channel<M>
        requires live { IsTrue self.now.live }
        requires exists { HasLink self.now from to }
        ensures calls { (calls : List (Call M)) → Represents self.now calls
            → Matches result.now (link from to calls).there }
    {
        let channel = &self.channels[index_of(self.tms, self.dms, from, to)];
        channel
    }

    /// How many messages were put on the link. Takes no memory, and constant time.
    pub fn sent(&self, from: Site, to: Site) -> u32
        requires live { IsTrue self.now.live }
        requires exists { HasLink self.now from to }
        ensures count { result ≡ sent_on self.now.value from to }
        ensures calls { (calls : List (Call M)) → Represents self.now calls
            → result ≡ length (link from to calls).there.sent }
    {
        let channel = &self.channels[index_of(self.tms, self.dms, from, to)];
        channel.sender.count()
    }

    /// Puts a message on the link, and its packet in flight.
    ///
    /// Takes constant time, but for one copy of the message and for growth.
    pub fn send(&mut self, from: Site, to: Site, msg: M) -> Result<(), NoMemory>
        requires live { IsTrue self.old.live }
        requires exists { HasLink self.old from to }
        requires room { sent_on self.old.value from to < MAX_LINK_MESSAGES }
        ensures ok { OnOk result (Does self.old self.new (Puts from to msg)) }
        ensures err { OnErr result (self.new.live ≡ false) }
    {
        self.live = false;
        let at = index_of(self.tms, self.dms, from, to);
        put_at(&mut self.channels, at, msg)?;
        self.live = true;
        Ok(())
    }

    /// Delivers the packet at a place of the flight. A message packet is acknowledged first of all.
    /// The answer is `Nothing` exactly where the place is past the flight's end.
    ///
    /// Costs what `Flight::take` does, and a message O(log w) where w messages came early, and as much
    /// for each message that is handed on.
    pub fn deliver(&mut self, from: Site, to: Site, place: u32) -> Result<Delivered<M>, NoMemory>
        requires live { IsTrue self.old.live }
        requires exists { HasLink self.old from to }
        requires place { 1 ≤ place }
        ensures given { IfOk result (λ given.
            (calls : List (Call M)) → Represents self.old calls
            → given ≡ delivery place (link from to calls)) }
        ensures ok { OnOk result (Does self.old self.new (Delivers from to place)) }
        ensures err { OnErr result (self.new.live ≡ false) }
    {
        self.live = false;
        let there = index_of(self.tms, self.dms, from, to);
        let back = index_of(self.tms, self.dms, to, from);
        let delivered = deliver_at(&mut self.channels, there, back, place)?;
        self.live = true;
        Ok(delivered)
    }

    /// Takes the packet at a place of the flight away. The answer is false exactly where the place
    /// is past the flight's end, and then nothing changes.
    ///
    /// Takes no memory, and costs what `Flight::take` does.
    pub fn lose(&mut self, from: Site, to: Site, place: u32) -> bool
        requires live { IsTrue self.old.live }
        requires exists { HasLink self.old from to }
        requires place { 1 ≤ place }
        ensures there { (calls : List (Call M)) → Represents self.old calls
            → result ≡ is_some (packet_at place (link from to calls)) }
        ensures ok { Does self.old self.new (Loses from to place) }
    {
        let at = index_of(self.tms, self.dms, from, to);
        take_at(&mut self.channels, at, place).is_some()
    }

    /// Puts a copy of the packet at a place of the flight at its end. The answer is false exactly
    /// where the place is past the flight's end, and then nothing changes.
    ///
    /// Costs what `Flight::repeat` does.
    pub fn repeat(&mut self, from: Site, to: Site, place: u32) -> Result<bool, NoMemory>
        requires live { IsTrue self.old.live }
        requires exists { HasLink self.old from to }
        requires place { 1 ≤ place }
        ensures there { IfOk result (λ there.
            (calls : List (Call M)) → Represents self.old calls
            → there ≡ is_some (packet_at place (link from to calls))) }
        ensures ok { OnOk result (Does self.old self.new (Repeats from to place)) }
        ensures err { OnErr result (self.new.live ≡ false) }
    {
        self.live = false;
        let at = index_of(self.tms, self.dms, from, to);
        let there = repeat_at(&mut self.channels, at, place)?;
        self.live = true;
        Ok(there)
    }

    /// Puts a packet for each unacknowledged message at the flight's end, in order. The answer is
    /// false exactly where nothing is unacknowledged, and then nothing changes.
    ///
    /// Costs a copy of each of these messages.
    pub fn resend(&mut self, from: Site, to: Site) -> Result<bool, NoMemory>
        requires live { IsTrue self.old.live }
        requires exists { HasLink self.old from to }
        ensures some { IfOk result (λ some.
            (calls : List (Call M)) → Represents self.old calls
            → some ≡ nat_lt (link from to calls).there.acked
            (length (link from to calls).there.sent)) }
        ensures ok { OnOk result (Does self.old self.new (Resends from to)) }
        ensures err { OnErr result (self.new.live ≡ false) }
    {
        self.live = false;
        let at = index_of(self.tms, self.dms, from, to);
        let some = resend_at(&mut self.channels, at)?;
        self.live = true;
        Ok(some)
    }

    /// Whether no packet is in flight and every message is acknowledged.
    ///
    /// Takes no memory, and constant time for each link.
    pub fn quiet(&self) -> bool
        requires { IsTrue self.now.live }
        ensures { (calls : List (Call M)) → Represents self.now calls
            → result ≡ quiet (links self.now.value.tms self.now.value.dms) calls }
    {
        for link in &self.links {
            if !self.is_quiet_at(link.there) {
                return false;
            }
        }
        true
    }

    /// The events of a round: first a `Resend` for each link on which something is unacknowledged
    /// while its flight and the flight of the link back are empty; then for each link as many
    /// `Deliver` at place 1 as its flight holds after those resends. Both go by the site that a link
    /// comes from and then the site that it goes to, in the order of sites.
    ///
    /// Costs one look at each link, and constant time for each event.
    pub fn round(&self) -> Result<Vec<Event>, NoMemory>
        requires { IsTrue self.now.live }
        ensures { IfOk result (λ events.
            (calls : List (Call M)) → Represents self.now calls
            → events.items ≡ round (links self.now.value.tms self.now.value.dms) calls) }
    {
        let mut resends = Vec::new(self.alloc);
        let mut deliveries = Vec::with_capacity(self.alloc, ROUND_LEN)?;
        for link in &self.links {
            self.add_events(link, &mut resends, &mut deliveries)?;
        }
        join_events(resends, deliveries)
    }

    /// Adds what a round does on a link.
    fn add_events(
        &self,
        link: &PlacedLink,
        resends: &mut Vec<Event>,
        deliveries: &mut Vec<Event>,
    ) -> Result<(), NoMemory>
        requires there { IsLiveAt (slice_get self.now.value.channels link.now.there) }
        requires back { IsLiveAt (slice_get self.now.value.channels link.now.back) }
        ensures resends { OnOk result (
            resends.new.items
            ≡ resends.old.items ++ filter_map (resend_on self.now.value.channels) (link.now ∷ [])) }
        ensures deliveries { OnOk result (
            deliveries.new.items
            ≡ deliveries.old.items ++ flat_map (deliveries_on self.now.value.channels) (link.now ∷ [])) }
    {
        let there = self.channel(link.there);
        if there.is_quiet() {
            return Ok(());
        }
        let back = self.channel(link.back);
        let (from, to) = (link.from, link.to);
        let delivery = Event::Deliver { from, to, place: 1 };
        if !there.resends_now(back) {
            return there.flight.add_for_each(deliveries, delivery);
        }
        resends.push(Event::Resend { from, to })?;
        add_times(deliveries, delivery, there.sender.unacked() as usize)
    }

    fn channel(&self, at: usize) -> &Channel<M>
        requires { IsLiveAt (slice_get self.now.value.channels at) }
        ensures { slice_get self.now.value.channels at ≡ Some result.now }
    {
        &self.channels[at]
    }

    fn is_quiet_at(&self, at: usize) -> bool
        requires { IsLiveAt (slice_get self.now.value.channels at) }
        ensures { result ≡ quiet_at (slice_get self.now.value.channels at) }
    {
        self.channel(at).is_quiet()
    }
}

/// The events of both lists.
fn join_events(first: Vec<Event>, second: Vec<Event>) -> Result<Vec<Event>, NoMemory>
    ensures { IfOk result (λ all. all.items ≡ first.items ++ second.items) }
{
    if first.is_empty() {
        return Ok(second);
    }
    let mut all = first;
    all.extend_from_slice(&second)?;
    Ok(all)
}

/// So many channels on which nothing was done.
fn unused_channels<M: Parcel>(alloc: Global, count: usize) -> Result<Vec<Channel<M>>, NoMemory>
    ensures { IfOk result (λ channels. channels.items ≡ replicate count unused_channel) }
{
    let mut channels = Vec::new(alloc);
    for _ in 0..count {
        channels.push(Channel::new(alloc))?;
    }
    Ok(channels)
}
