ghost use Rattle.std.specs.Prelude.{◌≡◌, ◌↔◌, ◌≤◌, ◌<◌, ◌∷◌, [], nat_lt, is_some, ℕ, List, drop, length, true, IsTrue, IfOk};
ghost use Rattle.sdd_needs.specs.All.{Call, Delivers, HasLink, Loses, MAX_DMS, MAX_LINK_MESSAGES, MAX_TMS, Msg, Puts, Repeats, Resends, delivery, is_link, link, links, packet_at, quiet, round, spelled};
ghost use Rattle.sdd_needs.specs.logs.Spelled.{way_as};
ghost use Rattle.sdd_needs.specs.net.Nets.{Matches};
ghost use Rattle.sdd_sites.specs.Carries.{Carries};

use crate::opening::{open, open_behind};
use sdd_base::{Event, NoMemory, Site};
use sdd_net::{Channel, Delivered, Net, Packets};
use sdd_wire::{Msg, Spelling, encode};
use std::alloc::Global;
use std::marker::Model;

/// A network on which messages travel as the bytes that spell them.
///
/// Contracts see whether it is live, and the network of spellings. A message is encoded when it is
/// sent and decoded when it is handed on, each in time and memory linear in its spelling.
#[derive(Drop)]
pub struct Mail {
    net: Net<Spelling>,
    live: bool,
    alloc: Global,
}

impl Model for Mail {
    ghost use Rattle.std.specs.Prelude.{◌≡◌, List, ℕ, true};
    ghost use Rattle.sdd_needs.specs.All.{Directions, Kept};

    ghost Value = { Kept (Directions (List ℕ)) };

    ghost view = { λ m. record { live = m.live; value = m.net.value } };

    ghost invariant = { λ m. m.live ≡ true → m.net.live ≡ true };
}

impl Mail {
    /// The links between U, so many transaction modules and so many data modules, all unused.
    pub fn new(alloc: Global, tms: u32, dms: u32) -> Result<Mail, NoMemory>
        requires tms { tms ≤ MAX_TMS }
        requires dms { dms ≤ MAX_DMS }
        ensures { IfOk result (λ mail. Carries mail tms dms []) }
    {
        Ok(Mail {
            net: Net::new(alloc, tms, dms)?,
            live: true,
            alloc,
        })
    }

    /// False once a call ran out of memory; after that the mail is only dropped.
    pub fn live(&self) -> bool
        ensures { result ≡ self.now.live }
    {
        self.live
    }

    /// The network of spellings, to be read.
    pub fn net(&self) -> &Net<Spelling>
        requires { IsTrue self.now.live }
        ensures { result.now ≡ self.now }
    {
        &self.net
    }

    /// Whether there is a link from one site to another. Takes no memory.
    pub fn has_link(&self, from: Site, to: Site) -> bool
        ensures { IsTrue result ↔ HasLink self.now from to }
    {
        self.net.has_link(from, to)
    }

    /// One direction of a link of spellings, lent: its two ends, and what is in flight between them.
    /// Takes no memory.
    pub fn direction(&self, from: Site, to: Site) -> &Channel<Spelling>
        requires { (tms : ℕ) × (dms : ℕ) × (calls : List (Call Msg))
            × Carries self.now tms dms calls × (is_link tms dms from to ≡ true) }
        ensures { (tms : ℕ) (dms : ℕ) (calls : List (Call Msg)) → Carries self.now tms dms calls
            → is_link tms dms from to ≡ true
            → Matches result.now (way_as spelled (link from to calls).there) }
    {
        self.net.direction(from, to)
    }

    /// The packets that are in flight after so many, in order. Costs what their messages do, and
    /// for each a step for each piece of the flight before it.
    pub fn packets_behind(
        &self,
        from: Site,
        to: Site,
        count: usize,
    ) -> Result<Packets<Msg>, NoMemory>
        requires { (tms : ℕ) × (dms : ℕ) × (calls : List (Call Msg))
            × Carries self.now tms dms calls × (is_link tms dms from to ≡ true) }
        ensures { IfOk result (λ packets. (tms : ℕ) (dms : ℕ) (calls : List (Call Msg))
            → Carries self.now tms dms calls → is_link tms dms from to ≡ true
            → packets ≡ drop count (link from to calls).there.flight) }
    {
        open_behind(self.alloc, &self.direction(from, to).flight, count)
    }

    /// How many messages were put on a link. Takes no memory.
    pub fn count_sent(&self, from: Site, to: Site) -> u32
        requires { (tms : ℕ) × (dms : ℕ) × (calls : List (Call Msg))
            × Carries self.now tms dms calls × (is_link tms dms from to ≡ true) }
        ensures { (tms : ℕ) (dms : ℕ) (calls : List (Call Msg)) → Carries self.now tms dms calls
            → is_link tms dms from to ≡ true → result ≡ length (link from to calls).there.sent }
    {
        self.net.sent(from, to)
    }

    /// Puts a message on a link.
    pub fn send(&mut self, from: Site, to: Site, msg: Msg) -> Result<(), NoMemory>
        requires { (tms : ℕ) × (dms : ℕ) × (calls : List (Call Msg))
            × Carries self.old tms dms calls × (is_link tms dms from to ≡ true)
            × (length (link from to calls).there.sent < MAX_LINK_MESSAGES) }
        ensures { IfOk result (λ _. (tms : ℕ) (dms : ℕ) (calls : List (Call Msg))
            → Carries self.old tms dms calls → Carries self.new tms dms (Puts from to msg ∷ calls)) }
    {
        let spelling = Spelling::of(self.alloc, encode(self.alloc, &msg)?)?;
        self.live = false;
        self.net.send(from, to, spelling)?;
        self.live = true;
        Ok(())
    }

    /// Delivers the packet at a place of a link's flight.
    pub fn deliver(&mut self, from: Site, to: Site, place: u32) -> Result<Delivered<Msg>, NoMemory>
        requires { (tms : ℕ) × (dms : ℕ) × (calls : List (Call Msg))
            × Carries self.old tms dms calls × (is_link tms dms from to ≡ true) × (1 ≤ place) }
        ensures given { IfOk result (λ given. (tms : ℕ) (dms : ℕ) (calls : List (Call Msg))
            → Carries self.old tms dms calls → given ≡ delivery place (link from to calls)) }
        ensures ok { IfOk result (λ _. (tms : ℕ) (dms : ℕ) (calls : List (Call Msg))
            → Carries self.old tms dms calls → Carries self.new tms dms (Delivers from to place ∷ calls)) }
    {
        self.live = false;
        let given = self.net.deliver(from, to, place)?;
        let found = open(self.alloc, given)?;
        self.live = true;
        Ok(found)
    }

    /// Takes the packet at a place away; false where there is none. Takes no memory.
    pub fn lose(&mut self, from: Site, to: Site, place: u32) -> bool
        requires { (tms : ℕ) × (dms : ℕ) × (calls : List (Call Msg))
            × Carries self.old tms dms calls × (is_link tms dms from to ≡ true) × (1 ≤ place) }
        ensures there { (tms : ℕ) (dms : ℕ) (calls : List (Call Msg)) → Carries self.old tms dms calls
            → result ≡ is_some (packet_at place (link from to calls)) }
        ensures ok { (tms : ℕ) (dms : ℕ) (calls : List (Call Msg)) → Carries self.old tms dms calls
            → Carries self.new tms dms (Loses from to place ∷ calls) }
    {
        self.net.lose(from, to, place)
    }

    /// Puts a copy of the packet at a place at the flight's end; false where there is none.
    pub fn repeat(&mut self, from: Site, to: Site, place: u32) -> Result<bool, NoMemory>
        requires { (tms : ℕ) × (dms : ℕ) × (calls : List (Call Msg))
            × Carries self.old tms dms calls × (is_link tms dms from to ≡ true) × (1 ≤ place) }
        ensures there { IfOk result (λ there. (tms : ℕ) (dms : ℕ) (calls : List (Call Msg))
            → Carries self.old tms dms calls → there ≡ is_some (packet_at place (link from to calls))) }
        ensures ok { IfOk result (λ _. (tms : ℕ) (dms : ℕ) (calls : List (Call Msg))
            → Carries self.old tms dms calls → Carries self.new tms dms (Repeats from to place ∷ calls)) }
    {
        self.live = false;
        let there = self.net.repeat(from, to, place)?;
        self.live = true;
        Ok(there)
    }

    /// Puts a packet for each unacknowledged message in flight; false where there is none.
    pub fn resend(&mut self, from: Site, to: Site) -> Result<bool, NoMemory>
        requires { (tms : ℕ) × (dms : ℕ) × (calls : List (Call Msg))
            × Carries self.old tms dms calls × (is_link tms dms from to ≡ true) }
        ensures some { IfOk result (λ some. (tms : ℕ) (dms : ℕ) (calls : List (Call Msg))
            → Carries self.old tms dms calls → some ≡ nat_lt (link from to calls).there.acked
            (length (link from to calls).there.sent)) }
        ensures ok { IfOk result (λ _. (tms : ℕ) (dms : ℕ) (calls : List (Call Msg))
            → Carries self.old tms dms calls → Carries self.new tms dms (Resends from to ∷ calls)) }
    {
        self.live = false;
        let some = self.net.resend(from, to)?;
        self.live = true;
        Ok(some)
    }

    /// Whether no packet is in flight and every message is acknowledged. Takes no memory.
    pub fn quiet(&self) -> bool
        requires { (tms : ℕ) × (dms : ℕ) × (calls : List (Call Msg)) × Carries self.now tms dms calls }
        ensures { (tms : ℕ) (dms : ℕ) (calls : List (Call Msg)) → Carries self.now tms dms calls
            → result ≡ quiet (links tms dms) calls }
    {
        self.net.quiet()
    }

    /// The events of a round.
    pub fn round(&self) -> Result<Vec<Event>, NoMemory>
        requires { (tms : ℕ) × (dms : ℕ) × (calls : List (Call Msg)) × Carries self.now tms dms calls }
        ensures { IfOk result (λ events. (tms : ℕ) (dms : ℕ) (calls : List (Call Msg))
            → Carries self.now tms dms calls → events.items ≡ round (links tms dms) calls) }
    {
        self.net.round()
    }
}
