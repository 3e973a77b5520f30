ghost use Rattle.std.specs.Prelude.{◌≡◌, ◌↔◌, ◌-◌, ◌≤◌, ◌<◌, [], ◌∷◌, ◌++◌, length, replicate, slice_get, true, false, Some, None, IsTrue, IfOk, OnOk, OnErr, OnSome};
ghost use Rattle.std.specs.Option.{option_copied};
ghost use Rattle.sdd_base.specs.Words.{is_empty};
ghost use Rattle.sdd_net.specs.Links.{without_at};

use crate::packet::Packet;
use crate::pieces::Pieces;
use sdd_base::{Event, NoMemory, Parcel};
use std::alloc::Global;
use std::marker::Model;

/// The packets that are in flight in one direction of a link, in the order of their sending.
///
/// A place in it counts from 1. Contracts see whether it is live, and the list of its packets. These
/// are kept in pieces of 512 packets that were sent one after the other, less those that were taken;
/// a piece goes, and gives its room back, with the last of its packets, unless it is the last piece:
/// that one keeps its room, so that a flight which empties often takes no memory anew.
#[derive(Drop)]
pub struct Flight<M> {
    packets: Pieces<Packet<M>>,
    live: bool,
}

impl<M> Model for Flight<M> {
    ghost use Rattle.std.specs.Prelude.{List};
    ghost use Rattle.sdd_base.specs.Kept.{Kept};
    ghost use Rattle.sdd_net.specs.declared.packet.Packet.{Packet};

    ghost Value = { Kept (List (Packet M)) };

    ghost view = { λ f. record { live = f.live; value = f.packets } };
}

impl<M: Parcel> Flight<M> {
    /// A flight without packets.
    pub fn new(alloc: Global) -> Self
        ensures { result ≡ record { live = true; value = [] } }
    {
        Flight {
            packets: Pieces::new(alloc),
            live: true,
        }
    }

    /// False once a call ran out of memory; after that the flight is only dropped.
    pub fn live(&self) -> bool
        ensures { result ≡ self.now.live }
    {
        self.live
    }

    /// Adds an event to a list as often as packets are in flight.
    pub fn add_for_each(&self, events: &mut Vec<Event>, event: Event) -> Result<(), NoMemory>
        ensures { OnOk result (
            events.new.items ≡ events.old.items ++ replicate (length self.now.value) event) }
    {
        self.packets.add_for_each(events, event)
    }

    /// Whether nothing is in flight. Takes constant time.
    pub fn is_empty(&self) -> bool
        ensures { result ≡ is_empty self.now.value }
    {
        self.packets.is_empty()
    }

    /// The packet that stands after so many, lent; None exactly where there is none.
    ///
    /// Takes no memory, and a step for each piece before the packet's.
    pub fn behind(&self, count: usize) -> Option<&Packet<M>>
        ensures { option_copied result ≡ slice_get self.now.value count }
    {
        self.packets.get(count)
    }

    /// The packet at a place, lent; None exactly where the place is past the end. Costs as `behind`.
    pub fn packet(&self, place: u32) -> Option<&Packet<M>>
        requires { 1 ≤ place }
        ensures { option_copied result ≡ slice_get self.now.value (place - 1) }
    {
        self.behind((place - 1) as usize)
    }

    /// Puts a packet at the end, in constant time but for growth.
    pub fn send(&mut self, packet: Packet<M>) -> Result<(), NoMemory>
        requires live { IsTrue self.old.live }
        ensures ok { OnOk result (
            self.new ≡ record { live = true; value = self.old.value ++ packet ∷ [] }) }
        ensures err { OnErr result (self.new.live ≡ false) }
    {
        self.live = false;
        self.packets.push(packet)?;
        self.live = true;
        Ok(())
    }

    /// Takes the packet at a place away, or gives None exactly where the place is past the end.
    ///
    /// Takes no memory. Costs a step for each piece before the packet's, and at most 512 more.
    pub fn take(&mut self, place: u32) -> Option<Packet<M>>
        requires live { IsTrue self.old.live }
        requires place { 1 ≤ place }
        ensures packet { result ≡ slice_get self.old.value (place - 1) }
        ensures some { OnSome result (
            self.new ≡ record { live = true; value = without_at self.old.value (place - 1) }) }
        ensures none { result ≡ None → self.new ≡ self.old }
    {
        self.packets.remove((place - 1) as usize)
    }

    /// Puts a copy of the packet at a place at the end. The answer is false exactly where the place
    /// is past the end, and then nothing changes.
    ///
    /// Costs what the copy costs, and a step for each piece before the packet's.
    pub fn repeat(&mut self, place: u32) -> Result<bool, NoMemory>
        requires live { IsTrue self.old.live }
        requires place { 1 ≤ place }
        ensures which { IfOk result (λ there. IsTrue there ↔ (place ≤ length self.old.value)) }
        ensures some { (packet : Packet M) → result ≡ Ok true
            → slice_get self.old.value (place - 1) ≡ Some packet
            → self.new ≡ record { live = true; value = self.old.value ++ packet ∷ [] } }
        ensures none { result ≡ Ok false → self.new ≡ self.old }
        ensures err { OnErr result (self.new.live ≡ false) }
    {
        self.live = false;
        let there = match self.packets.get((place - 1) as usize) {
            Some(packet) => {
                let copy = packet.copy()?;
                self.packets.push(copy)?;
                true
            }
            None => false,
        };
        self.live = true;
        Ok(there)
    }
}
