ghost use Rattle.std.specs.Prelude.{◌≡◌, ◌+◌, ◌-◌, ◌^◌, ◌≤◌, ◌<◌, [], ◌∷◌, ◌++◌, true, not, IsTrue, IfOk, OnOk, Some};
ghost use Rattle.sdd_base.specs.Words.{is_empty};
ghost use Rattle.sdd_net.specs.Links.{numbered};
ghost use Rattle.sdd_net.specs.Nets.{quiet_at, resends_at};
ghost use Rattle.sdd_net.specs.Sending.{nothing_sent, last_number};
ghost use Rattle.sdd_receiver.specs.Receiving.{nothing_received, handed_on, received};

use crate::flight::Flight;
use crate::packet::Packet;
use crate::sender::Sender;
use sdd_base::{MAX_LINK_MESSAGES, NoMemory, Parcel};
use sdd_receiver::{Parcels, Receiver};
use std::alloc::Global;

/// One direction of a link: its two ends, and what is in flight between them.
#[derive(Drop)]
pub struct Channel<M> {
    pub sender: Sender<M>,
    pub flight: Flight<M>,
    pub receiver: Receiver<M>,
}

impl<M: Parcel> Channel<M> {
    pub fn new(alloc: Global) -> Self
        ensures sender { result.sender ≡ record { live = true; value = nothing_sent } }
        ensures flight { result.flight ≡ record { live = true; value = [] } }
        ensures receiver { result.receiver ≡ record { live = true; value = nothing_received } }
    {
        Channel {
            sender: Sender::new(alloc),
            flight: Flight::new(alloc),
            receiver: Receiver::new(alloc),
        }
    }

    /// Numbers and keeps a message, and sends its packet.
    pub fn put(&mut self, msg: M) -> Result<(), NoMemory>
        requires sender { IsTrue self.old.sender.live }
        requires flight { IsTrue self.old.flight.live }
        requires room { last_number self.old.sender.value < MAX_LINK_MESSAGES }
        ensures sender { OnOk result (
            self.new.sender
            ≡ record {
              live = true;
              value = record self.old.sender.value {
                unacked = self.old.sender.value.unacked ++ msg ∷ [];
              };
            }) }
        ensures flight { OnOk result (
            self.new.flight
            ≡ record {
              live = true;
              value = self.old.flight.value
                  ++ Packet.Message (last_number self.old.sender.value + 1) msg ∷ [];
            }) }
        ensures receiver { self.new.receiver ≡ self.old.receiver }
    {
        let number = self.sender.put(msg.copy()?)?;
        self.flight.send(Packet::Message(number, msg))
    }

    /// Sends a packet for each unacknowledged message, and returns whether there was one.
    pub fn resend(&mut self) -> Result<bool, NoMemory>
        requires { IsTrue self.old.flight.live }
        ensures some { IfOk result (λ some. some ≡ not (is_empty self.old.sender.value.unacked)) }
        ensures sender { self.new.sender ≡ self.old.sender }
        ensures flight { OnOk result (
            self.new.flight
            ≡ record {
              live = true;
              value = self.old.flight.value
                  ++ numbered self.old.sender.value.acked self.old.sender.value.unacked;
            }) }
        ensures receiver { self.new.receiver ≡ self.old.receiver }
    {
        let packets = self.sender.resend()?.into_vec();
        for packet in packets {
            self.flight.send(packet)?;
        }
        Ok(self.sender.unacked() > 0)
    }

    /// Whether no packet is in flight and every message is acknowledged. Takes constant time.
    pub fn is_quiet(&self) -> bool
        ensures { result ≡ quiet_at (Some self.now) }
    {
        self.flight.is_empty() && self.sender.is_done()
    }

    /// Whether a round resends here, where this is the channel back. Takes constant time.
    pub fn resends_now(&self, back: &Channel<M>) -> bool
        ensures { result ≡ resends_at (Some self.now) (Some back.now) }
    {
        !self.sender.is_done() && self.flight.is_empty() && back.flight.is_empty()
    }

    /// Takes a message in, and gives what it hands on and the number to acknowledge.
    pub fn receive(&mut self, no: u32, msg: M) -> Result<(Parcels<M>, u32), NoMemory>
        requires live { IsTrue self.old.receiver.live }
        requires number { 1 ≤ no }
        ensures handed { IfOk result (λ given. given.0 ≡ handed_on no msg self.old.receiver.value) }
        ensures count { IfOk result (λ given. given.1 ≡ self.new.receiver.value.count) }
        ensures sender { self.new.sender ≡ self.old.sender }
        ensures flight { self.new.flight ≡ self.old.flight }
        ensures receiver { OnOk result (
            self.new.receiver
            ≡ record { live = true; value = received no msg self.old.receiver.value }) }
    {
        let handed = self.receiver.arrive(no, msg)?;
        Ok((handed, self.receiver.count()))
    }
}
