ghost use Rattle.std.specs.Prelude.{◌≡◌, ◌+◌, ◌-◌, ◌^◌, ◌≤◌, ◌<◌, [], ◌∷◌, ◌++◌, length, true, false, IsTrue, IfOk, OnOk, OnErr};
ghost use Rattle.sdd_base.specs.Words.{is_empty};
ghost use Rattle.sdd_net.specs.Links.{numbered};
ghost use Rattle.sdd_net.specs.Sending.{nothing_sent, last_number, acknowledged};

use crate::packet::{Packet, Packets};
use sdd_base::{Listed, MAX_LINK_MESSAGES, NoMemory, Parcel};
use std::alloc::Global;
use std::collections::VecDeque;
use std::marker::Model;

/// The sending end of one direction of a link: it numbers messages from 1 and keeps each until it is
/// acknowledged.
#[derive(Drop)]
pub struct Sender<M> {
    acked: u32,
    unacked: VecDeque<M>,
    live: bool,
}

impl<M> Model for Sender<M> {
    ghost use Rattle.std.specs.Prelude.{◌+◌, ◌^◌, ◌<◌, length};
    ghost use Rattle.sdd_base.specs.Kept.{Kept};
    ghost use Rattle.sdd_net.specs.Sending.{Sending};

    ghost Value = { Kept (Sending M) };

    ghost view = { λ s. record { live = s.live; value = record { acked = s.acked; unacked = s.unacked.items } } };

    ghost invariant = { λ s. s.acked + length s.unacked.items < 2 ^ 32 };
}

impl<M: Parcel> Sender<M> {
    /// A sender to which nothing was put.
    pub fn new(alloc: Global) -> Self
        ensures { result ≡ record { live = true; value = nothing_sent } }
    {
        Sender {
            acked: 0,
            unacked: VecDeque::new(alloc),
            live: true,
        }
    }

    /// False once a call ran out of memory; after that the sender is only dropped.
    pub fn live(&self) -> bool
        ensures { result ≡ self.now.live }
    {
        self.live
    }

    /// How many messages were put. Takes constant time.
    pub fn count(&self) -> u32
        ensures { result ≡ last_number self.now.value }
    {
        self.acked + self.unacked.len() as u32
    }

    /// The messages from 1 to this number are acknowledged. Takes constant time.
    pub fn acked_upto(&self) -> u32
        ensures { result ≡ self.now.value.acked }
    {
        self.acked
    }

    /// How many messages are unacknowledged. Takes constant time.
    pub fn unacked(&self) -> u32
        ensures { result ≡ length self.now.value.unacked }
    {
        let _ = self.acked;
        self.unacked.len() as u32
    }

    /// Whether every message is acknowledged. Takes constant time.
    pub fn is_done(&self) -> bool
        ensures { result ≡ is_empty self.now.value.unacked }
    {
        self.unacked.is_empty()
    }

    /// Keeps a message and gives its number, in constant time but for growth.
    pub fn put(&mut self, msg: M) -> Result<u32, NoMemory>
        requires live { IsTrue self.old.live }
        requires room { last_number self.old.value < MAX_LINK_MESSAGES }
        ensures number { IfOk result (λ number. number ≡ last_number self.old.value + 1) }
        ensures ok { OnOk result (
            self.new
            ≡ record {
              live = true;
              value = record self.old.value { unacked = self.old.value.unacked ++ msg ∷ [] };
            }) }
        ensures err { OnErr result (self.new.live ≡ false) }
    {
        self.live = false;
        self.unacked.push_back(msg)?;
        self.live = true;
        Ok(self.acked + self.unacked.len() as u32)
    }

    /// A packet for each unacknowledged message, in order. Costs what their copies cost.
    #[tactic(auto, using(crate::proofs::Numbering::numbering))]
    pub fn resend(&self) -> Result<Packets<M>, NoMemory>
        ensures { IfOk result (λ packets.
            packets ≡ numbered self.now.value.acked self.now.value.unacked) }
    {
        let mut packets = Vec::new(*self.unacked.allocator());
        let mut number = self.acked;
        for msg in self.unacked.iter() {
            number += 1;
            packets.push(Packet::Message(number, msg.copy()?))?;
        }
        Ok(Listed::from_vec(packets))
    }

    /// Drops the messages up to number k, which are acknowledged.
    ///
    /// Takes no memory, and constant time for each message that it drops.
    pub fn acknowledge(&mut self, k: u32)
        requires live { IsTrue self.old.live }
        requires known { k ≤ last_number self.old.value }
        ensures { self.new ≡ record { live = true; value = acknowledged k self.old.value } }
    {
        while self.acked < k {
            self.unacked.pop_front();
            self.acked += 1;
        }
    }
}
