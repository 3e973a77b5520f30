//! What one event changed.
use crate::standing::SiteState;
use sdd_script::{Change, ClassNo, DmNo, Event, Listed, Site, Ts, TxnNo};
use sdd_wire::Msg;

/// A packet that was taken off its flight.
#[derive(Drop)]
pub enum Taken {
    /// That of the message with this number on its link.
    Message(u32),
    /// An acknowledgement of the messages from 1 to this number.
    Ack(u32),
}

/// What an event found.
#[derive(Drop)]
pub enum Found {
    /// Nothing that could be done.
    Nothing,
    /// What it says was done, and no packet was taken off a flight.
    Something,
    /// A packet, which is lost.
    Lost(Taken),
    /// A message, which arrived. Of its link those from 1 to `delivered` have arrived.
    Arrived { number: u32, delivered: u32 },
    /// An acknowledgement of the messages from 1 to `upto`, which arrived. Its receiver knows of the
    /// messages from 1 to `acked` that they have arrived.
    Acknowledged { upto: u32, acked: u32 },
}

/// The messages from 1 to `upto` of a link were handed to the site where it ends.
#[derive(Drop)]
pub struct Handed {
    pub from: Site,
    pub to: Site,
    pub upto: u32,
}

/// A packet that was put in flight.
#[derive(Drop)]
pub enum InFlight {
    /// An acknowledgement of the messages from 1 to this number of the link back.
    Ack(u32),
    /// One more packet of the message with this number.
    Again(u32),
    /// The first packet of a message, with its number.
    First(u32, Msg),
}

/// The packets that were put in flight on a link, in their order.
#[derive(Drop)]
pub struct Put {
    pub from: Site,
    pub to: Site,
    pub packets: Listed<InFlight>,
}

/// The transactions that came to the end of the queue of a class, and how many went from its front.
#[derive(Drop)]
pub struct QueueDelta {
    pub class: ClassNo,
    pub came: Listed<TxnNo>,
    pub gone: u64,
}

/// The messages that came to the pipe of a class at a data module, by their numbers, how many were
/// processed, and the time up to which the class has passed there.
#[derive(Drop)]
pub struct PipeDelta {
    pub dm: DmNo,
    pub class: ClassNo,
    pub came: Listed<u32>,
    pub processed: u64,
    pub passed: Ts,
}

/// An item to which a change was applied at a data module, with the row that it has there now.
#[derive(Drop)]
pub struct RowDelta {
    pub dm: DmNo,
    pub item: Change,
}

/// What one event changed.
#[derive(Drop)]
pub struct Delta {
    /// Its number, those of a settle counted too.
    pub number: u32,
    /// The place in the schedule, counted from 1, of what it is or belongs to.
    pub scheduled: u32,
    /// The round of the settle to which it belongs.
    pub round: Option<u32>,
    pub event: Event,
    pub found: Found,
    pub handed: Listed<Handed>,
    pub put: Listed<Put>,
    pub queues: Listed<QueueDelta>,
    pub pipes: Listed<PipeDelta>,
    pub rows: Listed<RowDelta>,
    /// How the sites stand that took part.
    pub sites: Listed<SiteState>,
}
