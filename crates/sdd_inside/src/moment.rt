//! What stands between two events, and what an event found.
use crate::delta::{Found, RowDelta};
use crate::standing::SiteState;
use sdd_net::Packets;
use sdd_script::{ClassNo, DmNo, Event, Listed, Site, Ts, TxnNo};
use sdd_wire::Msg;

/// A link between two events.
#[derive(Drop)]
pub struct LinkMoment {
    pub from: Site,
    pub to: Site,
    /// The packets in flight, the first at place 1.
    pub flight: Packets<Msg>,
    /// How many messages were put on it.
    pub sent: u32,
    /// The messages from 1 to this number are handed to the site where it ends.
    pub handed: u32,
}

/// The queue of a class between two events. A transaction stands in it once.
#[derive(Drop)]
pub struct QueueMoment {
    pub class: ClassNo,
    /// The first is the one that is served.
    pub queue: Listed<TxnNo>,
}

/// The pipe of a class at a data module between two events.
#[derive(Drop)]
pub struct PipeMoment {
    pub dm: DmNo,
    pub class: ClassNo,
    /// The numbers of all messages that came to it so far.
    pub came: Listed<u32>,
    /// How many of these were processed.
    pub processed: u64,
    /// The time up to which the class has passed.
    pub passed: Ts,
}

/// The lists that may be long, between two events. Two moments of a run have the same links, queues
/// and pipes, in the same order.
#[derive(Drop)]
pub struct Moment {
    pub links: Listed<LinkMoment>,
    pub queues: Listed<QueueMoment>,
    pub pipes: Listed<PipeMoment>,
}

/// An event, what it found, and what is reported of it whole.
#[derive(Drop)]
pub struct Happened {
    /// Its number, those of a settle counted too.
    pub number: u32,
    /// The place in the schedule, counted from 1, of what it is or belongs to.
    pub scheduled: u32,
    /// The round of the settle to which it belongs.
    pub round: Option<u32>,
    pub event: Event,
    pub found: Found,
    /// The items to which changes were applied.
    pub rows: Listed<RowDelta>,
    /// How the sites stand that took part.
    pub sites: Listed<SiteState>,
}
