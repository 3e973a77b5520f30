use crate::listed::Listed;
use crate::no_memory::NoMemory;
use crate::number::{TmNo, TxnNo};
use crate::parcel::Parcel;
use crate::site::Site;

/// One event of a schedule. Places in a flight are counted from 1.
#[derive(Clone, Copy)]
pub enum Event {
    /// A transaction is given to its module.
    Submit(TxnNo),
    /// The packet at a place of the flight arrives.
    Deliver { from: Site, to: Site, place: u32 },
    /// The packet at a place of the flight is taken away.
    Lose { from: Site, to: Site, place: u32 },
    /// A copy of the packet at a place goes to the flight's end.
    Repeat { from: Site, to: Site, place: u32 },
    /// A packet for each unacknowledged message goes to the flight's end.
    Resend { from: Site, to: Site },
    /// The clock of a transaction module goes on by so much.
    Tick { tm: TmNo, n: u32 },
    /// Rounds are carried out until the world is quiet.
    Settle,
    /// Rounds are carried out until the world is quiet, and then the next class list is in force.
    Redeclare,
    /// A module goes down, of data or of transactions: its messages are kept for it.
    Down(Site),
    /// A module comes up: the messages that were kept are handed to it.
    Up(Site),
}

/// A schedule.
pub type Events = Listed<Event>;

impl Parcel for Event {
    fn copy(&self) -> Result<Self, NoMemory> {
        Ok(*self)
    }
}
