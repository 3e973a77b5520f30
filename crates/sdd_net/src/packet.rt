use sdd_base::{Listed, NoMemory, Parcel};

/// What is in flight on a link.
#[derive(Drop)]
pub enum Packet<M> {
    /// A message with its number, counted from 1 on its link.
    Message(u32, M),
    /// An acknowledgement of the messages of the link back, from 1 to this number.
    Ack(u32),
}

/// Packets, in the order in which they are sent.
pub type Packets<M> = Listed<Packet<M>>;

impl<M: Parcel> Parcel for Packet<M> {
    fn copy(&self) -> Result<Self, NoMemory> {
        match self {
            Packet::Message(no, msg) => Ok(Packet::Message(*no, msg.copy()?)),
            Packet::Ack(k) => Ok(Packet::Ack(*k)),
        }
    }
}
