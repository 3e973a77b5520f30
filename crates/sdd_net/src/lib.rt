//! Links on which each message is numbered, acknowledged and delivered in order, whatever packets
//! are lost, repeated and reordered; and spools, which keep the messages for a module that is down:
//! of each sender they are given back in the order in which they were put, those of the lowest
//! sender first.
#![tactic(auto)]

mod channel;
mod channels;
mod delivered;
mod flight;
mod law;
mod mailbox;
mod net;
mod packet;
mod pieces;
mod placed_link;
mod sender;
mod sites;
mod spool;

pub use channel::Channel;
pub use delivered::Delivered;
pub use flight::Flight;
pub use law::law_in_order;
pub use net::Net;
pub use packet::{Packet, Packets};
pub use sdd_receiver::Parcels;
pub use sender::Sender;
pub use spool::Spool;
