//! The order in which one database, without copies, could have run what was committed.
//!
//! The one contract to the layer above: [`serial_order`] gives, of a history that has one, the
//! serial order of its definition (`specs/SerialOrder.antt`), in which each committed transaction
//! stands once, after those that precede it (`specs/Orders.antt`).
#![tactic(auto)]

mod order;

pub use order::serial_order;
