//! The receiving end of one direction of a link: it hands on each message once, in the order of the
//! numbers, whatever order they come in and however often.
//!
//! The one contract to the layer above is `Receiver::arrive`: what an arrival hands on and what then
//! waits (`specs/Receiving.antt`), and that this is what has just come to belong to 1 to k, where k is
//! the greatest number with 1 to k among those that arrived (`specs/Arrivals.antt`).
#![tactic(auto)]

mod receiver;

pub use receiver::{Parcels, Receiver};
