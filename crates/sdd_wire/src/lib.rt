//! The messages that sites send to each other, their bytes, and what a module sends and records in
//! one call.
//!
//! The one contract to the layer above: a message is a value of `Msg`; which messages go through
//! the pipe of which class, and with which time, is in `specs/Piped.antt`. `encode` gives the bytes
//! that spell a message (`specs/Spelling.antt`). `decode` gives the message of which bytes are the
//! whole spelling, and for all other bytes the place where they break it (`specs/Reading.antt`).
#![tactic(auto)]

mod copying;
mod decoding;
mod encoding;
mod fault;
mod fields;
mod lists;
mod message;
mod msg;
mod numbers;
mod outcome;
mod parts;
mod source;
mod spelled;
mod values;

pub use decoding::{decode, law_spelling};
pub use encoding::encode;
pub use fault::WireFault;
pub use msg::{Msg, Spelling, UseCounts, UseRows, ValueList};
pub use outcome::{Outcome, Outs};
