//! The pipes of a data module: the messages of each class in the order in which they came, those
//! that are processed and those that aren't, and what a read condition asks of them.
//!
//! The one contract to the layer above: what a pipe has passed, and which of its WRITEs touch a
//! condition, is what `specs/Pipe.antt` defines. `Pipes` keeps the unprocessed messages, and of the
//! processed ones only what conditions ask (`specs/Digest.antt`); the laws say that it answers the
//! same.
#![tactic(auto)]

mod class_pipe;
mod law;
mod pipes;
mod touching;
mod writes;

pub use law::{law_empty, law_last_write, law_passed, law_put, law_take};
pub use pipes::Pipes;
pub use touching::touches;
