//! Questions that a catalogue answers before anything runs: whether snapshot isolation is enough for its
//! classes, and which modules they need.
//!
//! The one contract to the layer above: `robust_text` gives the text of `specs/Robust.antt`, and
//! `needs_text` that of `specs/Needs.antt`. What "enough" means stands in `law_enough`.
#![tactic(auto)]

mod flags;
mod law;
mod naming;
mod needs;
mod queueing;
mod reaching;
mod robust;
mod waiting;

pub use law::law_enough;
pub use needs::needs_text;
pub use robust::robust_text;
