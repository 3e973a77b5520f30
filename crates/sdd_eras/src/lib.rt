//! Further class lists: a catalogue that is extended by classes, and one whose classes retire.
//!
//! What the layer above gets: `extend` adds classes after those that are there, or gives the first
//! fault of these; `retire` empties the first so many classes, whose numbers and names stay. With both
//! the catalogues that are in force one after the other are made (`eras` and `whole` of
//! `sdd_catalog`). Each is a `Catalogue`, so it is valid (`Catalogue::law_is_sound`).
#![tactic(auto)]

mod copying;
mod extending;
mod retiring;

pub use extending::extend;
pub use retiring::retire;
