//! Reading a catalogue: a TOML file, judged from its length to the rules over all its parts.
#![tactic(auto)]

mod fields;
mod lists;
mod location;
mod reading;
mod spelled;
mod tables;

pub use reading::read_catalogue;
