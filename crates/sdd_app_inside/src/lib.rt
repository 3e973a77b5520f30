//! The call of the program that shows what happens inside a run, over a shelf of files and two sinks
//! that are handed in.
//!
//! `run_inside` is the one contract to the layer above. Its words are the names of a catalogue and of a
//! workload; they ask for the text of what happens inside the run (`specs/Inside.antt`). How a call ends, and how its
//! files are read and judged, is `sdd_shell`'s.
//!
//! `inside_text` is that text, of the run of a workload on a catalogue (`specs/Text.antt`), one line for
//! each event, or the limit ends that run; there is such a text (`law_has_inside`), and one only
//! (`law_one_inside`). What a world tells that carries out a schedule is `sdd_watch`'s.
#![tactic(auto)]

mod inside;
mod law;
mod text;

pub use inside::run_inside;
pub use law::{law_has_inside, law_one_inside};
pub use text::inside_text;
