//! Why a read has its protocol, so that a person can check it with a pencil: by a cycle of the conflict
//! graph, or by the nodes that lie apart.
//!
//! The one contract to the layer above: `advise` gives good advice for each diagonal of a catalogue, in
//! order, `check_advice` says whether advice is good, as `specs/Advices.antt` defines it, and
//! `advice_text` gives the text of such advice (`specs/Texts.antt`). That good advice says what the table
//! of the catalogue says is a law (`specs/Laws.antt`).
#![tactic(auto)]

mod advice;
mod advising;
mod check;
mod cycle;
mod graph;
mod law;
mod neighbour;
mod pair;
mod search;
mod spelling;
mod without;

pub use advice::{Advice, Edges, Nodes};
pub use advising::advise;
pub use check::check_advice;
pub use law::{law_advices_say_the_table, law_good_advice_is_right};
pub use spelling::advice_text;
