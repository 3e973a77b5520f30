//! Which of the committed transactions of a history depend on which: the links between them; and
//! nodes taken in an order along links.
//!
//! The one contract to the layer above: [`find_links`] gives the links of their definition
//! (`specs/Linked.antt`), of which each is a precedence and from which each precedence follows
//! (`proofs/EachLink.antt`, `proofs/EachPrecedence.antt`), and [`order_of`] takes each node after
//! those from which a link leads to it (`specs/Taking.antt`).
#![tactic(auto)]

mod attempts;
mod chain;
mod groups;
mod links;
mod reads;
mod seen;
mod taking;

pub use attempts::{Attempt, Committed, find_committed};
pub use links::find_links;
pub use seen::Marks;
pub use taking::order_of;

// What lies below, for the crate above.
pub use sdd_history::Rec;
pub use sdd_lang::{Catalogue, NoMemory, TxnNo};
