//! The items of one fragment, by key: of the changes of an item the one with the greatest date.
//!
//! The one contract to the layer above is `KeptItems`: what dated changes leave by the write rule
//! (`specs/Items.antt`), and the items by ranges of keys, among which are all whose rows meet
//! restrictions (`specs/Keyed.antt`).
#![tactic(auto)]

mod kept_items;
mod near;

pub use kept_items::KeptItems;
pub use near::meets_all;
