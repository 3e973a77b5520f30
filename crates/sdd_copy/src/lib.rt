//! The copies of fragments that a data module keeps, and the rows that it holds frozen for the uses
//! of an attempt.
//!
//! The one contract to the layer above: what a copy holds is the contents (`specs/Contents.antt`)
//! of the dated changes that were applied to it: of the changes of an item the one with the
//! greatest date. It is a function of the set of these changes, whatever their order
//! (`law_order`, `law_copies_order`). What is frozen are the rows of the copies that meet the
//! restrictions of each use (`specs/Frozen.antt`), and they are counted, listed by their values,
//! reduced and shipped as defined there (`Space`).
#![tactic(auto)]

mod copies;
mod frag_copy;
mod freezing;
mod law;
mod reducing;
mod space;

pub use copies::Copies;
pub use frag_copy::FragCopy;
pub use law::{law_contents, law_copies_order, law_order};
pub use space::Space;
