//! The catalogues of a workload that declares class lists.
//!
//! What the layer above gets: `lists_of` makes the catalogues that are in force one after the other,
//! and the one with the classes of all lists, as `specs/InForce.antt` says. Lists of a workload
//! that the catalogue allows break no rule, so a call fails only where memory runs out. Without
//! lists both are the catalogue itself, which is lent.
#![tactic(auto)]

mod following;
mod lists;

pub use lists::{Lists, lists_of};
