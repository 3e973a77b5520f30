//! The data module of a site D: it answers READs by frozen rows of its copies, holds back WRITEs
//! that a waiting READ must not see, and applies the others.
//!
//! The one contract to the layer above: `DataModule` is a `Module` whose acts are those that
//! `sdd_rules/specs/dm/Due.antt` makes due at its site. It keeps far less than the log: of each pipe
//! what conditions ask, the copies, and the rows that are frozen (`specs/State.antt`); which logs it
//! represents is defined in `specs/Represents.antt`.
#![tactic(auto)]

mod data_module;
mod handing;
mod hints;
mod holding;
mod judging;
mod law;
mod parts;
mod slots;
mod starting;
mod stepping;

pub use data_module::DataModule;
pub use holding::ClassNos;
pub use law::{law_lowest_class_is_named, law_lowest_rank_is_next};
