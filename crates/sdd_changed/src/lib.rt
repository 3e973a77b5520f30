//! A plain database with changes that are kept apart from its rows.
//!
//! Many short runs can so be tried on one database, none of which changes it. The one contract to the
//! layer above: on a `Changed` the statements of a transaction work as on the database after the
//! changes, and `are_same_where` never tells one database from itself.
#![tactic(auto)]

mod changed;
mod comparing;
mod matching;
mod own_conditions;

pub use changed::Changed;
pub use comparing::are_same_where;
