//! One database without copies, on which transactions run one after the other.
//!
//! It is the plain meaning of transactions, made to run: `Plain::run` answers and changes what
//! `effect` of `sdd_lang/specs/Effect.antt` says, and `Plain::run_all` is `serial` of
//! `sdd_lang/specs/Serial.antt`. Queries are joined by `sdd_exec`. What other ways of running
//! transactions give is compared with it.
#![tactic(auto)]

mod narrowing;
mod plain;
mod rows;

pub use plain::{Plain, Replies};
pub use rows::relation_of;
