//! Cases as lines of text: what a case asks, and the reader of the lines.
//!
//! What the layer above gets: a [`CaseReader`] takes line after line, and gives each case once a line
//! ends it. No clause says which case that is; the answers that `sdd_cases` has to print do. The
//! lines are described at its `main`.
#![tactic(auto)]

mod case;
mod input;
mod text;

pub use case::{Case, Each, Program, Taking};
pub use input::CaseReader;
pub use text::{Text, front};
