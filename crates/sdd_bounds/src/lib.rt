//! Bounds: how many rounds a settle has, and how many attempts of a class are rejected.
//!
//! The one contract to the layer above, in two parts.
//!
//! - Four rounds in a row in which nothing is put leave the links quiet (`law_four_rounds`). So a
//!   settle has at most four rounds, and four more for each message that is put within it
//!   (`law_few_rounds`).
//! - All rejected attempts of a class together are at most the committed transactions of other
//!   classes (`law_few_rejected_of_class`).
#![tactic(auto)]

mod rejected_law;
mod rounds_law;

pub use rejected_law::{law_committed_not_rejected, law_few_rejected_of_class};
pub use rounds_law::{law_few_rounds, law_four_rounds};
