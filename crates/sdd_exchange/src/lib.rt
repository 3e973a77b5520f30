//! How an attempt asks its modules for rows, and reduces them before they are shipped.
//!
//! The one contract to the layer above: an `Exchange` is what `specs/attempt/Exchange.antt` of the
//! rules says of it; each message that is handed to it and each that it sends changes it as is
//! defined there.
#![tactic(auto)]

mod answer;
mod counts;
mod exchange;
mod modules;
mod outbox;
mod phase;
mod queries;

pub use answer::Answer;
pub use exchange::Exchange;
pub use modules::Modules;
