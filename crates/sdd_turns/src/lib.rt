//! Whether the transactions of an order keep their turns: none stands twice, and those of one class
//! stand by their numbers.
//!
//! The one contract to the layer above: [`is_in_turn`] tells exactly that, as `specs/Turns.antt`
//! defines it of each two members of the order.
#![tactic(auto)]

mod in_turn;

pub use in_turn::is_in_turn;
