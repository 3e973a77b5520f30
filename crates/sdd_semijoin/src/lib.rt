//! Reducer steps: which use of a query is reduced next, and by which other use.
//!
//! The one contract to the layer above: the step is chosen by the query's conditions, the numbers
//! of rows that its uses have now and the steps that are done, as `specs/Steps.antt` defines.
#![tactic(auto)]

mod choice;
mod moves;
mod step;

pub use choice::next_move;
pub use moves::Move;
pub use step::{Step, Steps};
