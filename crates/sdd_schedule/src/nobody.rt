use crate::observer::Observer;
use crate::turn::Turn;
use sdd_world::{Event, NoMemory, World};

/// An observer that looks at nothing.
#[derive(Drop)]
pub struct Nobody;

impl Observer for Nobody {
    ghost follows = { λ nobody g log. Unit {0} };

    ghost awaits = { λ nobody g log e. Unit {0} };

    fn law_given(&self) {}

    fn law_round(&self) {}

    fn look_before(&mut self, _world: &World<'_>, _event: &Event) {}

    fn look_after(&mut self, _world: &World<'_>, _turn: Turn) -> Result<(), NoMemory> {
        Ok(())
    }
}
