use sdd_world::Event;

/// Where an event stands in the schedule.
#[derive(Clone, Copy)]
pub struct Turn {
    pub event: Event,
    /// The place in the schedule, counted from 1, of what it is or belongs to.
    pub scheduled: u32,
    /// The round to which it belongs.
    pub round: Option<u32>,
}
