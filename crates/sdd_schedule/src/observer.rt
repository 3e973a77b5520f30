//! Who looks on while a schedule is carried out.
ghost use Rattle.std.specs.Prelude.{◌∷◌, List, OnOk};
ghost use Rattle.sdd_world.specs.Represents.{Calm};
ghost use Rattle.sdd_world.specs.needs.All.{Event as Happening, Input, IsLawful, Log, Round, with_event};
ghost use Rattle.sdd_schedule.specs.Events.{IsToFollow, IsTellable};

use crate::turn::Turn;
use sdd_world::{Event, NoMemory, World};

/// Looks on while a schedule is carried out, event by event.
pub trait Observer: Drop {
    // It has followed the run up to this log.
    ghost follows: { Self → Input → Log → Type 0 };
    // It has, and has looked at the world before this event, which is next.
    ghost awaits: { Self → Input → Log → Happening → Type 0 };

    /// A law: what was followed stays so where an event more is given.
    fn law_given(&self)
        ensures followed { (g : Input) (added : Happening) (log : Log) → IsLawful g log
            → follows self.now g log → follows self.now (with_event g added) log }
        ensures awaited { (g : Input) (added : Happening) (log : Log) (e : Happening) → IsLawful g log
            → awaits self.now g log e → awaits self.now (with_event g added) log e };

    /// A law: and where a round begins.
    fn law_round(&self)
        ensures { (g : Input) (events : List Happening) (log : Log)
            → follows self.now g log → follows self.now g (Round events ∷ log) };

    /// Looks at the world before an event. Takes no memory.
    fn look_before(&mut self, world: &World<'_>, event: &Event)
        requires { (g : Input) × (log : Log) × follows self.old g log × Calm world.now g log
            × IsTellable g event.now }
        ensures { (g : Input) (log : Log) → follows self.old g log → Calm world.now g log
            → IsTellable g event.now → awaits self.new g log event.now };

    /// Looks at the world after the event, with all that it made due.
    fn look_after(&mut self, world: &World<'_>, turn: Turn) -> Result<(), NoMemory>
        requires { (g : Input) × (old : Log) × (new : Log) × awaits self.old g old turn.event
            × IsToFollow g old new world.now turn }
        ensures { OnOk result ((g : Input) (old new : Log) → awaits self.old g old turn.event
            → IsToFollow g old new world.now turn → follows self.new g new) };
}
