ghost use Rattle.std.specs.Prelude.{◌≡◌, ◌+◌, ◌*◌, ◌/◌, ◌^◌, ◌<◌};
ghost use Rattle.sdd_base.specs.Clock.{pushed, ticked, timestamp, bound_of, at_zero};

use crate::number::Ts;
use std::marker::Model;

/// The clock of a module. Its timestamps are `ticks * 64 + number`, where the number is that of the
/// transaction module, or 0 for U, so no two modules give one timestamp.
///
/// No call takes memory, and each takes constant time.
#[derive(Drop)]
pub struct Clock {
    number: u8,
    ticks: u64,
}

impl Model for Clock {
    ghost use Rattle.sdd_base.specs.Clock.{Ticking};
    ghost use Rattle.std.specs.Prelude.{◌^◌, ◌<◌};

    ghost Value = { Ticking };

    ghost view = { λ c. record { number = c.number; ticks = c.ticks } };

    ghost invariant = { λ c. c.ticks < 2 ^ 57 };
}

impl Clock {
    /// The clock of the module with this number, at 0.
    pub fn new(no: u8) -> Clock
        ensures { result ≡ at_zero no }
    {
        Clock {
            number: no,
            ticks: 0,
        }
    }

    /// Makes the clock at least `t / 64`, so that each later timestamp is above t.
    pub fn push(&mut self, t: Ts)
        requires { t.0 / 64 < 2 ^ 57 }
        ensures { self.new ≡ pushed self.old t.0 }
    {
        self.ticks = self.ticks.max(t.0 / 64);
    }

    /// Adds ticks.
    pub fn tick(&mut self, n: u32)
        requires { self.old.ticks + n < 2 ^ 57 }
        ensures { self.new ≡ ticked self.old n }
    {
        self.ticks += n as u64;
    }

    /// Adds 1 and gives the timestamp of an attempt that starts now.
    pub fn start(&mut self) -> Ts
        requires { self.old.ticks + 1 < 2 ^ 57 }
        ensures clock { self.new ≡ ticked self.old 1 }
        ensures timestamp { result.0 ≡ timestamp self.new }
    {
        self.ticks += 1;
        Ts(self.ticks * 64 + self.number as u64)
    }

    /// The greatest time that is not above any timestamp that is still to come from here.
    pub fn bound(&self) -> Ts
        ensures { result.0 ≡ bound_of self.now }
    {
        Ts(self.ticks * 64 + 63)
    }
}
