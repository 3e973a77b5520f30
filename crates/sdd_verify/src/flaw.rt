//! What ends the judging of a report.
ghost use Rattle.std.specs.Prelude.{◌≡◌, Err};
ghost use Rattle.sdd_script.specs.All.{GivesReading, must, require};
ghost use Rattle.sdd_verify.specs.Flaws.{line_in};

use sdd_script::NoMemory;
use std::alloc::AllocFailed;

/// What ends the judging of a report.
#[derive(Clone, Copy)]
pub enum Flaw {
    /// The line with this number is at fault; 0 stands for the whole report.
    Line(u32),
    /// Out of memory.
    NoMemory,
}

/// The value, or the line is at fault where it isn't there.
pub(crate) fn require<T>(line: u32, value: Option<T>) -> Result<T, Flaw>
    ensures { GivesReading line_in (λ x. x) result (require line value) }
{
    match value {
        Some(value) => Ok(value),
        None => Err(Flaw::Line(line)),
    }
}

/// The line is at fault where the test fails.
pub(crate) fn must(line: u32, holds: bool) -> Result<(), Flaw>
    ensures { GivesReading line_in (λ u. u) result (must line holds) }
{
    if holds { Ok(()) } else { Err(Flaw::Line(line)) }
}

impl<T: Drop> From<AllocFailed<T>> for Flaw {
    ghost use Rattle.std.specs.Prelude.{◌≡◌};
    ghost use Rattle.sdd_verify.specs.declared.flaw.Flaw.TheVariants.{NoMemory};

    ghost from_gives = { λ _ e. e ≡ NoMemory };

    fn from(_error: AllocFailed<T>) -> Self {
        Flaw::NoMemory
    }
}

impl From<NoMemory> for Flaw {
    ghost use Rattle.std.specs.Prelude.{◌≡◌};
    ghost use Rattle.sdd_verify.specs.declared.flaw.Flaw.TheVariants.{NoMemory};

    ghost from_gives = { λ _ e. e ≡ NoMemory };

    fn from(_error: NoMemory) -> Self {
        Flaw::NoMemory
    }
}
