ghost use Rattle.std.specs.Prelude.{◌≡◌, Err, MatchResult, Ok};
ghost use Rattle.sdd_script.specs.All.{must, require};
ghost use Rattle.sdd_control.specs.Faults.{GivesLine, fault_at_line};
ghost use Rattle.sdd_control.specs.declared.fault.LineError.TheVariants.{Broken};

use sdd_script::{NoMemory, WorkError, WorkFault, WorkRule};

/// Why a line is not read.
#[derive(Clone, Copy)]
pub enum LineError {
    /// The first rule that it breaks.
    Broken(WorkRule),
    /// Out of memory.
    NoMemory,
}

impl From<NoMemory> for LineError {
    ghost use Rattle.std.specs.Prelude.{◌≡◌};
    ghost use Rattle.sdd_control.specs.declared.fault.LineError.TheVariants.{NoMemory};

    ghost from_gives = { λ _ e. e ≡ NoMemory };

    fn from(_error: NoMemory) -> Self {
        LineError::NoMemory
    }
}

/// The answer to a line that breaks the rule.
pub fn refuse<T>(rule: WorkRule) -> Result<T, LineError>
    ensures { result ≡ Err (Broken rule) }
{
    Err(LineError::Broken(rule))
}

/// The value, or the rule that is broken where it isn't there.
pub fn require<T>(rule: WorkRule, value: Option<T>) -> Result<T, LineError>
    ensures { GivesLine (λ x. x) result (require rule value) }
{
    match value {
        Some(value) => Ok(value),
        None => refuse(rule),
    }
}

/// The rule is broken where the test fails.
pub fn must(rule: WorkRule, holds: bool) -> Result<(), LineError>
    ensures { GivesLine (λ u. u) result (must rule holds) }
{
    if holds { Ok(()) } else { refuse(rule) }
}

/// What a line gave, its fault with the line's number.
pub fn at_line<T>(line: u32, read: Result<T, LineError>) -> Result<T, WorkError>
    ensures { MatchResult read (λ x. result ≡ Ok x) (λ e. result ≡ Err (fault_at_line line e)) }
{
    match read {
        Ok(value) => Ok(value),
        Err(LineError::Broken(rule)) => Err(WorkError::Fault(WorkFault { line, rule })),
        Err(LineError::NoMemory) => Err(WorkError::NoMemory),
    }
}
