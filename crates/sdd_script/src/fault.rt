ghost use Rattle.std.specs.Prelude.{◌≡◌, Ok, Err, MatchResult};
ghost use Rattle.sdd_script.specs.ReadResults.{fault_at_line};
ghost use Rattle.sdd_lang.specs.All.{GivesReading, must, require};
ghost use Rattle.sdd_script.specs.declared.fault.LineError.TheVariants.{Broken};
ghost use Rattle.sdd_script.specs.Rules.{rule_in};

use sdd_lang::{NoMemory, Parcel};
use std::alloc::{AllocError, AllocFailed};
use thiserror::Error;

/// A fault of a workload: the rule that is broken, and the line.
#[derive(Clone, Copy, Debug, PartialEq, Eq)]
pub struct WorkFault {
    /// The line, counted from 1; 0 where the file is too long.
    pub line: u32,
    pub rule: WorkRule,
}

/// The rules that a workload may break.
#[derive(Clone, Copy, Debug, PartialEq, Eq)]
pub enum WorkRule {
    /// The line isn't UTF-8.
    NotUtf8,
    /// The file has more bytes than the limit.
    TooLong,
    /// The line has no form, or may not stand there.
    BadLine,
    /// There is nothing of this name or number, or it isn't spelled as a name.
    UnknownName,
    /// A value or column is of another kind, or there are too few or too many values.
    WrongKind,
    /// The name is that of an earlier transaction.
    DuplicateTxn,
    /// The transaction is submitted before.
    SubmittedTwice,
    /// There are more than the limit.
    TooMany(Counts),
    /// A key is assigned.
    KeyChanged,
    /// A number is misspelled or out of its range.
    BadNumber,
    /// The site isn't there, there is no link, or no class list may be put in force there.
    BadEvent,
    /// The file ends before its end.
    NoEnd,
    /// The class's name is taken, or it reads or writes the fragment before, or reads it where no copy is.
    BadClass,
}

/// What a workload may have too many of.
#[derive(Clone, Copy, Debug, PartialEq, Eq)]
pub enum Counts {
    /// Initial rows, and statements that put one, together.
    Row,
    Txn,
    /// Statements of a transaction.
    Statement,
    /// Relations of a query.
    Part,
    /// Conditions of a statement.
    Cond,
    /// Columns that a query lists, or assignments of an update.
    Column,
    Event,
    /// Classes, those of the catalogue and of all lists, together.
    Class,
    /// Fragments that a class reads.
    Read,
    /// Class lists.
    List,
}

/// Why there is no workload.
#[derive(Debug, Drop, Error)]
pub enum WorkError {
    /// The first fault.
    #[error("the workload has a fault")]
    Fault(WorkFault),
    /// Out of memory.
    #[error("no memory")]
    NoMemory,
}

/// Why a line is not read.
#[derive(Clone, Copy)]
pub enum LineError {
    /// The first rule that it breaks.
    Broken(WorkRule),
    /// Out of memory.
    NoMemory,
}

/// The answer to a line that breaks the rule.
pub(crate) fn refuse<T>(rule: WorkRule) -> Result<T, LineError>
    ensures { result ≡ Err (Broken rule) }
{
    Err(LineError::Broken(rule))
}

/// The value, or the rule that is broken where it isn't there.
pub(crate) fn require<T>(rule: WorkRule, value: Option<T>) -> Result<T, LineError>
    ensures { GivesReading rule_in (λ x. x) result (require rule value) }
{
    match value {
        Some(value) => Ok(value),
        None => refuse(rule),
    }
}

/// The rule is broken where the test fails.
pub(crate) fn must(rule: WorkRule, holds: bool) -> Result<(), LineError>
    ensures { GivesReading rule_in (λ u. u) result (must rule holds) }
{
    if holds { Ok(()) } else { refuse(rule) }
}

/// What a line answered, its fault reported at the line's number.
pub(crate) fn at_line<T>(line: u32, read: Result<T, LineError>) -> Result<T, WorkError>
    ensures { MatchResult read (λ x. result ≡ Ok x) (λ e. result ≡ Err (fault_at_line line e)) }
{
    match read {
        Ok(value) => Ok(value),
        Err(LineError::Broken(rule)) => Err(WorkError::Fault(WorkFault { line, rule })),
        Err(LineError::NoMemory) => Err(WorkError::NoMemory),
    }
}

impl From<AllocError> for LineError {
    ghost use Rattle.std.specs.Prelude.{◌≡◌};
    ghost use Rattle.sdd_script.specs.declared.fault.LineError.TheVariants.{NoMemory};

    ghost from_gives = { λ _ e. e ≡ NoMemory };

    fn from(_error: AllocError) -> Self {
        LineError::NoMemory
    }
}

impl<T: Drop> From<AllocFailed<T>> for LineError {
    ghost use Rattle.std.specs.Prelude.{◌≡◌};
    ghost use Rattle.sdd_script.specs.declared.fault.LineError.TheVariants.{NoMemory};

    ghost from_gives = { λ _ e. e ≡ NoMemory };

    fn from(_error: AllocFailed<T>) -> Self {
        LineError::NoMemory
    }
}

impl From<NoMemory> for LineError {
    ghost use Rattle.std.specs.Prelude.{◌≡◌};
    ghost use Rattle.sdd_script.specs.declared.fault.LineError.TheVariants.{NoMemory};

    ghost from_gives = { λ _ e. e ≡ NoMemory };

    fn from(_error: NoMemory) -> Self {
        LineError::NoMemory
    }
}

impl Parcel for WorkFault {
    fn copy(&self) -> Result<Self, NoMemory> {
        Ok(*self)
    }
}
