//! How many there may be.
ghost use Rattle.std.specs.Prelude.{◌≡◌, nat_le, length};
ghost use Rattle.sdd_lang.specs.All.{GivesReading, must};
ghost use Rattle.sdd_script.specs.declared.fault.WorkRule.TheVariants.{TooMany};
ghost use Rattle.sdd_script.specs.Rules.{rule_in};
ghost use Rattle.sdd_script.specs.ClassLists.{one_more_class};
ghost use Rattle.sdd_script.specs.LineRules.{one_more_row, written_with, statement_limits};

use crate::fault::{Counts, LineError, WorkRule, must};
use sdd_lang::{
    MAX_ASSIGNMENTS, MAX_CLASSES, MAX_CONDITIONS, MAX_OUTPUT_COLUMNS, MAX_ROWS, MAX_STATEMENTS,
    MAX_USES, Stmt,
};

/// The most class lists of a workload.
pub const MAX_LISTS: usize = 8;

/// How many rows there are with one more, or None exactly where there is no room for it.
pub fn one_more_row(written: u32) -> Option<u32>
    ensures { result ≡ one_more_row written }
{
    if (written as usize) < MAX_ROWS {
        Some(written + 1)
    } else {
        None
    }
}

/// How many classes there are with one more, or None exactly where there is no room for it.
pub fn one_more_class(classes: u32) -> Option<u32>
    ensures { result ≡ one_more_class classes }
{
    if (classes as usize) < MAX_CLASSES {
        Some(classes + 1)
    } else {
        None
    }
}

/// How many rows there are with the statement's, or None exactly where there is no room for it.
pub fn written_with(written: u32, statement: &Stmt) -> Option<u32>
    ensures { result ≡ written_with written statement.now }
{
    match statement {
        Stmt::Put { .. } => one_more_row(written),
        _ => Some(written),
    }
}

fn at_most(counts: Counts, number: usize, most: usize) -> Result<(), LineError>
    ensures { GivesReading rule_in (λ u. u) result (must (TooMany counts) (nat_le number most)) }
{
    must(WorkRule::TooMany(counts), number <= most)
}

/// Whether there is room for the statement after so many, and what it holds is within the limits.
pub fn check_limits(before: usize, statement: &Stmt) -> Result<(), LineError>
    ensures { GivesReading rule_in (λ u. u) result (statement_limits before statement.now) }
{
    must(
        WorkRule::TooMany(Counts::Statement),
        before < MAX_STATEMENTS,
    )?;
    match statement {
        Stmt::Put { .. } => Ok(()),
        Stmt::Query { out, rels, conds } => {
            at_most(Counts::Part, rels.as_slice().len(), MAX_USES)?;
            at_most(Counts::Cond, conds.as_slice().len(), MAX_CONDITIONS)?;
            at_most(Counts::Column, out.as_slice().len(), MAX_OUTPUT_COLUMNS)
        }
        Stmt::Update { sets, conds, .. } => {
            at_most(Counts::Cond, conds.as_slice().len(), MAX_CONDITIONS)?;
            at_most(Counts::Column, sets.as_slice().len(), MAX_ASSIGNMENTS)
        }
        Stmt::Delete { conds, .. } => {
            at_most(Counts::Cond, conds.as_slice().len(), MAX_CONDITIONS)
        }
    }
}
