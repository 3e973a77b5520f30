//! Tuples of rows: what their columns hold, and whether they meet conditions.
ghost use Rattle.std.specs.Prelude.{◌≡◌, ◌∷◌, [], IfOk, map};
ghost use Rattle.std.specs.List.{list_all};
ghost use Rattle.sdd_base.specs.Order.{column, value_cmp};
ghost use Rattle.sdd_lang.specs.Condition.{value_at, meets, meets_all};
ghost use Rattle.sdd_lang.specs.Database.{key_in};
ghost use Rattle.sdd_lang.specs.Fits.{IsRelation};
ghost use Rattle.sdd_lang.specs.Tuples.{held, may_join, rows_lent};

use crate::condition::{Condition, Ref};
use sdd_base::{AnswerRow, NoMemory, Parcel, RelNo, Row, Value};
use sdd_catalog::Catalogue;
use std::alloc::Global;
use std::cmp::Ordering;

/// The value of a row's column, or None where the column isn't there: then it counts as the number 0.
/// Takes no memory.
pub fn value_in(row: &Row, number: u32) -> Option<&Value>
    ensures { held result ≡ column row.now number }
{
    row.as_slice().get((number as usize).saturating_sub(1))
}

/// The value of a column of a tuple, which has one row for each part of a statement, or None where
/// the part or the column isn't there: then it counts as the number 0. Takes no memory.
pub fn value_at<'a>(tuple: &[&'a Row], at: Ref) -> Option<&'a Value>
    ensures { held result ≡ value_at (rows_lent tuple.now) at }
{
    match tuple.get((at.part as usize).saturating_sub(1)) {
        Some(row) => value_in(row, at.column),
        None => None,
    }
}

/// The key of a relation's row: the number in its key column, or 0 where there is none. Takes no memory.
pub fn key_of(catalogue: &Catalogue, rel: RelNo, row: &Row) -> i64
    requires { IsRelation catalogue.now rel.0 }
    ensures { result ≡ key_in catalogue.now rel.0 row.now }
{
    match value_in(row, catalogue.relation(rel).key) {
        Some(Value::Int(number)) => *number,
        _ => 0,
    }
}

/// Compares two values, of which one that isn't there counts as the number 0. Takes no memory.
pub fn compare(left: Option<&Value>, right: Option<&Value>) -> Ordering
    ensures { result ≡ value_cmp (held left.entry) (held right.entry) }
{
    let zero = Value::Int(0);
    left.unwrap_or(&zero).cmp(right.unwrap_or(&zero))
}

fn is_met(tuple: &[&Row], condition: &Condition) -> bool
    ensures { result ≡ meets (rows_lent tuple.now) condition.now }
{
    match condition {
        Condition::Const { left, op, value } => {
            op.admits(compare(value_at(tuple, *left), Some(value)))
        }
        Condition::Same { left, right } => {
            compare(value_at(tuple, *left), value_at(tuple, *right)).is_eq()
        }
    }
}

/// Whether the tuple meets all conditions. Takes no memory.
pub fn meets_all(conds: &[Condition], tuple: &[&Row]) -> bool
    ensures { result ≡ meets_all conds.now (rows_lent tuple.now) }
{
    conds.iter().all(|condition| is_met(tuple, condition))
}

/// Whether the row meets the condition, where this compares one of the part's columns with a constant.
fn meets_own(condition: &Condition, part: usize, row: &Row) -> bool
    ensures { result ≡ may_join (condition.now ∷ []) part row.now }
{
    match condition {
        Condition::Const { left, op, value } => {
            left.part as usize != part
                || op.admits(compare(value_in(row, left.column), Some(value)))
        }
        Condition::Same { .. } => true,
    }
}

fn each_lets_join(conds: &[Condition], part: usize, row: &Row) -> bool
    ensures { result ≡ list_all (λ c. may_join (c ∷ []) part row.now) conds.now }
{
    conds
        .iter()
        .all(|condition| meets_own(condition, part, row))
}

/// Whether the row may stand in the part of a tuple that meets the conditions, as far as they
/// compare one of the part's columns with a constant. Takes no memory.
pub fn may_join(conds: &[Condition], part: usize, row: &Row) -> bool
    ensures { result ≡ may_join conds.now part row.now }
{
    each_lets_join(conds, part, row)
}

/// A copy of the value, or the number 0 where it isn't there.
pub fn copy_value(value: Option<&Value>) -> Result<Value, NoMemory>
    ensures { IfOk result (λ copy. copy ≡ held value.entry) }
{
    match value {
        Some(value) => Ok(value.copy()?),
        None => Ok(Value::Int(0)),
    }
}

/// The listed columns of the tuple.
pub fn project(alloc: Global, out: &[Ref], tuple: &[&Row]) -> Result<AnswerRow, NoMemory>
    ensures { IfOk result (λ row. row ≡ map (value_at (rows_lent tuple.now)) out.now) }
{
    let mut values = Vec::with_capacity(alloc, out.len())?;
    'columns: for at in out {
        values.push(copy_value(value_at(tuple, *at))?)?;
    }
    Ok(AnswerRow::from_vec(values))
}
