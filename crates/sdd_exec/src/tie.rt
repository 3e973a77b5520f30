//! Equalities that tie a part to those that were taken before it.
ghost use Rattle.std.specs.Prelude.{◌≡◌, ◌-◌, IfOk};
ghost use Rattle.sdd_exec.specs.Choices as joins;

use crate::choice::value_at;
use crate::parts::Parts;
use sdd_lang::{Condition, Listed, NoMemory, Ref, Row, Value, copy_value, value_in};
use std::alloc::Global;

/// A column of a part that is to equal a column of a part that was taken before it.
#[derive(Clone, Copy)]
pub struct Tie {
    /// The column, counted from 1.
    pub column: u32,
    /// What the column must equal.
    pub to: Ref,
}

/// Values by which rows or choices are looked up. It is made to ask once, so it shares nothing.
pub type Key = Listed<Value>;

/// The part of a column, counted from 0.
pub fn part_of(column: Ref) -> usize
    ensures { result ≡ column.part - 1 }
{
    column.part.saturating_sub(1) as usize
}

/// The tie of a part by the equality of a column of it with one of a part that was taken.
fn tie_between(taken: &[usize], part: usize, column: Ref, to: Ref) -> Option<Tie>
    ensures { result ≡ joins.tie_between taken.now part column to }
{
    if part_of(column) != part {
        return None;
    }
    if !taken.contains(&part_of(to)) {
        return None;
    }
    Some(Tie {
        column: column.column,
        to,
    })
}

/// The tie of a part that a condition makes.
fn tie_of(taken: &[usize], part: usize, cond: &Condition) -> Option<Tie>
    ensures { result ≡ joins.tie_of taken.now part cond.now }
{
    match cond {
        Condition::Const { .. } => None,
        Condition::Same { left, right } => match tie_between(taken, part, *left, *right) {
            Some(tie) => Some(tie),
            None => tie_between(taken, part, *right, *left),
        },
    }
}

/// The ties of a part to those that were taken.
#[tactic(auto, using(crate::proofs::Steps::tie_steps))]
pub fn ties(
    alloc: Global,
    taken: &[usize],
    part: usize,
    conds: &[Condition],
) -> Result<Vec<Tie>, NoMemory>
    ensures { IfOk result (λ ties. ties.items ≡ joins.ties_of taken.now part conds.now) }
{
    let mut ties = Vec::new(alloc);
    for cond in conds {
        if let Some(tie) = tie_of(taken, part, cond) {
            ties.push(tie)?;
        }
    }
    Ok(ties)
}

/// The values of a row in the columns of its ties.
pub fn key_of(alloc: Global, ties: &[Tie], row: &Row) -> Result<Key, NoMemory>
    ensures { IfOk result (λ key. key ≡ joins.key_of ties.now row.now) }
{
    let mut key = Vec::with_capacity(alloc, ties.len())?;
    for tie in ties {
        key.push(copy_value(value_in(row, tie.column))?)?;
    }
    Ok(Key::from_vec(key))
}

/// The values which the ties demand where the other parts have the rows of a choice.
pub fn key_for(
    alloc: Global,
    ties: &[Tie],
    parts: &Parts,
    choice: &[usize],
) -> Result<Key, NoMemory>
    ensures { IfOk result (λ key. key ≡ joins.key_for ties.now (joins.picked parts.now choice.now)) }
{
    let mut key = Vec::with_capacity(alloc, ties.len())?;
    for tie in ties {
        key.push(copy_value(value_at(parts, choice, tie.to))?)?;
    }
    Ok(Key::from_vec(key))
}
