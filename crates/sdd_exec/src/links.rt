//! What the other parts and the answer ask for of the parts that were taken.
ghost use Rattle.std.specs.Prelude.{◌≡◌, IfOk};
ghost use Rattle.sdd_exec.specs.Sifting as sift;

use crate::choice::value_at;
use crate::parts::Parts;
use crate::tie::part_of;
use sdd_lang::{Condition, Listed, NoMemory, Ref, Value, copy_value};
use std::alloc::Global;

/// Of two columns the one of a part that was taken, where the other isn't.
fn link_between(taken: &[usize], left: Ref, right: Ref) -> Option<Ref>
    ensures { result ≡ sift.link_between taken.now left right }
{
    if taken.contains(&part_of(left)) {
        if taken.contains(&part_of(right)) {
            return None;
        }
        return Some(left);
    }
    if taken.contains(&part_of(right)) {
        return Some(right);
    }
    None
}

/// The column of a part that was taken which a condition ties to one of another part.
fn link_of(taken: &[usize], cond: &Condition) -> Option<Ref>
    ensures { result ≡ sift.link_of taken.now cond.now }
{
    match cond {
        Condition::Const { .. } => None,
        Condition::Same { left, right } => link_between(taken, *left, *right),
    }
}

/// The columns of the parts that were taken which conditions tie to other parts.
#[tactic(auto, using(crate::proofs::Steps::tie_steps))]
pub fn links(alloc: Global, taken: &[usize], conds: &[Condition]) -> Result<Vec<Ref>, NoMemory>
    ensures { IfOk result (λ links. links.items ≡ sift.links_of taken.now conds.now) }
{
    let mut links = Vec::new(alloc);
    for cond in conds {
        if let Some(at) = link_of(taken, cond) {
            links.push(at)?;
        }
    }
    Ok(links)
}

/// A column, where it is one of a part that was taken.
fn out_in(taken: &[usize], at: Ref) -> Option<Ref>
    ensures { result ≡ sift.out_in taken.now at }
{
    if taken.contains(&part_of(at)) {
        return Some(at);
    }
    None
}

/// The listed columns of the parts that were taken.
#[tactic(auto, using(crate::proofs::Steps::tie_steps))]
pub fn outs(alloc: Global, taken: &[usize], out: &[Ref]) -> Result<Vec<Ref>, NoMemory>
    ensures { IfOk result (λ outs. outs.items ≡ sift.outs_of taken.now out.now) }
{
    let mut outs = Vec::new(alloc);
    for at in out {
        if let Some(at) = out_in(taken, *at) {
            outs.push(at)?;
        }
    }
    Ok(outs)
}

/// What a choice has in these columns.
pub fn values_of(
    alloc: Global,
    parts: &Parts,
    columns: &[Ref],
    choice: &[usize],
) -> Result<Listed<Value>, NoMemory>
    ensures { IfOk result (λ row. row ≡ sift.values_of parts.now columns.now choice.now) }
{
    let mut values = Vec::with_capacity(alloc, columns.len())?;
    for at in columns {
        values.push(copy_value(value_at(parts, choice, *at))?)?;
    }
    Ok(Listed::from_vec(values))
}
