//! The order in which a join by sieves takes the parts.
ghost use Rattle.std.specs.Prelude.{◌≡◌, ◌<◌, ◌++◌, ◌∷◌, [], IfOk};

use crate::links::{links, outs};
use crate::tie::ties;
use sdd_lang::{Condition, NoMemory, Ref};
use std::alloc::Global;

/// The parts that were taken, and one more.
pub fn with_part(alloc: Global, taken: &[usize], part: usize) -> Result<Vec<usize>, NoMemory>
    ensures { IfOk result (λ group. group.items ≡ taken.now ++ part ∷ []) }
{
    let mut group = Vec::new(alloc);
    group.extend_from_slice(taken)?;
    group.push(part)?;
    Ok(group)
}

/// What taking a part next costs: first whether it is untied, then how many linked columns there are
/// then, then how many listed ones.
#[derive(Clone, Copy)]
struct Cost {
    untied: bool,
    links: usize,
    outs: usize,
}

/// What taking a part next costs.
fn cost_of(
    alloc: Global,
    taken: &[usize],
    part: usize,
    conds: &[Condition],
    out: &[Ref],
) -> Result<Cost, NoMemory> {
    let group = with_part(alloc, taken, part)?;
    Ok(Cost {
        untied: ties(alloc, taken, part, conds)?.is_empty(),
        links: links(alloc, &group, conds)?.len(),
        outs: outs(alloc, &group, out)?.len(),
    })
}

/// Whether one cost is below another.
fn is_below(a: Cost, b: Cost) -> bool {
    if a.untied != b.untied {
        return b.untied;
    }
    if a.links != b.links {
        return a.links < b.links;
    }
    a.outs < b.outs
}

/// The one of two parts that is joined next: one that isn't joined yet, and of such two the cheaper.
fn better(
    alloc: Global,
    parts: usize,
    taken: &[usize],
    conds: &[Condition],
    out: &[Ref],
    a: usize,
    b: usize,
) -> Result<usize, NoMemory>
    requires first { a < parts }
    requires second { b < parts }
    ensures { IfOk result (λ part. part < parts) }
{
    if taken.contains(&b) {
        return Ok(a);
    }
    if taken.contains(&a) {
        return Ok(b);
    }
    let other = cost_of(alloc, taken, b, conds, out)?;
    if is_below(other, cost_of(alloc, taken, a, conds, out)?) {
        return Ok(b);
    }
    Ok(a)
}

/// The part that is to be taken next: tied before untied, then with the fewest linked columns of what
/// is taken then, then with the fewest listed ones.
pub fn best_part(
    alloc: Global,
    parts: usize,
    taken: &[usize],
    conds: &[Condition],
    out: &[Ref],
) -> Result<usize, NoMemory>
    requires { 0 < parts }
    ensures { IfOk result (λ part. part < parts) }
{
    let mut best = 0;
    for part in 0..parts {
        best = better(alloc, parts, taken, conds, out, best, part)?;
    }
    Ok(best)
}
