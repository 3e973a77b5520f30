//! Short runs with one inner transaction that may be like no serial one.
ghost use Rattle.std.specs.Prelude.{◌≡◌, IfOk, filter, take};
ghost use Rattle.std.specs.List.{list_any};
ghost use Rattle.sdd_robust.specs.Members.{lent};
ghost use Rattle.sdd_short_runs.specs.Pairs.{is_pair, miss_by};

use sdd_lang::NoMemory;
use sdd_robust::{Changes, Member, are_apart, may_miss, reads_from};
use sdd_robust_laws::Access;
use std::alloc::Global;

/// Whether the outer transaction may miss by this read a change of the inner one, which may then miss a
/// change of the outer one.
fn miss_by(outer: &Member, inner: &Member, read: &Access) -> bool
    ensures { result ≡ miss_by outer.now inner.now read.now }
{
    reads_from(read, inner.accesses.as_slice())
        && may_miss(inner.accesses.as_slice(), outer.accesses.as_slice(), read)
}

/// Whether each of the two may miss a change of the other one.
fn miss_each_other(outer: &Member, inner: &Member) -> bool
    ensures { result ≡ list_any (miss_by outer.now inner.now) outer.now.accesses }
{
    outer
        .accesses
        .as_slice()
        .iter()
        .any(|read| miss_by(outer, inner, read))
}

/// The same, where both may commit.
fn is_pair(outer: &Member, inner: &Member) -> bool
    ensures { result ≡ is_pair outer.now inner.now }
{
    miss_each_other(outer, inner)
        && !are_apart(outer.accesses.as_slice(), inner.accesses.as_slice())
}

/// Those that make a pair with the outer one, in their order, at most so many.
#[tactic(auto, using(crate::proofs::TriedPairs::inner_pushed, crate::proofs::TriedPairs::inner_left_out, crate::proofs::TriedPairs::inner_all))]
fn inner_of_pairs<'a>(
    alloc: Global,
    all: &'a [Member],
    outer: &Member,
    most: usize,
) -> Result<Vec<&'a Member>, NoMemory>
    ensures { IfOk result (λ found. lent found.items ≡ take most (filter (is_pair outer.now) all.now)) }
{
    let mut found = Vec::new(alloc);
    'members: for inner in all {
        if found.len() < most && is_pair(outer, inner) {
            found.push(inner)?;
        }
    }
    Ok(found)
}

/// The same. Costs less where the outer one can't miss a change, or none are asked for.
pub(crate) fn inner_around<'a>(
    alloc: Global,
    changes: &Changes,
    all: &'a [Member],
    outer: &Member,
    most: usize,
) -> Result<Vec<&'a Member>, NoMemory>
    requires { changes.now ≡ all.now }
    ensures { IfOk result (λ found. lent found.items ≡ take most (filter (is_pair outer.now) all.now)) }
{
    if most == 0 {
        return Ok(Vec::new(alloc));
    }
    if !changes.misses_one(outer.accesses.as_slice()) {
        return Ok(Vec::new(alloc));
    }
    inner_of_pairs(alloc, all, outer, most)
}
