ghost use Rattle.std.specs.Prelude.{ℕ, ◌≡◌, ◌<◌, ◌≤◌, length, fold, IfOk, OnOk, All};
ghost use Rattle.sdd_links.specs.Groups.{groups};
ghost use Rattle.sdd_links.specs.Taking.{Links, order_of, released, link_counts, first_ready, taking};

use crate::groups::Groups;
use sdd_lang::NoMemory;
use std::alloc::Global;
use std::collections::BTreeSet;

/// The nodes from 0 on, so many of them, in the order in which they are taken: again and again the
/// least one to which no link leads from a node that is left. It ends where there is none.
///
/// O((n + l) log n) for n nodes and l links.
pub fn order_of(
    alloc: Global,
    links: &[(usize, usize)],
    count: usize,
) -> Result<Vec<usize>, NoMemory>
    requires ends { All (λ l. (l.0 < count) × (l.1 < count)) links.now }
    ensures { IfOk result (λ order. order.items ≡ order_of links.now count) }
{
    let after = Groups::of(alloc, links, count)?;
    let counts = link_counts(alloc, links, count)?;
    let ready = first_ready(alloc, &counts)?;
    take_nodes(alloc, &after, counts, ready)
}

/// Of each node the number of links that lead to it.
fn link_counts(
    alloc: Global,
    links: &[(usize, usize)],
    count: usize,
) -> Result<Vec<usize>, NoMemory>
    requires ends { All (λ l. (l.0 < count) × (l.1 < count)) links.now }
    ensures { IfOk result (λ counts. counts.items ≡ link_counts links.now count) }
{
    let mut counts = vec![in alloc; 0; count]?;
    for (_, to) in links {
        counts[*to] += 1;
    }
    Ok(counts)
}

/// The nodes to which no link leads.
#[tactic(auto, using(crate::proofs::Steps::first_here, crate::proofs::Steps::first_other))]
fn first_ready(alloc: Global, counts: &[usize]) -> Result<BTreeSet<usize>, NoMemory>
    ensures { IfOk result (λ ready. ready.keys ≡ first_ready counts.now (length counts.now)) }
{
    let mut ready = BTreeSet::new(alloc);
    for node in 0..counts.len() {
        if counts[node] == 0 {
            ready.insert(node)?;
        }
    }
    Ok(ready)
}

/// Takes one node after the other, and releases those to which its links lead.
fn take_nodes(
    alloc: Global,
    after: &Groups,
    counts: Vec<usize>,
    ready: BTreeSet<usize>,
) -> Result<Vec<usize>, NoMemory>
    requires nodes { All (λ i. i < length after.now) ready.keys }
    requires targets { All (All (λ i. i < length after.now)) after.now }
    requires same { length counts.items ≡ length after.now }
    ensures { IfOk result (λ order. order.items ≡ taking after.now (length after.now) counts.items ready.keys) }
{
    let mut counts = counts;
    let mut ready = ready;
    let mut order = Vec::new(alloc);
    for _ in 0..after.len() {
        match ready.pop_first() {
            None => return Ok(order),
            Some(node) => {
                order.push(node)?;
                release(&mut counts, &mut ready, after.get(node))?;
            }
        }
    }
    Ok(order)
}

/// One link less leads to each of these nodes, and those to which none leads any more are ready.
fn release(
    counts: &mut Vec<usize>,
    ready: &mut BTreeSet<usize>,
    targets: &[usize],
) -> Result<(), NoMemory>
    requires { All (λ i. i < length counts.old.items) targets.now }
    ensures front { OnOk result ((counts.new.items, ready.new.keys) ≡ fold released (counts.old.items, ready.old.keys) targets.now) }
    ensures same { OnOk result (length counts.new.items ≡ length counts.old.items) }
{
    for target in targets {
        release_one(counts, ready, *target)?;
    }
    Ok(())
}

fn release_one(
    counts: &mut Vec<usize>,
    ready: &mut BTreeSet<usize>,
    target: usize,
) -> Result<(), NoMemory>
    requires { target < length counts.old.items }
    ensures { OnOk result ((counts.new.items, ready.new.keys) ≡ released (counts.old.items, ready.old.keys) target) }
{
    let count = counts[target];
    counts[target] = count.saturating_sub(1);
    if count == 1 {
        ready.insert(target)?;
    }
    Ok(())
}
