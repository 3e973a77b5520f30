ghost use Rattle.std.specs.Prelude.{◌≡◌, ◌<◌, ◌≤◌, ◌^◌, ◌∷◌, ◌++◌, [], ℕ, IfOk, OnOk, All, length, map, slice_index_or, slice_set};
ghost use Rattle.sdd_blocks.specs.Components.{AreComponents};
ghost use Rattle.sdd_blocks.specs.Neighbours.{other_end, TieAt, TieNeighbours};
ghost use Rattle.sdd_blocks.specs.Runs.{edges_in};

use crate::components::components;
use crate::runs::{Run, ends_of, runs_of};
use sdd_base::NoMemory;
use std::alloc::Global;

/// The end of the edge other than the node, unless the edge is a loop or not at the node.
fn other_end(edge: (u32, u32), node: u32) -> Option<u32>
    ensures { result ≡ other_end edge node }
{
    if edge.0 == edge.1 {
        None
    } else if edge.0 == node {
        Some(edge.1)
    } else if edge.1 == node {
        Some(edge.0)
    } else {
        None
    }
}

/// Pairs the edge with the first one of its label, or makes it the first.
fn tie(
    first: &mut Vec<Option<u32>>,
    label: u32,
    edge: u32,
    pairs: &mut Vec<(u32, u32)>,
) -> Result<(), NoMemory>
    requires { label < length first.old.items }
    ensures none { OnOk result (
        slice_index_or first.old.items label None ≡ None
        → (first.new.items ≡ slice_set first.old.items label (Some edge))
        × (pairs.new.items ≡ pairs.old.items)) }
    ensures some { OnOk result (
        (earlier : ℕ) → slice_index_or first.old.items label None ≡ Some earlier
        → (first.new.items ≡ first.old.items)
        × (pairs.new.items ≡ pairs.old.items ++ (edge, earlier) ∷ [])) }
{
    match first[label as usize] {
        Some(earlier) => pairs.push((edge, earlier))?,
        None => first[label as usize] = Some(edge),
    }
    Ok(())
}

/// Ties the edges at the node whose other ends have one label, each to the first of them.
fn tie_at(
    alloc: Global,
    runs: &[Run],
    node: u32,
    labels: &[u32],
    pairs: &mut Vec<(u32, u32)>,
) -> Result<(), NoMemory>
    requires few { length (edges_in runs.now) < 2 ^ 32 }
    requires ends { All (λ e. (e.0 < length labels.now) × (e.1 < length labels.now)) (edges_in runs.now) }
    requires components { AreComponents (edges_in runs.now) node labels.now }
    ensures { OnOk result (TieAt (edges_in runs.now) node pairs.old.items pairs.new.items) }
{
    let mut first = vec![in alloc; None; labels.len()]?;
    let mut from = 0;
    for run in runs {
        let past = from + run.count;
        if let Some(end) = other_end(run.ends, node) {
            for edge in from..past {
                tie(&mut first, labels[end as usize], edge, pairs)?;
            }
        }
        from = past;
    }
    Ok(())
}

/// Pairs that tie the neighbours among the edges of the runs.
fn pairs_of_runs(
    alloc: Global,
    runs: &[Run],
    ends: &[(u32, u32)],
    nodes: u32,
) -> Result<Vec<(u32, u32)>, NoMemory>
    requires few { length (edges_in runs.now) < 2 ^ 32 }
    requires some { All (λ r. 1 ≤ r.count) runs.now }
    requires each { ends.now ≡ map (λ r. r.ends) runs.now }
    requires ends { All (λ e. (e.0 < nodes) × (e.1 < nodes)) (edges_in runs.now) }
    ensures { IfOk result (λ pairs. TieNeighbours (edges_in runs.now) pairs.items) }
{
    let mut pairs = Vec::new(alloc);
    for node in 0..nodes {
        let labels = components(alloc, ends, nodes, node)?;
        tie_at(alloc, runs, node, &labels, &mut pairs)?;
    }
    Ok(pairs)
}

/// Pairs that tie all neighbours together: edges that meet at a node, and whose other ends are joined
/// without it.
pub(crate) fn neighbour_pairs(
    alloc: Global,
    edges: &[(u32, u32)],
    nodes: u32,
) -> Result<Vec<(u32, u32)>, NoMemory>
    requires few { length edges.now < 2 ^ 32 }
    requires ends { All (λ e. (e.0 < nodes) × (e.1 < nodes)) edges.now }
    ensures { IfOk result (λ pairs. TieNeighbours edges.now pairs.items) }
{
    let runs = runs_of(alloc, edges)?;
    let ends = ends_of(alloc, &runs)?;
    let pairs = pairs_of_runs(alloc, &runs, &ends, nodes)?;
    Ok(pairs)
}
