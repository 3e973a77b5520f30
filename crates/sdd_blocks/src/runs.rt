ghost use Rattle.std.specs.Prelude.{◌≡◌, ◌+◌, ◌<◌, ◌≤◌, ◌^◌, IfOk, IsTrue, All, length, map, slice_index_or};
ghost use Rattle.sdd_blocks.specs.Runs.{edges_in};

use sdd_base::NoMemory;
use std::alloc::Global;

/// Edges with the same ends, one after the other.
#[derive(Clone, Copy)]
pub(crate) struct Run {
    pub(crate) ends: (u32, u32),
    pub(crate) count: u32,
}

/// Whether the next edge has the same ends, the same way round.
fn is_repeated(edges: &[(u32, u32)], place: usize) -> bool
    requires { place < length edges.now }
    ensures within { IsTrue result → place + 1 < length edges.now }
    ensures same { IsTrue result
        → slice_index_or edges.now (place + 1) (0, 0) ≡ slice_index_or edges.now place (0, 0) }
{
    if place + 1 >= edges.len() {
        return false;
    }
    let (a, b) = edges[place];
    let (c, d) = edges[place + 1];
    a == c && b == d
}

/// The edges, as runs.
pub(crate) fn runs_of(alloc: Global, edges: &[(u32, u32)]) -> Result<Vec<Run>, NoMemory>
    requires { length edges.now < 2 ^ 32 }
    ensures edges { IfOk result (λ runs. edges_in runs.items ≡ edges.now) }
    ensures some { IfOk result (λ runs. All (λ r. 1 ≤ r.count) runs.items) }
{
    let mut runs = Vec::new(alloc);
    let mut count = 0;
    for place in 0..edges.len() {
        count += 1;
        if !is_repeated(edges, place) {
            runs.push(Run {
                ends: edges[place],
                count,
            })?;
            count = 0;
        }
    }
    Ok(runs)
}

/// The ends of each run.
pub(crate) fn ends_of(alloc: Global, runs: &[Run]) -> Result<Vec<(u32, u32)>, NoMemory>
    ensures { IfOk result (λ ends. ends.items ≡ map (λ r. r.ends) runs.now) }
{
    Ok(runs.iter().map(|run| run.ends).collect(alloc)?)
}
