//! The blocks of graphs.
ghost use Rattle.std.specs.Prelude.{◌<◌, ◌↔◌, IsTrue, All};

use sdd_blocks::blocks;
use sdd_script::NoMemory;
use std::alloc::Global;

/// Two triangles, an edge between them, and one that is there twice.
pub fn two_blocks(alloc: Global) -> Result<bool, NoMemory> {
    let edges = [(0, 1), (1, 2), (2, 0), (2, 3), (3, 4), (3, 4)];
    let numbers = check_blocks(alloc, &edges, 5)?;
    Ok(numbers.as_slice() == [1, 1, 1, 0, 2, 2].as_slice())
}

/// The conflict graph of 64 classes that each read and write one fragment.
pub fn one_block(alloc: Global) -> Result<bool, NoMemory> {
    let edges = all_edges(alloc)?;
    let numbers = check_blocks(alloc, &edges, 128)?;
    Ok(numbers.len() == edges.len() && numbers.iter().all(|number| *number == 1))
}

fn all_edges(alloc: Global) -> Result<Vec<(u32, u32)>, NoMemory> {
    let mut edges = Vec::new(alloc);
    for class in 0..64u32 {
        edges = add_edges(edges, class)?;
    }
    Ok(edges)
}

/// The edges of a class: its own, those to the writes of later classes, and those from its read.
fn add_edges(edges: Vec<(u32, u32)>, class: u32) -> Result<Vec<(u32, u32)>, NoMemory> {
    let mut edges = edges;
    let write = class.saturating_add(64);
    edges.push((class, write))?;
    for other in 64..128u32 {
        if write < other {
            edges.push((write, other))?;
        }
        if write != other {
            edges.push((class, other))?;
        }
    }
    Ok(edges)
}

/// The numbers of the blocks, none where the edges are too many or have ends that aren't there.
fn check_blocks(alloc: Global, edges: &[(u32, u32)], nodes: u32) -> Result<Vec<u32>, NoMemory> {
    if edges.len() > 1 << 20 {
        return Ok(Vec::new(alloc));
    }
    if nodes > 4096 {
        return Ok(Vec::new(alloc));
    }
    if !are_within(edges, nodes) {
        return Ok(Vec::new(alloc));
    }
    blocks(alloc, edges, nodes)
}

fn are_within(edges: &[(u32, u32)], nodes: u32) -> bool
    ensures { IsTrue result ↔ All (λ e. (e.0 < nodes) × (e.1 < nodes)) edges.now }
{
    edges.iter().all(|edge| is_within(*edge, nodes))
}

fn is_within(edge: (u32, u32), nodes: u32) -> bool
    ensures { IsTrue result ↔ ((edge.0 < nodes) × (edge.1 < nodes)) }
{
    edge.0 < nodes && edge.1 < nodes
}
