//! The blocks of a multigraph: which edges simple cycles link.
//!
//! The one contract to the layer above is the list of block numbers, as `specs/Blocks.antt` defines it over
//! the walks and simple cycles of `specs/Graph.antt`. What holds of all such lists stands in
//! `specs/Laws.antt`.
#![tactic(auto)]

ghost use Rattle.std.specs.Prelude.{◌≡◌, ◌<◌, ◌≤◌, IfOk, All, length};
ghost use Rattle.sdd_blocks.specs.Blocks.{AreBlocks};

mod components;
mod forest;
mod law;
mod marks;
mod neighbours;
mod numbers;
mod runs;

use crate::components::components;
use crate::marks::marks;
use crate::neighbours::neighbour_pairs;
use crate::numbers::numbers;
pub use law::{law_closed_walks_are_cycles, law_one_number_a_cycle, law_one_numbering};
use sdd_base::NoMemory;
use std::alloc::Global;

/// The most edges of a graph.
pub const MAX_EDGES: usize = 1_048_576;

/// The most nodes of a graph.
pub const MAX_NODES: u32 = 4_096;

/// The block number of each edge of a multigraph, in the order of the edges.
///
/// A simple cycle is a closed walk of at least two different edges that meets no node twice: two
/// parallel edges form one, and a loop lies on none. Two edges have one number where a chain of simple
/// cycles, each sharing an edge with the next, leads from one to the other; an edge on no simple cycle
/// has the number 0. The blocks are numbered from 1, by their first edge. Nodes are numbers below
/// `nodes`.
///
/// The cost is `2 * nodes` passes over the edges, of a few steps for each edge (at worst the logarithm
/// of the number of nodes, on average over a pass), and memory for a few numbers for each edge and node.
/// In a pass, edges with the same ends that stand one after the other cost what one does.
pub fn blocks(alloc: Global, edges: &[(u32, u32)], nodes: u32) -> Result<Vec<u32>, NoMemory>
    requires ends { All (λ e. (e.0 < nodes) × (e.1 < nodes)) edges.now }
    requires few_edges { length edges.now ≤ MAX_EDGES }
    requires few_nodes { nodes ≤ MAX_NODES }
    ensures { IfOk result (λ blocks. AreBlocks edges.now blocks.items) }
{
    let count = edges.len() as u32;
    let pairs = neighbour_pairs(alloc, edges, nodes)?;
    let labels = components(alloc, &pairs, count, count)?;
    let marks = marks(alloc, &pairs, &labels)?;
    numbers(alloc, &marks, count + 1)
}
