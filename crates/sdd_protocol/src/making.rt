ghost use Rattle.std.specs.Prelude.{◌≡◌, ◌≤◌, ◌^◌, length, map, All, IfOk};
ghost use Rattle.sdd_blocks.specs.Blocks.{AreBlocks};
ghost use Rattle.sdd_graph.specs.Edges.{NamesClasses, JoinsNodes};
ghost use Rattle.sdd_graph.specs.Graph.{ends};
ghost use Rattle.sdd_protocol.specs.Protocols.{IsTable};

use crate::diagonal_index::DiagonalIndex;
use crate::entries::entries;
use crate::protocol_table::Table;
use sdd_base::{MAX_CLASSES, NoMemory};
use sdd_blocks::{MAX_EDGES, blocks};
use sdd_catalog::Catalogue;
use sdd_graph::{Edge, conflict_graph, ends};
use std::alloc::Global;

/// The protocol table of the catalogue: the edges of its conflict graph in their order, each with its
/// block and its protocol.
///
/// Costs what the conflict graph and its blocks do, of which most is `4 * classes` passes over the pairs
/// of nodes that edges join, and memory for a few numbers for each edge and for each two classes.
pub fn table(alloc: Global, catalogue: &Catalogue) -> Result<Table, NoMemory>
    ensures { IfOk result (λ table. IsTable catalogue.now table) }
{
    catalogue.law_is_sound();
    let edges = conflict_graph(alloc, catalogue)?;
    let numbers = block_numbers(alloc, &edges, catalogue.classes())?;
    let entries = entries(alloc, &edges, &numbers)?;
    let index = DiagonalIndex::of(alloc, &entries, catalogue.classes() + 1)?;
    Ok(Table::new(alloc, entries, index))
}

/// The block number of each edge of the graph of so many classes.
fn block_numbers(alloc: Global, edges: &[Edge], classes: u32) -> Result<Vec<u32>, NoMemory>
    requires few { length edges.now ≤ MAX_EDGES }
    requires classes { classes ≤ MAX_CLASSES }
    requires named { All NamesClasses edges.now }
    requires nodes { All (JoinsNodes classes) edges.now }
    ensures { IfOk result (λ numbers. AreBlocks (map ends edges.now) numbers.items) }
{
    let nodes = all_ends(alloc, edges)?;
    blocks(alloc, &nodes, 2 * classes)
}

fn all_ends(alloc: Global, edges: &[Edge]) -> Result<Vec<(u32, u32)>, NoMemory>
    requires { All NamesClasses edges.now }
    ensures { IfOk result (λ nodes. nodes.items ≡ map ends edges.now) }
{
    Ok(edges.iter().map(|edge| ends(edge)).collect(alloc)?)
}
