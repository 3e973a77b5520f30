ghost use Rattle.std.specs.Prelude.{◌≡◌, length, All, IfOk};
ghost use Rattle.sdd_protocol.specs.Entries.{protocol_by, entry_by, HasVertical, AreEntries};
ghost use Rattle.sdd_protocol.specs.Protocols.{diagonal_protocol};

use crate::entry::Entry;
use crate::protocol::Protocol;
use sdd_base::NoMemory;
use sdd_graph::Edge;
use std::alloc::Global;

/// The entries of edges with their blocks, where the vertical edges come first. One pass.
pub(crate) fn entries(alloc: Global, edges: &[Edge], blocks: &[u32]) -> Result<Vec<Entry>, NoMemory>
    requires one_each { length blocks.now ≡ length edges.now }
    requires readers { All (HasVertical (length blocks.now)) edges.now }
    ensures { IfOk result (λ entries.
        AreEntries edges.now blocks.now (length edges.now) entries.items) }
{
    let mut entries = Vec::with_capacity(alloc, edges.len())?;
    for (k, edge) in edges.iter().enumerate() {
        entries.push(entry(*edge, blocks[k], blocks))?;
    }
    Ok(entries)
}

fn entry(edge: Edge, block: u32, blocks: &[u32]) -> Entry
    requires { HasVertical (length blocks.now) edge }
    ensures { result ≡ entry_by blocks.now edge block }
{
    Entry {
        edge,
        block,
        protocol: protocol(edge, block, blocks),
    }
}

fn protocol(edge: Edge, block: u32, blocks: &[u32]) -> Protocol
    requires { HasVertical (length blocks.now) edge }
    ensures { result ≡ protocol_by blocks.now edge block }
{
    match edge {
        Edge::Diagonal(reader, _, _) => diagonal_protocol(block, blocks[reader.0 as usize - 1]),
        Edge::Vertical(_) | Edge::Horizontal(_, _) => Protocol::P1,
    }
}

fn diagonal_protocol(block: u32, vertical: u32) -> Protocol
    ensures { result ≡ diagonal_protocol block vertical }
{
    match block {
        0 => Protocol::P1,
        _ if block == vertical => Protocol::P3,
        _ => Protocol::P2,
    }
}
