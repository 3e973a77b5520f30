ghost use Rattle.std.specs.Prelude.{◌≡◌, ◌-◌, ◌<◌, ◌↔◌, length, option_map, slice_get, All, Contains, Some, IfOk, IsTrue};
ghost use Rattle.sdd_blocks.specs.Graph.{Differ};
ghost use Rattle.sdd_graph.specs.Edges.{NamesClasses};
ghost use Rattle.sdd_advise.specs.Cycles.{IsCycleFrom};
ghost use Rattle.sdd_advise.specs.Walks.{nodes_along};

use crate::graph::{Graph, other_end};
use sdd_base::{NoMemory, is_same};
use sdd_graph::Edge;
use std::alloc::Global;

/// Whether the edges, walked in their order from the node on, form a simple cycle of the graph. Costs
/// one pass over the graph's edges for each edge of the cycle.
pub(crate) fn is_cycle_from(
    alloc: Global,
    graph: &Graph,
    start: u32,
    cycle: &[Edge],
) -> Result<bool, NoMemory>
    ensures { IfOk result (λ answer. IsTrue answer ↔ IsCycleFrom graph.now.edges start cycle.now) }
{
    graph.law_is_sound();
    if cycle.len() < 2 {
        return Ok(false);
    }
    if !has_all(graph, cycle) {
        return Ok(false);
    }
    // Two parallel edges form a cycle, one edge there and back does not.
    if is_same(&cycle[0], &cycle[1]) {
        return Ok(false);
    }
    match nodes_along(alloc, start, cycle)? {
        Some(nodes) => is_round(alloc, &nodes, start, graph.nodes()),
        None => Ok(false),
    }
}

/// Whether all edges are edges of the graph.
fn has_all(graph: &Graph, edges: &[Edge]) -> bool
    ensures { IsTrue result ↔ All (Contains graph.now.edges) edges.now }
{
    'edges: for edge in edges {
        if !graph.has(edge) {
            return false;
        }
    }
    true
}

/// The nodes to which the edges lead, one after the other, from the node on; none where one isn't at the
/// node that was reached.
fn nodes_along(alloc: Global, start: u32, edges: &[Edge]) -> Result<Option<Vec<u32>>, NoMemory>
    requires { All NamesClasses edges.now }
    ensures { IfOk result (λ nodes. option_map (λ v. v.items) nodes ≡ nodes_along start edges.now) }
{
    let mut nodes = Vec::new(alloc);
    let mut at = start;
    'edges: for edge in edges {
        match other_end(edge, at) {
            Some(next) => {
                nodes.push(next)?;
                at = next;
            }
            None => return Ok(None),
        }
    }
    Ok(Some(nodes))
}

/// Whether the last of the nodes is the start, and none is there twice.
fn is_round(alloc: Global, nodes: &[u32], start: u32, limit: u32) -> Result<bool, NoMemory>
    requires { All (λ node. node < limit) nodes.now }
    ensures { IfOk result (λ answer. IsTrue answer
        ↔ ((slice_get nodes.now (length nodes.now - 1) ≡ Some start) × Differ nodes.now)) }
{
    if !ends_at(nodes, start) {
        return Ok(false);
    }
    differ(alloc, nodes, limit)
}

/// Whether the node is the last of the nodes.
fn ends_at(nodes: &[u32], node: u32) -> bool
    ensures { IsTrue result ↔ (slice_get nodes.now (length nodes.now - 1) ≡ Some node) }
{
    match nodes.last() {
        Some(last) => *last == node,
        None => false,
    }
}

/// Whether no node is there twice. Costs time in the nodes and in the limit.
fn differ(alloc: Global, nodes: &[u32], limit: u32) -> Result<bool, NoMemory>
    requires { All (λ node. node < limit) nodes.now }
    ensures { IfOk result (λ answer. IsTrue answer ↔ Differ nodes.now) }
{
    let mut met = vec![in alloc; false; limit as usize]?;
    'nodes: for node in nodes {
        if met[*node as usize] {
            return Ok(false);
        }
        met[*node as usize] = true;
    }
    Ok(true)
}
