ghost use Rattle.std.specs.Prelude.{◌<◌, ◌↔◌, Contains, IfOk, IsTrue};
ghost use Rattle.sdd_advise.specs.Advices.{BeginsWith, EndsWith, IsGood, ShowsP1, ShowsP2, ShowsP3, ShowsFor};
ghost use Rattle.sdd_advise.specs.Passing.{Passes};
ghost use Rattle.sdd_advise.specs.Reach.{AreReached};
ghost use Rattle.sdd_advise.specs.Readers.{IsReadOf};

use crate::advice::{Advice, Nodes};
use crate::cycle::is_cycle_from;
use crate::graph::{Graph, write_node};
use crate::search::Search;
use crate::without::Without;
use sdd_base::{ClassNo, Listed, NoMemory, is_same};
use sdd_catalog::Catalogue;
use sdd_graph::{Edge, ends};
use sdd_protocol::Protocol;
use std::alloc::Global;

/// Whether the edge of the advice is a diagonal of the catalogue's conflict graph, and the advice a good
/// one for it. Anything may be asked, also of edges and nodes that aren't there.
///
/// Costs one pass over the edges of the graph for each of its nodes, and for each edge of the cycle.
pub fn check_advice(alloc: Global, catalogue: &Catalogue, advice: &Advice) -> Result<bool, NoMemory>
    ensures { IfOk result (λ answer. IsTrue answer ↔ IsGood catalogue.now advice.now) }
{
    let graph = Graph::of(alloc, catalogue)?;
    if !graph.has(&advice.edge) {
        return Ok(false);
    }
    match advice.edge {
        Edge::Diagonal(reader, _, _) => shows_protocol(alloc, &graph, reader, advice),
        Edge::Vertical(_) | Edge::Horizontal(_, _) => Ok(false),
    }
}

/// Whether the advice shows that its edge, a diagonal of the reader, has the advice's protocol.
fn shows_protocol(
    alloc: Global,
    graph: &Graph,
    reader: ClassNo,
    advice: &Advice,
) -> Result<bool, NoMemory>
    requires reader { IsReadOf reader advice.now.edge }
    requires there { Contains graph.now.edges advice.now.edge }
    ensures { IfOk result (λ answer.
        IsTrue answer ↔ ShowsFor graph.now.edges advice.now advice.now.edge) }
{
    graph.law_is_sound();
    let (read, write) = ends(&advice.edge);
    let vertical = Edge::Vertical(reader);
    let own = write_node(reader);
    match advice.protocol {
        Protocol::P1 => shows_p1(alloc, graph, read, write, advice),
        Protocol::P2 => shows_p2(alloc, graph, read, write, own, advice),
        Protocol::P3 => shows_p3(alloc, graph, &vertical, read, advice),
    }
}

/// Whether it shows that the diagonal is on no cycle.
fn shows_p1(
    alloc: Global,
    graph: &Graph,
    read: u32,
    write: u32,
    advice: &Advice,
) -> Result<bool, NoMemory>
    requires read { read < graph.now.nodes }
    requires write { write < graph.now.nodes }
    ensures { IfOk result (λ answer.
        IsTrue answer ↔ ShowsP1 graph.now.edges advice.now.edge read write advice.now) }
{
    if !advice.cycle.as_slice().is_empty() {
        return Ok(false);
    }
    let without = Without::OneEdge(advice.edge);
    lies_apart(alloc, graph, write, &without, &advice.apart, read)
}

/// Whether it shows that the diagonal is on a cycle, but not linked with the reader's vertical edge.
fn shows_p2(
    alloc: Global,
    graph: &Graph,
    read: u32,
    write: u32,
    own: u32,
    advice: &Advice,
) -> Result<bool, NoMemory>
    requires write { write < graph.now.nodes }
    requires own { own < graph.now.nodes }
    ensures { IfOk result (λ answer.
        IsTrue answer ↔ ShowsP2 graph.now.edges advice.now.edge read write own advice.now) }
{
    let cycle = advice.cycle.as_slice();
    if !begins_with(cycle, &advice.edge) {
        return Ok(false);
    }
    if !is_cycle_from(alloc, graph, read, cycle)? {
        return Ok(false);
    }
    let without = Without::OneNode(read);
    lies_apart(alloc, graph, write, &without, &advice.apart, own)
}

/// Whether it shows that the diagonal is on a cycle with the reader's vertical edge.
fn shows_p3(
    alloc: Global,
    graph: &Graph,
    vertical: &Edge,
    read: u32,
    advice: &Advice,
) -> Result<bool, NoMemory>
    ensures { IfOk result (λ answer.
        IsTrue answer ↔ ShowsP3 graph.now.edges advice.now.edge vertical.now read advice.now) }
{
    let cycle = advice.cycle.as_slice();
    if !begins_with(cycle, &advice.edge) {
        return Ok(false);
    }
    if !ends_with(cycle, vertical) {
        return Ok(false);
    }
    if !advice.apart.as_slice().is_empty() {
        return Ok(false);
    }
    is_cycle_from(alloc, graph, read, cycle)
}

/// Whether these are all nodes that a search from the start reaches, and the node isn't one of them.
fn lies_apart(
    alloc: Global,
    graph: &Graph,
    start: u32,
    without: &Without,
    nodes: &Nodes,
    node: u32,
) -> Result<bool, NoMemory>
    requires start { start < graph.now.nodes }
    requires node { node < graph.now.nodes }
    ensures { IfOk result (λ answer. IsTrue answer
        ↔ (AreReached graph.now.edges (Passes without.now) start nodes.now × ¬ Contains nodes.now node)) }
{
    let search = Search::of(alloc, graph, start, without)?;
    if search.place(node).is_some() {
        return Ok(false);
    }
    let reached = search.nodes(alloc)?;
    Ok(is_same(nodes, &Listed::from_vec(reached)))
}

/// Whether the cycle begins with the edge.
fn begins_with(cycle: &[Edge], edge: &Edge) -> bool
    ensures { IsTrue result ↔ BeginsWith edge.now cycle.now }
{
    match cycle.first() {
        Some(first) => is_same(first, edge),
        None => false,
    }
}

/// Whether the cycle ends with the edge.
fn ends_with(cycle: &[Edge], edge: &Edge) -> bool
    ensures { IsTrue result ↔ EndsWith edge.now cycle.now }
{
    match cycle.last() {
        Some(last) => is_same(last, edge),
        None => false,
    }
}
