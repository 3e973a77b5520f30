ghost use Rattle.std.specs.Prelude.{◌≡◌, ◌^◌, ◌<◌, ◌++◌, ◌∷◌, [], length, map, filter, All, Contains, IfOk, OnOk};
ghost use Rattle.sdd_graph.specs.Graph.{ends};
ghost use Rattle.sdd_protocol.specs.declared.protocol.Protocol.TheVariants.{P1, P2, P3};
ghost use Rattle.sdd_advise.specs.Advices.{AreAdvices, ShowsFor, advice_of, is_diagonal};
ghost use Rattle.sdd_advise.specs.Pairs.{IsClosed, IsLink, IsSoundLast, LieApart};
ghost use Rattle.sdd_advise.specs.Readers.{IsReadOf};
ghost use Rattle.sdd_advise.specs.Searches.{placed_nodes};

use crate::advice::Advice;
use crate::graph::Graph;
use crate::pair::{Link, Pair};
use crate::search::Search;
use crate::without::Without;
use sdd_base::{ClassNo, Listed, NoMemory};
use sdd_catalog::Catalogue;
use sdd_graph::{Edge, ends};
use sdd_protocol::Protocol;
use std::alloc::Global;

/// Good advice for each diagonal of the catalogue's conflict graph, in their order. Of several cycles
/// any may be given.
///
/// Costs one pass over the edges of the graph for each of its nodes, at most one search of it for each
/// pair of a reader and a writer, and at most one for each diagonal whose protocol isn't P3. A search is
/// linear in the edges and nodes, and ends as soon as it has what it looks for: at its first node, where
/// the pair has another diagonal.
pub fn advise(alloc: Global, catalogue: &Catalogue) -> Result<Vec<Advice>, NoMemory>
    ensures { IfOk result (λ advices. AreAdvices catalogue.now advices.items) }
{
    let graph = Graph::of(alloc, catalogue)?;
    advices_of(alloc, &graph)
}

/// The advices for all diagonals of the graph.
fn advices_of(alloc: Global, graph: &Graph) -> Result<Vec<Advice>, NoMemory>
    ensures edges { IfOk result (λ advices.
        map (λ a. a.edge) advices.items ≡ filter is_diagonal graph.now.edges) }
    ensures good { IfOk result (λ advices. All (λ a. ShowsFor graph.now.edges a a.edge) advices.items) }
{
    let mut advices = Vec::new(alloc);
    let mut last = None;
    'edges: for edge in graph.edges() {
        last = add_advice(alloc, graph, edge, last, &mut advices)?;
    }
    Ok(advices)
}

/// Adds the advice for the edge, where it is a diagonal. Takes and gives the last pair of reader and
/// writer: the diagonals of a pair stand one after the other.
fn add_advice(
    alloc: Global,
    graph: &Graph,
    edge: &Edge,
    last: Option<Pair>,
    advices: &mut Vec<Advice>,
) -> Result<Option<Pair>, NoMemory>
    requires there { Contains graph.now.edges edge.now }
    requires last { IsSoundLast graph.now.edges last }
    ensures last { IfOk result (IsSoundLast graph.now.edges) }
    ensures edges { OnOk result (
        map (λ a. a.edge) advices.new.items
        ≡ map (λ a. a.edge) advices.old.items ++ filter is_diagonal (edge.now ∷ [])) }
    ensures good { OnOk result (
        All (λ a. ShowsFor graph.now.edges a a.edge) advices.old.items
        → All (λ a. ShowsFor graph.now.edges a a.edge) advices.new.items) }
{
    if let Edge::Diagonal(reader, _, _) = edge {
        let pair = Pair::of(alloc, graph, edge, *reader, last)?;
        advices.push(advice_for(alloc, graph, edge, *reader, &pair.link)?)?;
        return Ok(Some(pair));
    }
    Ok(last)
}

/// The advice for a diagonal of the reader, by what links the two.
fn advice_for(
    alloc: Global,
    graph: &Graph,
    edge: &Edge,
    reader: ClassNo,
    link: &Link,
) -> Result<Advice, NoMemory>
    requires reader { IsReadOf reader edge.now }
    requires there { Contains graph.now.edges edge.now }
    requires link { IsLink graph.now.edges reader (ends edge.now).1 link.now }
    ensures edge { IfOk result (λ advice. advice.edge ≡ edge.now) }
    ensures shown { IfOk result (λ advice. ShowsFor graph.now.edges advice edge.now) }
{
    match link {
        Link::Linked(way) => advice_linked(alloc, graph, edge, reader, way),
        Link::Apart(apart) => advice_apart(alloc, graph, edge, reader, apart),
    }
}

/// The advice for a diagonal of the reader, linked with its vertical edge by the way.
fn advice_linked(
    alloc: Global,
    graph: &Graph,
    edge: &Edge,
    reader: ClassNo,
    way: &[Edge],
) -> Result<Advice, NoMemory>
    requires reader { IsReadOf reader edge.now }
    requires there { Contains graph.now.edges edge.now }
    requires way { IsClosed graph.now.edges reader (ends edge.now).1 way.now }
    ensures edge { IfOk result (λ advice. advice.edge ≡ edge.now) }
    ensures shown { IfOk result (λ advice. ShowsFor graph.now.edges advice edge.now) }
{
    graph.law_is_sound();
    advice_by_way(alloc, edge, way)
}

/// The advice for a diagonal of the reader, from whose vertical edge these nodes lie apart.
fn advice_apart(
    alloc: Global,
    graph: &Graph,
    edge: &Edge,
    reader: ClassNo,
    apart: &[u32],
) -> Result<Advice, NoMemory>
    requires reader { IsReadOf reader edge.now }
    requires there { Contains graph.now.edges edge.now }
    requires apart { LieApart graph.now.edges reader (ends edge.now).1 apart.now }
    ensures edge { IfOk result (λ advice. advice.edge ≡ edge.now) }
    ensures shown { IfOk result (λ advice. ShowsFor graph.now.edges advice edge.now) }
{
    graph.law_is_sound();
    let (read, write) = ends(edge);
    let around = Search::until(alloc, graph, write, &Without::OneEdge(*edge), read)?;
    match around.place(read) {
        None => advice_off_cycles(alloc, edge, &around),
        Some(place) => {
            let way = around.way_to(alloc, place)?;
            advice_beside(alloc, edge, &way, apart)
        }
    }
}

/// The advice for a diagonal on no cycle: without it a search has not reached the reader's read node.
fn advice_off_cycles(alloc: Global, edge: &Edge, around: &Search) -> Result<Advice, NoMemory>
    requires { length around.now.places.items < 2 ^ 32 }
    ensures { IfOk result (λ advice.
        advice ≡ advice_of edge.now P1 [] (placed_nodes around.now.places.items)) }
{
    let apart = around.nodes(alloc)?;
    Ok(Advice {
        edge: *edge,
        protocol: Protocol::P1,
        cycle: Listed::from_vec(Vec::new(alloc)),
        apart: Listed::from_vec(apart),
    })
}

/// The advice for a diagonal that no chain of cycles links with the reader's vertical edge.
fn advice_beside(
    alloc: Global,
    edge: &Edge,
    way: &[Edge],
    apart: &[u32],
) -> Result<Advice, NoMemory>
    ensures { IfOk result (λ advice.
        advice ≡ advice_of edge.now P2 (edge.now ∷ way.now) apart.now) }
{
    let cycle = cycle_of(alloc, edge, way)?;
    let mut nodes = Vec::new(alloc);
    nodes.extend_from_slice(apart)?;
    Ok(Advice {
        edge: *edge,
        protocol: Protocol::P2,
        cycle: Listed::from_vec(cycle),
        apart: Listed::from_vec(nodes),
    })
}

/// The advice for a diagonal on a cycle with the reader's vertical edge, with which the way ends.
fn advice_by_way(alloc: Global, edge: &Edge, way: &[Edge]) -> Result<Advice, NoMemory>
    ensures { IfOk result (λ advice. advice ≡ advice_of edge.now P3 (edge.now ∷ way.now) []) }
{
    let cycle = cycle_of(alloc, edge, way)?;
    Ok(Advice {
        edge: *edge,
        protocol: Protocol::P3,
        cycle: Listed::from_vec(cycle),
        apart: Listed::from_vec(Vec::new(alloc)),
    })
}

/// The edge, and then the way.
fn cycle_of(alloc: Global, edge: &Edge, way: &[Edge]) -> Result<Vec<Edge>, NoMemory>
    ensures { IfOk result (λ cycle. cycle.items ≡ edge.now ∷ way.now) }
{
    let mut cycle = Vec::new(alloc);
    cycle.push(*edge)?;
    cycle.extend_from_slice(way)?;
    Ok(cycle)
}
