ghost use Rattle.std.specs.Prelude.{◌≡◌, ◌<◌, ◌≤◌, ◌*◌, ◌↔◌, map, All, Contains, IfOk, IsTrue};
ghost use Rattle.std.specs.List.{range_with_len};
ghost use Rattle.sdd_graph.specs.Edges.{IsClassNo, NamesClasses};
ghost use Rattle.sdd_graph.specs.Graph.{ends, write_node};
ghost use Rattle.sdd_advise.specs.Neighbours.{ArePaired, HasEachOnce, HasVerticals, neighbour_by, neighbours, network_of, other_end};

use crate::neighbour::Neighbour;
use sdd_base::{ClassNo, Listed, NoMemory, is_same};
use sdd_catalog::Catalogue;
use sdd_graph::{Edge, conflict_graph, ends};
use std::alloc::Global;
use std::marker::Model;

/// A conflict graph, with the edges at each node laid out for quick answers.
#[derive(Drop)]
pub(crate) struct Graph {
    nodes: u32,
    edges: Vec<Edge>,
    neighbours: Vec<Listed<Neighbour>>,
}

impl Model for Graph {
    ghost use Rattle.std.specs.Prelude.{◌≤◌};
    ghost use Rattle.sdd_advise.specs.Neighbours as network;

    ghost Value = { network.Network };

    ghost view = { λ g. record { edges = g.edges.items; nodes = g.nodes } };

    ghost invariant = { λ g. network.IsLaidOut g.edges.items g.nodes g.neighbours.items };
}

impl Graph {
    /// The catalogue's conflict graph. Costs one pass over its edges for each node.
    pub(crate) fn of(alloc: Global, catalogue: &Catalogue) -> Result<Graph, NoMemory>
        ensures { IfOk result (λ graph. graph ≡ network_of catalogue.now) }
    {
        catalogue.law_is_sound();
        let edges = conflict_graph(alloc, catalogue)?;
        let nodes = 2 * catalogue.classes();
        let neighbours = all_neighbours(alloc, &edges, nodes)?;
        Ok(Graph {
            nodes,
            edges,
            neighbours,
        })
    }

    /// What is known of every graph. Takes no memory.
    pub(crate) fn law_is_sound(&self)
        ensures once { HasEachOnce self.now.edges }
        ensures verticals { HasVerticals self.now.edges }
        ensures paired { ArePaired self.now.nodes }
        ensures named { All NamesClasses self.now.edges }
        ensures within { All
            (λ e. ((ends e).0 < self.now.nodes) × ((ends e).1 < self.now.nodes)) self.now.edges }
    {
        let _ = &self.edges;
    }

    /// How many nodes there are.
    pub(crate) fn nodes(&self) -> u32
        ensures { result ≡ self.now.nodes }
    {
        self.nodes
    }

    /// The edges, in their order.
    pub(crate) fn edges(&self) -> &[Edge]
        ensures { result.now ≡ self.now.edges }
    {
        self.edges.as_slice()
    }

    /// The edges at the node, in their order, each with the node to which it leads.
    pub(crate) fn neighbours(&self, node: u32) -> &[Neighbour]
        requires { node < self.now.nodes }
        ensures list { result.now ≡ neighbours self.now.edges node }
        ensures named { All (λ n. NamesClasses n.edge) result.now }
        ensures within { All (λ n. n.node < self.now.nodes) result.now }
    {
        self.neighbours[node as usize].as_slice()
    }

    /// Whether the edge is one of the graph. Costs a pass over the edges.
    pub(crate) fn has(&self, edge: &Edge) -> bool
        ensures { IsTrue result ↔ Contains self.now.edges edge.now }
    {
        has_edge(&self.edges, edge)
    }
}

/// Whether the edge is one of the edges.
fn has_edge(edges: &[Edge], edge: &Edge) -> bool
    ensures { IsTrue result ↔ Contains edges.now edge.now }
{
    'others: for other in edges {
        if is_same(other, edge) {
            return true;
        }
    }
    false
}

/// For each node, ascending, the edges at it.
fn all_neighbours(
    alloc: Global,
    edges: &[Edge],
    nodes: u32,
) -> Result<Vec<Listed<Neighbour>>, NoMemory>
    requires { All NamesClasses edges.now }
    ensures { IfOk result (λ lists.
        lists.items ≡ map (neighbours edges.now) (range_with_len 0 nodes)) }
{
    let mut lists = Vec::new(alloc);
    'nodes: for node in 0..nodes {
        let list = neighbours_at(alloc, edges, node)?;
        lists.push(Listed::from_vec(list))?;
    }
    Ok(lists)
}

/// The edges at the node.
fn neighbours_at(alloc: Global, edges: &[Edge], node: u32) -> Result<Vec<Neighbour>, NoMemory>
    requires { All NamesClasses edges.now }
    ensures { IfOk result (λ list. list.items ≡ neighbours edges.now node) }
{
    Ok(
        edges
            .iter()
            .filter_map(|edge| neighbour_by(edge, node))
            .collect(alloc)?,
    )
}

/// The edge as one that leads from the node to a neighbour, where it is at the node.
fn neighbour_by(edge: &Edge, node: u32) -> Option<Neighbour>
    requires { NamesClasses edge.now }
    ensures { result ≡ neighbour_by node edge.now }
{
    match other_end(edge, node) {
        Some(other) => Some(Neighbour {
            edge: *edge,
            node: other,
        }),
        None => None,
    }
}

/// The write node of the class.
pub(crate) fn write_node(class: ClassNo) -> u32
    requires { IsClassNo class.0 }
    ensures { result ≡ write_node class.0 }
{
    ends(&Edge::Vertical(class)).1
}

/// The end of the edge other than the node, where the edge is at the node.
pub(crate) fn other_end(edge: &Edge, node: u32) -> Option<u32>
    requires { NamesClasses edge.now }
    ensures { result ≡ other_end edge.now node }
{
    let (a, b) = ends(edge);
    if a == node {
        Some(b)
    } else if b == node {
        Some(a)
    } else {
        None
    }
}
