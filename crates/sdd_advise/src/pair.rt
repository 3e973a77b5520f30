ghost use Rattle.std.specs.Prelude.{◌≡◌, ◌<◌, ◌↔◌, Contains, IfOk, IsTrue};
ghost use Rattle.sdd_graph.specs.Edges.{IsClassNo};
ghost use Rattle.sdd_graph.specs.Graph.{write_node};
ghost use Rattle.sdd_advise.specs.Pairs.{IsLink, IsPairOf, IsSoundLast};
ghost use Rattle.sdd_advise.specs.Readers.{IsReadOf};

use crate::graph::Graph;
use crate::search::Search;
use crate::without::Without;
use sdd_base::{ClassNo, NoMemory, is_same};
use sdd_graph::{Edge, ends};
use std::alloc::Global;

/// What links a reader's vertical edge with its diagonals from one writer.
#[derive(Drop)]
pub(crate) enum Link {
    /// A way from the writer's write node to the reader's read node, which it meets at its end alone; its
    /// last edge is the reader's vertical edge.
    Linked(Vec<Edge>),
    /// No such way. These are the nodes that can be reached without passing the reader's read node.
    Apart(Vec<u32>),
}

/// A reader, and the write node of a writer.
#[derive(Drop)]
pub(crate) struct Pair {
    pub(crate) reader: ClassNo,
    pub(crate) write: u32,
    pub(crate) link: Link,
}

impl Pair {
    /// The pair of the reader's diagonal: the last pair, or a new one.
    pub(crate) fn of(
        alloc: Global,
        graph: &Graph,
        edge: &Edge,
        reader: ClassNo,
        last: Option<Pair>,
    ) -> Result<Pair, NoMemory>
        requires reader { IsReadOf reader edge.now }
        requires there { Contains graph.now.edges edge.now }
        requires last { IsSoundLast graph.now.edges last }
        ensures { IfOk result (IsPairOf graph.now.edges reader edge.now) }
    {
        graph.law_is_sound();
        let (_, write) = ends(edge);
        if let Some(pair) = last {
            if pair.is_for(reader, write) {
                return Ok(pair);
            }
        }
        let link = link_of(alloc, graph, reader, write)?;
        Ok(Pair {
            reader,
            write,
            link,
        })
    }

    /// Whether it is that of the reader and the write node.
    fn is_for(&self, reader: ClassNo, write: u32) -> bool
        ensures { IsTrue result ↔ ((self.now.reader ≡ reader) × (self.now.write ≡ write)) }
    {
        is_same(&self.reader, &reader) && self.write == write
    }
}

/// What links the reader with the write node of a writer.
fn link_of(alloc: Global, graph: &Graph, reader: ClassNo, write: u32) -> Result<Link, NoMemory>
    requires named { IsClassNo reader.0 }
    requires own { write_node reader.0 < graph.now.nodes }
    requires write { write < graph.now.nodes }
    ensures { IfOk result (IsLink graph.now.edges reader write) }
{
    let vertical = Edge::Vertical(reader);
    let (read, own) = ends(&vertical);
    let beside = Search::until(alloc, graph, write, &Without::OneNode(read), own)?;
    match beside.place(own) {
        None => {
            let apart = beside.nodes(alloc)?;
            Ok(Link::Apart(apart))
        }
        Some(place) => {
            let mut way = beside.way_to(alloc, place)?;
            way.push(vertical)?;
            Ok(Link::Linked(way))
        }
    }
}
