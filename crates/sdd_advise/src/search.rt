ghost use Rattle.std.specs.Prelude.{ℕ, ◌≡◌, ◌+◌, ◌<◌, ◌^◌, ◌++◌, ◌∷◌, [], length, replicate, None, Some, is_some, slice_set, true, IfOk, OnOk};
ghost use Rattle.sdd_advise.specs.Neighbours.{Network};
ghost use Rattle.sdd_advise.specs.Passing.{Passes};
ghost use Rattle.sdd_advise.specs.Reach.{AreReached};
ghost use Rattle.sdd_advise.specs.Searches.{IsDone, IsLeftAt, IsSearching, IsTraced, place_of, placed_nodes, reached_at};
ghost use Rattle.sdd_advise.specs.Ways.{IsWay};
ghost use Rattle.sdd_advise.specs.declared.without.Without.{Without};

use crate::graph::Graph;
use crate::without::Without;
use sdd_base::NoMemory;
use sdd_graph::Edge;
use std::alloc::Global;

/// How a search came to a node: by an edge, from the node at a place among those that were reached.
#[derive(Clone, Copy)]
pub(crate) struct Came {
    pub(crate) edge: Edge,
    pub(crate) from: u32,
}

/// A node that was reached; the first of them is the one at which the search begins.
#[derive(Clone, Copy)]
pub(crate) struct Reached {
    pub(crate) node: u32,
    pub(crate) came: Option<Came>,
}

/// A search of a graph from a node on.
#[derive(Drop)]
pub(crate) struct Search {
    /// For each node its place among those that were reached.
    pub(crate) places: Vec<Option<u32>>,
    /// The nodes that were reached, in that order.
    pub(crate) reached: Vec<Reached>,
}

impl Search {
    /// Searches the whole graph, without an edge or a node. Costs one pass over the edges at each node.
    pub(crate) fn of(
        alloc: Global,
        graph: &Graph,
        start: u32,
        without: &Without,
    ) -> Result<Search, NoMemory>
        requires { start < graph.now.nodes }
        ensures done { IfOk result (λ search. IsDone graph.now without.now search) }
        ensures start { IfOk result (λ search. (reached_at search.reached.items 0).node ≡ start) }
        ensures reached { IfOk result (λ search.
            AreReached graph.now.edges (Passes without.now) start (placed_nodes search.places.items)) }
    {
        let mut search = Search::first_search(alloc, graph.nodes(), start)?;
        let mut place = 0u32;
        'places: while (place as usize) < search.reached.len() {
            search.go_on(graph, without, place)?;
            place += 1;
        }
        Ok(search)
    }

    /// Searches the graph without an edge or a node until it has reached the wanted node: the whole
    /// graph where it can't be reached.
    pub(crate) fn until(
        alloc: Global,
        graph: &Graph,
        start: u32,
        without: &Without,
        wanted: u32,
    ) -> Result<Search, NoMemory>
        requires start { start < graph.now.nodes }
        requires wanted { wanted < graph.now.nodes }
        ensures { IfOk result (IsLeftAt graph.now without.now start wanted) }
    {
        let mut search = Search::first_search(alloc, graph.nodes(), start)?;
        let mut place = 0u32;
        'places: while (place as usize) < search.reached.len() {
            if search.place(wanted).is_some() {
                return Ok(search);
            }
            search.go_on(graph, without, place)?;
            place += 1;
        }
        Ok(search)
    }

    /// A search that has reached its first node only.
    fn first_search(alloc: Global, nodes: u32, start: u32) -> Result<Search, NoMemory>
        requires { start < nodes }
        ensures places { IfOk result (λ search.
            search.places.items ≡ slice_set (replicate nodes None) start (Some 0)) }
        ensures reached { IfOk result (λ search.
            search.reached.items ≡ record { node = start; came = None } ∷ []) }
    {
        let mut places = vec![in alloc; None; nodes as usize]?;
        places[start as usize] = Some(0);
        let reached = vec![in alloc;
            Reached {
                node: start,
                came: None
            },
        ]?;
        Ok(Search { places, reached })
    }

    /// Goes on from the node at the place, along all edges at it that pass.
    fn go_on(&mut self, graph: &Graph, without: &Without, place: u32) -> Result<(), NoMemory>
        requires searching { IsSearching graph.now without.now place self.old }
        requires within { place < length self.old.reached.items }
        ensures searching { OnOk result (IsSearching graph.now without.now (place + 1) self.new) }
        ensures first { OnOk result (
            (reached_at self.new.reached.items 0).node ≡ (reached_at self.old.reached.items 0).node) }
    {
        let node = self.reached[place as usize].node;
        'neighbours: for neighbour in graph.neighbours(node) {
            if without.passes(&neighbour.edge) {
                self.reach(
                    neighbour.node,
                    Came {
                        edge: neighbour.edge,
                        from: place,
                    },
                )?;
            }
        }
        Ok(())
    }

    /// Puts the node after those that were reached, unless it is one of them.
    fn reach(&mut self, node: u32, came: Came) -> Result<(), NoMemory>
        requires node { node < length self.old.places.items }
        requires few { length self.old.reached.items < 2 ^ 32 }
        ensures known { OnOk result (is_some (place_of self.old.places.items node) ≡ true
            → self.new ≡ self.old) }
        ensures places { OnOk result (place_of self.old.places.items node ≡ None
            → self.new.places.items
            ≡ slice_set self.old.places.items node (Some (length self.old.reached.items))) }
        ensures reached { OnOk result (place_of self.old.places.items node ≡ None
            → self.new.reached.items
            ≡ self.old.reached.items ++ record { node = node; came = Some came } ∷ []) }
    {
        if self.place(node).is_some() {
            return Ok(());
        }
        let place = self.reached.len() as u32;
        self.reached.push(Reached {
            node,
            came: Some(came),
        })?;
        self.places[node as usize] = Some(place);
        Ok(())
    }

    /// The place of the node, where it was reached.
    pub(crate) fn place(&self, node: u32) -> Option<u32>
        requires { node < length self.now.places.items }
        ensures { result ≡ place_of self.now.places.items node }
    {
        self.places[node as usize]
    }

    /// The nodes that were reached, ascending.
    pub(crate) fn nodes(&self, alloc: Global) -> Result<Vec<u32>, NoMemory>
        requires { length self.now.places.items < 2 ^ 32 }
        ensures { IfOk result (λ nodes. nodes.items ≡ placed_nodes self.now.places.items) }
    {
        let mut nodes = Vec::new(alloc);
        'nodes: for node in 0..self.places.len() as u32 {
            if self.place(node).is_some() {
                nodes.push(node)?;
            }
        }
        Ok(nodes)
    }

    /// How the search came to the node at the place.
    fn came_to(&self, place: u32) -> Option<Came>
        requires { place < length self.now.reached.items }
        ensures { result ≡ (reached_at self.now.reached.items place).came }
    {
        self.reached[place as usize].came
    }

    /// The way by which the search came to the node at the place.
    pub(crate) fn way_to(&self, alloc: Global, place: u32) -> Result<Vec<Edge>, NoMemory>
        requires traced { IsTraced self.now.places.items self.now.reached.items }
        requires within { place < length self.now.reached.items }
        ensures { IfOk result (λ way. (network : Network) (without : Without) (gone : ℕ)
            → IsSearching network without gone self.now
            → IsWay network.edges (Passes without) (reached_at self.now.reached.items 0).node
            (reached_at self.now.reached.items place).node way.items) }
    {
        let mut way = Vec::new(alloc);
        let mut at = place;
        'way: while let Some(came) = self.came_to(at) {
            way.push(came.edge)?;
            at = came.from;
        }
        way.reverse();
        Ok(way)
    }
}
