ghost use Rattle.std.specs.Prelude.{◌↔◌, IsTrue};
ghost use Rattle.sdd_graph.specs.Edges.{NamesClasses};
ghost use Rattle.sdd_advise.specs.Passing.{Passes};
ghost use Rattle.sdd_advise.specs.Reach.{IsAway};

use sdd_base::is_same;
use sdd_graph::{Edge, ends};

/// What a search does without.
#[derive(Clone, Copy)]
pub(crate) enum Without {
    /// One edge.
    OneEdge(Edge),
    /// One node, with the edges at it.
    OneNode(u32),
}

impl Without {
    /// Whether the search goes along the edge.
    pub(crate) fn passes(&self, edge: &Edge) -> bool
        requires { NamesClasses edge.now }
        ensures { IsTrue result ↔ Passes self.now edge.now }
    {
        match self {
            Without::OneEdge(that) => !is_same(edge, that),
            Without::OneNode(node) => is_away(edge, *node),
        }
    }
}

/// Whether the edge isn't at the node.
fn is_away(edge: &Edge, node: u32) -> bool
    requires { NamesClasses edge.now }
    ensures { IsTrue result ↔ IsAway node edge.now }
{
    let (a, b) = ends(edge);
    a != node && b != node
}
