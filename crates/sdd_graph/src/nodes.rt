ghost use Rattle.std.specs.Prelude.{◌≡◌, ◌*◌, ◌-◌};
ghost use Rattle.sdd_graph.specs.Graph.{ends, read_node, write_node};
ghost use Rattle.sdd_graph.specs.Edges.{IsClassNo, NamesClasses};
ghost use Rattle.sdd_graph.specs.Nodes.{NodesDiffer};

use crate::edge::Edge;
use sdd_base::ClassNo;

/// The numbers of the nodes that the edge joins, counted from 0: r_1, w_1, r_2, w_2 and so on. The
/// edge's classes have numbers from 1 to 64. Takes no memory.
pub fn ends(edge: &Edge) -> (u32, u32)
    requires { NamesClasses edge.now }
    ensures { result ≡ ends edge.now }
{
    match edge {
        Edge::Vertical(i) => (read_node(*i), write_node(*i)),
        Edge::Horizontal(i, j) => (write_node(*i), write_node(*j)),
        Edge::Diagonal(i, j, _) => (read_node(*i), write_node(*j)),
    }
}

fn read_node(class: ClassNo) -> u32
    requires { IsClassNo class.0 }
    ensures { result ≡ read_node class.0 }
{
    2 * class.0 - 2
}

fn write_node(class: ClassNo) -> u32
    requires { IsClassNo class.0 }
    ensures { result ≡ write_node class.0 }
{
    2 * class.0 - 1
}

/// A law: the nodes of different classes differ, and so do the two nodes of a class. Takes no memory.
pub fn law_nodes_differ()
    ensures { NodesDiffer }
{}
