use sdd_base::Listed;
use sdd_graph::Edge;
use sdd_protocol::Protocol;

/// Edges of a conflict graph, one after the other.
pub type Edges = Listed<Edge>;

/// Nodes of a conflict graph, by the numbers that `ends` of `sdd_graph` gives them.
pub type Nodes = Listed<u32>;

/// Why the read of a diagonal has its protocol.
#[derive(Drop)]
pub struct Advice {
    /// The diagonal.
    pub edge: Edge,
    pub protocol: Protocol,
    /// A cycle with the diagonal; empty where the protocol is P1.
    pub cycle: Edges,
    /// What lies apart from a node of the reader; empty where the protocol is P3.
    pub apart: Nodes,
}
