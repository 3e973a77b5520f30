use crate::protocol::Protocol;
use sdd_graph::Edge;

/// A line of the protocol table.
#[derive(Clone, Copy)]
pub struct Entry {
    pub edge: Edge,
    /// The number of the edge's block, from 1; 0 where the edge is on no simple cycle.
    pub block: u32,
    /// The protocol of a diagonal; P1 for another edge.
    pub protocol: Protocol,
}
