use sdd_graph::Edge;

/// A node to which an edge leads.
#[derive(Clone, Copy)]
pub(crate) struct Neighbour {
    pub(crate) edge: Edge,
    pub(crate) node: u32,
}
