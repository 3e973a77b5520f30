//! The conflict graph of a catalogue: which classes touch which fragments of which others.
//!
//! The one contract to the layer above is the list of edges in their order, as `specs/Graph.antt`
//! defines it, and the numbers of the nodes that each edge joins. `specs/Edges.antt` says what is known
//! of each edge, and `specs/Nodes.antt` that no two nodes have one number.
#![tactic(auto)]

mod class_uses;
mod conflicts;
mod edge;
mod nodes;
mod uses;

pub use conflicts::conflict_graph;
pub use edge::Edge;
pub use nodes::{ends, law_nodes_differ};
