ghost use Rattle.std.specs.Prelude.{◌≡◌, ◌<◌, IfOk, All, length};
ghost use Rattle.sdd_blocks.specs.Components.{AreComponents};

use crate::forest::Forest;
use sdd_base::NoMemory;
use std::alloc::Global;

/// A label for each node, which two nodes share exactly where a walk joins them that does not meet the
/// node `without`. No node is left out where `without` is not one. One pass over the edges.
pub(crate) fn components(
    alloc: Global,
    edges: &[(u32, u32)],
    nodes: u32,
    without: u32,
) -> Result<Vec<u32>, NoMemory>
    requires { All (λ e. (e.0 < nodes) × (e.1 < nodes)) edges.now }
    ensures length { IfOk result (λ labels. length labels.items ≡ nodes) }
    ensures components { IfOk result (λ labels. AreComponents edges.now without labels.items) }
{
    let mut forest = Forest::new(alloc, nodes)?;
    for edge in edges {
        let (a, b) = *edge;
        if a != without && b != without {
            forest.join(a, b);
        }
    }
    forest.into_labels(alloc)
}
