ghost use Rattle.std.specs.Prelude.{◌≡◌, ◌+◌, ◌<◌, ◌^◌, IfOk, All, length};
ghost use Rattle.sdd_blocks.specs.Marked.{AreMarked};

use sdd_base::NoMemory;
use std::alloc::Global;

/// One more than the label for each number that is in a pair, and 0 for each other.
pub(crate) fn marks(
    alloc: Global,
    pairs: &[(u32, u32)],
    labels: &[u32],
) -> Result<Vec<u32>, NoMemory>
    requires few { length labels.now < 2 ^ 32 }
    requires below { All (λ label. label < length labels.now) labels.now }
    requires pairs { All (λ pair. (pair.0 < length labels.now) × (pair.1 < length labels.now)) pairs.now }
    ensures below { IfOk result (λ marks. All (λ mark. mark < length labels.now + 1) marks.items) }
    ensures marked { IfOk result (λ marks. AreMarked pairs.now labels.now marks.items) }
{
    let mut marks = vec![in alloc; 0; labels.len()]?;
    for pair in pairs {
        let (a, b) = *pair;
        marks[a as usize] = labels[a as usize] + 1;
        marks[b as usize] = labels[b as usize] + 1;
    }
    Ok(marks)
}
