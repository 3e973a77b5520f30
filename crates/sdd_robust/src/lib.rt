//! The test by which the transactions of a workload, each any number of times, are shown to be robust
//! under snapshot isolation.
//!
//! What a run under snapshot isolation is, when a workload is robust, what its transactions may read
//! and change, and what the test asks, stands in `sdd_robust_laws`, with the law that a workload which
//! passes is robust. To the layer above: `members` gives exactly what the transactions of a workload
//! access; `find_pivot` finds none exactly where the workload passes, and then it is robust; a pivot that
//! it finds is dangerous by the two that are told with it (`specs/Workloads.antt`). `first_pivot` is the
//! test over any accesses (`specs/Pivots.antt`). `PlaceSet` is a set of places among transactions
//! (`specs/PlaceSets.antt`).
#![tactic(auto)]

mod accessing;
mod changing;
mod columns;
mod conflicts;
mod judging;
mod key_range;
mod linked;
mod listing;
mod meanwhile;
mod meeting;
mod member;
mod pivot;
mod place_set;
mod same;
mod staying;

pub use changing::Changes;
pub use judging::{Places, find_pivot, members};
pub use meeting::{are_apart, conflict, may_miss, reads_from};
pub use member::{Accesses, Member};
pub use pivot::{Pivot, first_pivot};
pub use place_set::PlaceSet;
