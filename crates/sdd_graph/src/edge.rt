ghost use Rattle.std.proofs.Common.{rules};

use sdd_base::{ClassNo, Exact, FragNo, NoMemory, Parcel};

/// An edge of the conflict graph. Class i has the nodes r_i, its read set, and w_i, its write set.
#[derive(Clone, Copy, PartialEq, Eq)]
pub enum Edge {
    /// Between the two nodes of a class.
    Vertical(ClassNo),
    /// Between w_i and w_j, i < j: both classes write some fragment.
    Horizontal(ClassNo, ClassNo),
    /// Between r_i and w_j: class i reads the fragment and class j writes it.
    Diagonal(ClassNo, ClassNo, FragNo),
}

impl Exact for Edge {
    ghost exact = { Prim.search rules };
}

impl Parcel for Edge {
    fn copy(&self) -> Result<Self, NoMemory> {
        Ok(*self)
    }
}
