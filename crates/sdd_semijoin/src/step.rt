ghost use Rattle.std.specs.Prelude.{◌≡◌};
ghost use Rattle.sdd_semijoin.specs.Steps.{same_step};

use sdd_lang::Listed;

/// A reducer step of a query, by one of its conditions that is an equality between columns of two
/// uses.
#[derive(Clone, Copy)]
pub struct Step {
    /// The number of the condition in the query, from 1.
    pub cond: u32,
    /// Whether the use on the left of the equality is reduced, by the values of the one on its
    /// right.
    pub left: bool,
}

/// Reducer steps, in the order in which they are done.
pub type Steps = Listed<Step>;

impl Step {
    /// Whether it is the other one.
    pub(crate) fn is(&self, other: &Step) -> bool
        ensures { result ≡ same_step self.now other.now }
    {
        self.cond == other.cond && self.left == other.left
    }
}
