ghost use Rattle.std.specs.Prelude.{◌≡◌, ◌+◌, ◌<◌, ◌^◌};
ghost use Rattle.sdd_catalog.specs.declared.fault.CatError.TheVariants.{Fault};
ghost use Rattle.sdd_catread.specs.Faults.{broken, numbered_location};

use sdd_catalog::{CatError, CatFault, CatRule, Part};

/// Where in a file a fault is reported: at the top, or at one of its relations, fragments and
/// classes.
#[derive(Clone, Copy)]
pub(crate) struct Location {
    pub part: Part,
    /// The number of the relation, fragment or class, from 1, or 0 at the top.
    pub number: usize,
}

impl Location {
    /// The part at an index of its array.
    pub(crate) fn at_index(part: Part, index: usize) -> Location
        requires { index + 1 < 2 ^ 64 }
        ensures { result ≡ numbered_location part (index + 1) }
    {
        Location {
            part,
            number: index + 1,
        }
    }

    /// The fault of breaking a rule here.
    pub(crate) fn breaks(self, rule: CatRule) -> CatError
        ensures { result ≡ Fault (broken self rule) }
    {
        CatError::Fault(CatFault {
            rule,
            part: self.part,
            number: self.number,
        })
    }
}
