ghost use Rattle.std.specs.Prelude.{◌≡◌};
ghost use Rattle.sdd_base.specs.Words.{head_of};
ghost use Rattle.sdd_catalog.specs.Rules.{count_rules, count_faults};

use crate::fault::{CatFault, CatRule, Counted, Part};
use crate::parts::Parts;
use sdd_base::{MAX_DMS, MAX_TMS};

/// The first rule on the numbers of modules that is broken.
fn broken_count(parts: &Parts) -> Option<CatRule>
    ensures { result ≡ head_of (count_rules parts.now) }
{
    if parts.tms == 0 {
        Some(CatRule::TooFew(Counted::Tm))
    } else if parts.tms > MAX_TMS {
        Some(CatRule::TooMany(Counted::Tm))
    } else if parts.dms == 0 {
        Some(CatRule::TooFew(Counted::Dm))
    } else if parts.dms > MAX_DMS {
        Some(CatRule::TooMany(Counted::Dm))
    } else {
        None
    }
}

/// The first fault of the numbers of modules.
#[tactic(auto, using(crate::proofs::Firsts::head_of_map))]
pub(crate) fn count_fault(parts: &Parts) -> Option<CatFault>
    ensures { result ≡ head_of (count_faults parts.now) }
{
    match broken_count(parts) {
        Some(rule) => Some(CatFault {
            rule,
            part: Part::Top,
            number: 0,
        }),
        None => None,
    }
}
