//! Rows of a relation, by their keys.
ghost use Rattle.std.specs.Prelude.{◌≡◌, IfOk};
ghost use Rattle.sdd_lang.specs.All.{IsRelation};
ghost use Rattle.sdd_robust_laws.specs.Accesses.{keys_of_part};
ghost use Rattle.sdd_robust.specs.KeyRanges.{range_of};

use sdd_lang::{Catalogue, Condition, NoMemory, RelNo, allowed_keys, restrictions_of};
use std::alloc::Global;

/// The rows of a relation with keys from one to another.
#[derive(Clone, Copy)]
pub(crate) struct KeyRange {
    pub(crate) rel: RelNo,
    /// The first and the last key, both within; the first isn't above the last.
    pub(crate) least: i64,
    pub(crate) greatest: i64,
}

/// The rows of a part that its conditions with constants allow, by their keys alone; None where they
/// allow no key. Costs time in the conditions, and memory for those that are on the part.
pub(crate) fn range_of_part(
    alloc: Global,
    catalogue: &Catalogue,
    rel: RelNo,
    part: usize,
    conds: &[Condition],
) -> Result<Option<KeyRange>, NoMemory>
    requires { IsRelation catalogue.now rel.0 }
    ensures { IfOk result (λ range. range ≡ range_of rel (keys_of_part catalogue.now rel part conds.now)) }
{
    catalogue.law_is_sound();
    let restrictions = restrictions_of(alloc, part, conds)?;
    let keys = allowed_keys(catalogue.relation(rel).key, restrictions.as_slice());
    match keys.ends() {
        Some((least, greatest)) => Ok(Some(KeyRange {
            rel,
            least,
            greatest,
        })),
        None => Ok(None),
    }
}
