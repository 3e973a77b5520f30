//! Which transactions may run while a pivot does.
ghost use Rattle.std.specs.Prelude.{◌≡◌, IfOk, not};
ghost use Rattle.sdd_robust_laws.specs.Accesses.{are_apart};
ghost use Rattle.sdd_robust.specs.Members.{lent};
ghost use Rattle.sdd_robust.specs.Pivots.{beside};
ghost use Rattle.sdd_robust.specs.PlaceSets.{HasEach};

use crate::meeting::are_apart;
use crate::member::Member;
use crate::place_set::PlaceSet;
use sdd_lang::NoMemory;
use sdd_robust_laws::Access;
use std::alloc::Global;

/// Those of the members that may run while the pivot does, and both commit.
pub(crate) fn beside<'a>(
    alloc: Global,
    members: &[&'a Member],
    pivot: &[Access],
) -> Result<Vec<&'a Member>, NoMemory>
    ensures { IfOk result (λ found. lent found.items ≡ beside pivot.now (lent members.now)) }
{
    let mut found = Vec::new(alloc);
    'members: for other in members {
        if !are_apart(pivot, other.accesses.as_slice()) {
            found.push(*other)?;
        }
    }
    Ok(found)
}

/// The places of those of the members that may run while the pivot does, and both commit.
pub(crate) fn places_beside(
    alloc: Global,
    members: &[&Member],
    pivot: &[Access],
) -> Result<PlaceSet, NoMemory>
    ensures { IfOk result (λ found. HasEach (λ m. not (are_apart pivot.now m.accesses)) (lent members.now) found) }
{
    let mut found = PlaceSet::new(alloc, members.len())?;
    'places: for place in 0..members.len() {
        found.add_where(!are_apart(pivot, members[place].accesses.as_slice()), place);
    }
    Ok(found)
}
