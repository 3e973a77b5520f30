//! The first transaction that may be the pivot of a run that is like no serial one.
ghost use Rattle.std.specs.Prelude.{◌&&◌, ◌≡◌, ◌⊎◌, true, false, IfNone, IfSome, IfOk, Contains, List, MatchOption, not};
ghost use Rattle.std.specs.List.{list_any};
ghost use Rattle.sdd_robust_laws.specs.Accesses.{are_apart, changes_for, reads_from};
ghost use Rattle.sdd_robust_laws.specs.Shown.{IsDangerous};
ghost use Rattle.sdd_robust_laws.specs.declared.access.Access.{Access};
ghost use Rattle.sdd_robust.specs.Changing.{is_read_by_one};
ghost use Rattle.sdd_robust.specs.Leading.{Leads};
ghost use Rattle.sdd_robust.specs.Members.{StandFor, kinds, lent};
ghost use Rattle.sdd_robust.specs.Pivots.{Closes, IsPivot, beside, may_miss};
ghost use Rattle.sdd_robust.specs.PlaceSets.{Has, HasEach, Lacks};

use crate::changing::Changes;
use crate::conflicts::Conflicts;
use crate::linked::linked;
use crate::meanwhile::{beside, places_beside};
use crate::meeting::{are_apart, changes_for, may_miss, reads_from};
use crate::member::Member;
use crate::place_set::PlaceSet;
use crate::same::first_of_each;
use sdd_lang::NoMemory;
use sdd_robust_laws::Access;
use std::alloc::Global;

/// The pivot reads what the missed transaction changes, and changes what the missing one reads, which
/// conflicts link with the missed one.
#[derive(Clone, Copy)]
pub struct Pivot<'a> {
    pub pivot: &'a Member,
    pub missed: &'a Member,
    pub missing: &'a Member,
}

/// The first transaction that is a pivot, where there is one; of its reading accesses the first by which
/// it is one, and by that one the first that it may miss. Looks among the first ones of those with the same
/// accesses, since one with the same accesses is a pivot just as well.
pub fn first_pivot(alloc: Global, all: &[Member]) -> Result<Option<Pivot<'_>>, NoMemory>
    ensures none { IfOk result (λ found. IfNone found ((pivot : List Access) → Contains (kinds all.now) pivot
        → IsDangerous (kinds all.now) pivot → ⊥)) }
    ensures found { IfOk result (λ found. IfSome found (λ p. IsPivot all.now p.pivot.now p.missed.now p.missing.now)) }
{
    let changes = Changes::of(alloc, all)?;
    let few = first_of_each(alloc, all)?;
    let mut conflicts = Conflicts::of(alloc, few.as_slice())?;
    first_among(alloc, all, few.as_slice(), &changes, &mut conflicts)
}

/// The first of these that is a pivot, where there is one.
fn first_among<'a>(
    alloc: Global,
    all: &[Member],
    few: &[&'a Member],
    changes: &Changes,
    conflicts: &mut Conflicts,
) -> Result<Option<Pivot<'a>>, NoMemory>
    requires few { StandFor all.now (lent few.now) }
    requires changes { changes.now ≡ all.now }
    requires conflicts { conflicts.old ≡ lent few.now }
    ensures same { conflicts.new ≡ conflicts.old }
    ensures none { IfOk result (λ found. IfNone found ((pivot : List Access) → Contains (kinds all.now) pivot
        → IsDangerous (kinds all.now) pivot → ⊥)) }
    ensures found { IfOk result (λ found. IfSome found (λ p. IsPivot all.now p.pivot.now p.missed.now p.missing.now)) }
{
    'members: for member in few {
        match pivot_among(alloc, all, few, changes, conflicts, *member)? {
            Some(found) => return Ok(Some(found)),
            None => {}
        }
    }
    Ok(None)
}

/// Whether the transaction may read what the pivot changes.
fn reads_change(other: &[Access], pivot: &[Access]) -> bool
    ensures { result ≡ list_any (λ change. changes_for change other.now) pivot.now }
{
    pivot.iter().any(|change| changes_for(change, other))
}

/// Whether some transaction may read what the pivot changes.
fn is_read_by_one(all: &[Member], pivot: &[Access]) -> bool
    ensures { result ≡ is_read_by_one all.now pivot.now }
{
    all.iter()
        .any(|other| reads_change(other.accesses.as_slice(), pivot))
}

/// The first two by which the transaction is a pivot. Looks for them only where it may miss a change of
/// some transaction.
fn pivot_among<'a>(
    alloc: Global,
    all: &[Member],
    few: &[&'a Member],
    changes: &Changes,
    conflicts: &mut Conflicts,
    pivot: &'a Member,
) -> Result<Option<Pivot<'a>>, NoMemory>
    requires few { StandFor all.now (lent few.now) }
    requires there { Contains (lent few.now) pivot.now }
    requires changes { changes.now ≡ all.now }
    requires conflicts { conflicts.old ≡ lent few.now }
    ensures same { conflicts.new ≡ conflicts.old }
    ensures none { IfOk result (λ found. IfNone found (IsDangerous (kinds all.now) pivot.now.accesses → ⊥)) }
    ensures found { IfOk result (λ found. IfSome found (λ p. IsPivot all.now p.pivot.now p.missed.now p.missing.now)) }
{
    if !changes.misses_one(pivot.accesses.as_slice()) {
        return Ok(None);
    }
    pivot_of(alloc, all, few, changes, conflicts, pivot)
}

/// The first two by which the transaction is a pivot. Looks for them only where some transaction may
/// read what it changes.
fn pivot_of<'a>(
    alloc: Global,
    all: &[Member],
    few: &[&'a Member],
    changes: &Changes,
    conflicts: &mut Conflicts,
    pivot: &'a Member,
) -> Result<Option<Pivot<'a>>, NoMemory>
    requires few { StandFor all.now (lent few.now) }
    requires there { Contains (lent few.now) pivot.now }
    requires changes { changes.now ≡ all.now }
    requires conflicts { conflicts.old ≡ lent few.now }
    ensures same { conflicts.new ≡ conflicts.old }
    ensures none { IfOk result (λ found. IfNone found (IsDangerous (kinds all.now) pivot.now.accesses → ⊥)) }
    ensures found { IfOk result (λ found. IfSome found (λ p. IsPivot all.now p.pivot.now p.missed.now p.missing.now)) }
{
    if !is_read_by_one(all, pivot.accesses.as_slice()) {
        return Ok(None);
    }
    let places = places_beside(alloc, few, pivot.accesses.as_slice())?;
    'reads: for read in pivot.accesses.as_slice() {
        match pivot_by(alloc, few, changes, conflicts, &places, pivot, read)? {
            Some(found) => return Ok(Some(found)),
            None => {}
        }
    }
    Ok(None)
}

/// The first two by which the transaction is a pivot, where it misses the first one's change by this
/// access. Of each start those to which conflicts lead are left out at the later ones, so that each
/// transaction is reached once.
fn pivot_by<'a>(
    alloc: Global,
    few: &[&'a Member],
    changes: &Changes,
    conflicts: &mut Conflicts,
    places: &PlaceSet,
    pivot: &'a Member,
    read: &Access,
) -> Result<Option<Pivot<'a>>, NoMemory>
    requires few { StandFor changes.now (lent few.now) }
    requires conflicts { conflicts.old ≡ lent few.now }
    requires places { HasEach (λ m. not (are_apart pivot.now.accesses m.accesses)) (lent few.now) places.now }
    ensures same { conflicts.new ≡ conflicts.old }
    ensures none { IfOk result (λ found. IfNone found ((c a : List Access)
        → Closes (kinds (beside pivot.now.accesses (lent few.now))) pivot.now.accesses read.now c a → ⊥)) }
    ensures found { IfOk result (λ found. IfSome found (λ p. (p.pivot.now ≡ pivot.now)
        × Contains (beside pivot.now.accesses (lent few.now)) p.missed.now × Contains (beside pivot.now.accesses (lent few.now)) p.missing.now
        × Closes (kinds (beside pivot.now.accesses (lent few.now))) pivot.now.accesses read.now p.missed.now.accesses p.missing.now.accesses)) }
{
    if !changes.misses_by(pivot.accesses.as_slice(), read) {
        return Ok(None);
    }
    let ends = places_missing(alloc, few, places, pivot.accesses.as_slice(), read)?;
    let mut left = places.copy(alloc)?;
    'starts: for place in 0..few.len() {
        let start = few[place];
        if is_start(&left, place, start, pivot.accesses.as_slice(), read) {
            match conflicts.without_reached(alloc, &left, place, &ends)? {
                Some(rest) => left = rest,
                None => match missing_from(alloc, few, start, pivot.accesses.as_slice(), read)? {
                    Some(missing) => {
                        return Ok(Some(Pivot {
                            pivot,
                            missed: start,
                            missing,
                        }));
                    }
                    None => {}
                },
            }
        }
    }
    Ok(None)
}

/// Whether the pivot may miss by this access a change of the one at a place that is left, and both may
/// commit.
fn is_start(left: &PlaceSet, place: usize, start: &Member, pivot: &[Access], read: &Access) -> bool
    ensures yes { result ≡ true → (reads_from read.now start.now.accesses && not (are_apart pivot.now start.now.accesses)) ≡ true }
    ensures no { result ≡ false
        → Lacks left.now place ⊎ ((reads_from read.now start.now.accesses && not (are_apart pivot.now start.now.accesses)) ≡ false) }
{
    left.has(place)
        && (reads_from(read, start.accesses.as_slice())
            && !are_apart(pivot, start.accesses.as_slice()))
}

/// Whether the one at a place is of these and may miss a change of the pivot.
fn is_end(places: &PlaceSet, place: usize, other: &Member, pivot: &[Access], read: &Access) -> bool
    ensures { Has places.now place → may_miss other.now.accesses pivot.now read.now ≡ true → result ≡ true }
{
    places.has(place) && may_miss(other.accesses.as_slice(), pivot, read)
}

/// The places of those beside the pivot that may miss a change of it.
fn places_missing(
    alloc: Global,
    few: &[&Member],
    places: &PlaceSet,
    pivot: &[Access],
    read: &Access,
) -> Result<PlaceSet, NoMemory>
    requires { HasEach (λ m. not (are_apart pivot.now m.accesses)) (lent few.now) places.now }
    ensures { IfOk result (λ found. HasEach (λ m. not (are_apart pivot.now m.accesses) && may_miss m.accesses pivot.now read.now)
        (lent few.now) found) }
{
    let mut found = PlaceSet::new(alloc, few.len())?;
    'places: for place in 0..few.len() {
        found.add_where(is_end(places, place, few[place], pivot, read), place);
    }
    Ok(found)
}

/// The first to which conflicts lead from the start, through those beside the pivot, and which may miss
/// a change of it.
fn missing_from<'a>(
    alloc: Global,
    few: &[&'a Member],
    start: &'a Member,
    pivot: &[Access],
    read: &Access,
) -> Result<Option<&'a Member>, NoMemory>
    requires { Contains (beside pivot.now (lent few.now)) start.now }
    ensures none { IfOk result (λ found. IfNone found ((a : List Access)
        → Leads (kinds (beside pivot.now (lent few.now))) start.now.accesses a → may_miss a pivot.now read.now ≡ true → ⊥)) }
    ensures found { IfOk result (λ found. IfSome found (λ m. Contains (beside pivot.now (lent few.now)) m.now
        × Leads (kinds (beside pivot.now (lent few.now))) start.now.accesses m.now.accesses × (may_miss m.now.accesses pivot.now read.now ≡ true))) }
{
    let beside = beside(alloc, few, pivot)?;
    missing_among(alloc, beside.as_slice(), start, pivot, read)
}

/// The first of these to which conflicts lead from the start, and which may miss a change of the pivot.
fn missing_among<'a>(
    alloc: Global,
    beside: &[&'a Member],
    start: &'a Member,
    pivot: &[Access],
    read: &Access,
) -> Result<Option<&'a Member>, NoMemory>
    requires { Contains (lent beside.now) start.now }
    ensures none { IfOk result (λ found. IfNone found ((a : List Access)
        → Leads (kinds (lent beside.now)) start.now.accesses a → may_miss a pivot.now read.now ≡ true → ⊥)) }
    ensures found { IfOk result (λ found. IfSome found (λ m. Contains (lent beside.now) m.now
        × Leads (kinds (lent beside.now)) start.now.accesses m.now.accesses × (may_miss m.now.accesses pivot.now read.now ≡ true))) }
{
    let reached = linked(alloc, beside, start)?;
    'others: for other in reached.as_slice() {
        if may_miss(other.accesses.as_slice(), pivot, read) {
            return Ok(Some(*other));
        }
    }
    Ok(None)
}
