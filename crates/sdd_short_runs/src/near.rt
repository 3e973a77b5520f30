//! Which transactions of a workload conflict.
ghost use Rattle.std.specs.Prelude.{◌≡◌, IfOk};

use sdd_lang::NoMemory;
use sdd_robust::{Changes, Member, PlaceSet, are_apart, conflict};
use std::alloc::Global;

/// Transactions, with what is known of each two of them so far. They are told by their places among
/// these.
#[derive(Drop)]
pub(crate) struct Near<'a> {
    alloc: Global,
    pub all: &'a [Member],
    pub changes: Changes<'a>,
    /// Of each those with which it conflicts; None until it is asked for.
    conflicting: Vec<Option<PlaceSet>>,
}

/// Whether the transactions conflict.
fn do_conflict(a: &Member, b: &Member) -> bool {
    conflict(a.accesses.as_slice(), b.accesses.as_slice())
}

/// Whether the other one may run while the pivot does, and both commit.
pub(crate) fn may_run_beside(pivot: &Member, other: &Member) -> bool {
    !are_apart(pivot.accesses.as_slice(), other.accesses.as_slice())
}

/// The places of those with which one conflicts.
fn conflicting_with(alloc: Global, all: &[Member], one: &Member) -> Result<PlaceSet, NoMemory> {
    let mut places = PlaceSet::new(alloc, all.len())?;
    for (place, other) in all.iter().enumerate() {
        if do_conflict(one, other) {
            places.add(place);
        }
    }
    Ok(places)
}

impl<'a> Near<'a> {
    /// Of no two it is known whether they conflict. Costs what `Changes::of` costs, and memory for a
    /// place for each.
    pub fn new(alloc: Global, all: &'a [Member]) -> Result<Near<'a>, NoMemory>
        ensures { IfOk result (λ near. near.changes ≡ all.now) }
    {
        let mut conflicting = Vec::with_capacity(alloc, all.len())?;
        for _ in 0..all.len() {
            conflicting.push(None)?;
        }
        let changes = Changes::of(alloc, all)?;
        Ok(Near {
            alloc,
            all,
            changes,
            conflicting,
        })
    }

    /// How many transactions there are.
    pub fn count(&self) -> usize {
        self.all.len()
    }

    /// The transaction at a place.
    pub fn at(&self, place: usize) -> Option<&'a Member> {
        self.all.get(place)
    }

    /// Finds with which transactions one conflicts, where that isn't known yet. Costs a test for each
    /// transaction.
    pub fn learn(&mut self, at: usize) -> Result<(), NoMemory> {
        if at >= self.all.len() || at >= self.conflicting.len() {
            return Ok(());
        }
        if self.conflicting[at].is_none() {
            self.conflicting[at] = Some(conflicting_with(self.alloc, self.all, &self.all[at])?);
        }
        Ok(())
    }

    /// Those with which one conflicts, where that is known.
    pub fn conflicting_of(&self, place: usize) -> Option<&PlaceSet> {
        match self.conflicting.get(place) {
            Some(Some(places)) => Some(places),
            _ => None,
        }
    }

    /// Those of a set with which one conflicts, ascending; none where that isn't known. Costs a step for
    /// each word of the set.
    pub fn conflicting_among(
        &self,
        place: usize,
        others: &PlaceSet,
    ) -> Result<Vec<usize>, NoMemory> {
        match self.conflicting_of(place) {
            Some(places) => places.common(self.alloc, others),
            None => Ok(Vec::new(self.alloc)),
        }
    }
}
