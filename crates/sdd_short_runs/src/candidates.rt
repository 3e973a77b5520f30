//! Short runs that may be like no serial one, in the order in which they are tried.
use crate::near::{Near, may_run_beside};
use sdd_lang::NoMemory;
use sdd_robust::{Member, PlaceSet, may_miss, reads_from};
use sdd_robust_laws::Access;
use std::alloc::Global;

/// A pivot, and those that run one after the other while it does: it may miss the changes of the first
/// of them, and the last one may miss its changes.
#[derive(Drop)]
pub(crate) struct Candidate<'a> {
    pub pivot: &'a Member,
    pub path: Vec<&'a Member>,
}

/// What the pivot reads by an access, and which of those beside it may then miss its changes.
#[derive(Drop)]
struct MissedRead<'a> {
    read: &'a Access,
    missing: PlaceSet,
}

/// Those that may be the last of a path, and those that conflict with one of them and may run beside
/// the pivot.
#[derive(Drop)]
struct Last {
    ends: PlaceSet,
    before: PlaceSet,
}

/// The candidates of one pivot that are found, no more than so many.
#[derive(Drop)]
struct Search<'a> {
    alloc: Global,
    pivot: &'a Member,
    length: usize,
    most: usize,
    found: Vec<Candidate<'a>>,
}

/// Whether the transaction at a place may run while the pivot does, and both commit.
fn is_beside(near: &Near, pivot: &Member, place: usize) -> bool {
    match near.at(place) {
        Some(other) => may_run_beside(pivot, other),
        None => false,
    }
}

/// Those that conflict with the pivot and may run beside it, by their places.
fn beside(
    alloc: Global,
    near: &Near,
    pivot: &Member,
    place: usize,
) -> Result<Vec<usize>, NoMemory> {
    match near.conflicting_of(place) {
        Some(conflicting) => beside_of(alloc, near, pivot, conflicting),
        None => Ok(Vec::new(alloc)),
    }
}

/// Those of a set that may run beside the pivot, by their places.
fn beside_of(
    alloc: Global,
    near: &Near,
    pivot: &Member,
    others: &PlaceSet,
) -> Result<Vec<usize>, NoMemory> {
    let mut beside = Vec::new(alloc);
    for place in &others.list(alloc)? {
        if is_beside(near, pivot, *place) {
            beside.push(*place)?;
        }
    }
    Ok(beside)
}

/// Whether the transaction at a place may miss a change of the pivot, where that reads by this access.
fn may_miss_at(near: &Near, place: usize, pivot: &Member, read: &Access) -> bool {
    match near.at(place) {
        Some(other) => may_miss(other.accesses.as_slice(), pivot.accesses.as_slice(), read),
        None => false,
    }
}

/// Which of those beside the pivot may miss its changes, where it reads by this access.
fn missing_by(
    alloc: Global,
    near: &Near,
    beside: &[usize],
    pivot: &Member,
    read: &Access,
) -> Result<PlaceSet, NoMemory> {
    let mut missing = PlaceSet::new(alloc, near.all.len())?;
    for place in beside {
        if may_miss_at(near, *place, pivot, read) {
            missing.add(*place);
        }
    }
    Ok(missing)
}

/// The reads of the pivot by which it may miss a change, where some may then miss its changes.
fn missed_reads<'a>(
    alloc: Global,
    near: &Near,
    beside: &[usize],
    pivot: &'a Member,
) -> Result<Vec<MissedRead<'a>>, NoMemory> {
    let mut reads = Vec::new(alloc);
    for read in pivot.accesses.as_slice() {
        if near.changes.misses_by(pivot.accesses.as_slice(), read) {
            let missing = missing_by(alloc, near, beside, pivot, read)?;
            if !missing.is_empty() {
                reads.push(MissedRead { read, missing })?;
            }
        }
    }
    Ok(reads)
}

/// Those that may be the last, where the pivot misses the changes of this first one; None where there
/// are none.
fn last_after(
    alloc: Global,
    near: &Near,
    reads: &[MissedRead],
    first: &Member,
) -> Result<Option<PlaceSet>, NoMemory> {
    let mut last = None;
    for missed in reads {
        if reads_from(missed.read, first.accesses.as_slice()) {
            let mut ends = match last {
                Some(ends) => ends,
                None => PlaceSet::new(alloc, near.all.len())?,
            };
            ends.add_all(&missed.missing);
            last = Some(ends);
        }
    }
    Ok(last)
}

/// Those that conflict with one of these.
fn conflicting_with_one(
    alloc: Global,
    near: &mut Near,
    ends: &PlaceSet,
) -> Result<PlaceSet, NoMemory> {
    let mut found = PlaceSet::new(alloc, near.all.len())?;
    for end in &ends.list(alloc)? {
        near.learn(*end)?;
        match near.conflicting_of(*end) {
            Some(conflicting) => found.add_all(conflicting),
            None => {}
        }
    }
    Ok(found)
}

/// Those that conflict with one of these and may run beside the pivot.
fn before(
    alloc: Global,
    near: &mut Near,
    pivot: &Member,
    ends: &PlaceSet,
) -> Result<PlaceSet, NoMemory> {
    let conflicting = conflicting_with_one(alloc, near, ends)?;
    let mut before = PlaceSet::new(alloc, near.all.len())?;
    for place in &beside_of(alloc, near, pivot, &conflicting)? {
        before.add(*place);
    }
    Ok(before)
}

impl<'a> Search<'a> {
    fn is_full(&self) -> bool {
        self.found.len() >= self.most
    }

    /// Adds a path, if there is room.
    fn add(&mut self, near: &Near<'a>, path: &[usize]) -> Result<(), NoMemory> {
        if self.is_full() {
            return Ok(());
        }
        let mut members = Vec::with_capacity(self.alloc, path.len())?;
        for place in path {
            match near.at(*place) {
                Some(member) => members.push(member)?,
                None => {}
            }
        }
        self.found.push(Candidate {
            pivot: self.pivot,
            path: members,
        })?;
        Ok(())
    }

    /// Adds the paths that begin so and go on from their last one to one that may be the last.
    fn add_ends(
        &mut self,
        near: &Near<'a>,
        begun: &[usize],
        from: usize,
        last: &Last,
    ) -> Result<(), NoMemory> {
        for end in &near.conflicting_among(from, &last.ends)? {
            if !self.is_full() && !begun.contains(end) {
                self.add_end(near, begun, *end)?;
            }
        }
        Ok(())
    }

    fn add_end(&mut self, near: &Near<'a>, begun: &[usize], end: usize) -> Result<(), NoMemory> {
        let mut path = Vec::with_capacity(self.alloc, begun.len())?;
        path.extend_from_slice(begun)?;
        path.push(end)?;
        self.add(near, path.as_slice())
    }

    /// Adds the paths of three from this first one.
    fn add_threes(
        &mut self,
        near: &mut Near<'a>,
        first: usize,
        last: &Last,
    ) -> Result<(), NoMemory> {
        for second in &near.conflicting_among(first, &last.before)? {
            if !self.is_full() && *second != first {
                near.learn(*second)?;
                self.add_ends(near, &[first, *second], *second, last)?;
            }
        }
        Ok(())
    }

    /// Adds the paths that begin with one and end with one that may be the last.
    fn add_paths(
        &mut self,
        near: &mut Near<'a>,
        first: usize,
        last: &Last,
    ) -> Result<(), NoMemory> {
        near.learn(first)?;
        if self.length > 2 {
            return self.add_threes(near, first, last);
        }
        if last.before.has(first) {
            self.add_ends(near, &[first], first, last)?;
        }
        Ok(())
    }

    /// Adds the paths that begin with one. Which are before those that may be its last ones it takes from
    /// the known ones, or adds it there.
    fn add_from(
        &mut self,
        near: &mut Near<'a>,
        reads: &[MissedRead],
        first: usize,
        known: &mut Vec<Last>,
    ) -> Result<(), NoMemory> {
        if self.is_full() {
            return Ok(());
        }
        let ends = match near.at(first) {
            Some(member) => last_after(self.alloc, near, reads, member)?,
            None => None,
        };
        match ends {
            Some(ends) => {
                let at = place_of(self.alloc, near, self.pivot, known, ends)?;
                match known.get(at) {
                    Some(last) => self.add_paths(near, first, last),
                    None => Ok(()),
                }
            }
            None => Ok(()),
        }
    }
}

/// The first candidates of a pivot with so many others, two or three, at most so many of them. The
/// others conflict each with the next.
pub(crate) fn candidates_of<'a>(
    alloc: Global,
    near: &mut Near<'a>,
    pivot: usize,
    length: usize,
    most: usize,
) -> Result<Vec<Candidate<'a>>, NoMemory> {
    match near.at(pivot) {
        Some(member) => {
            if near.changes.misses_one(member.accesses.as_slice()) {
                near.learn(pivot)?;
                return candidates_around(alloc, near, pivot, member, length, most);
            }
            Ok(Vec::new(alloc))
        }
        None => Ok(Vec::new(alloc)),
    }
}

/// The same, where the pivot may miss a change.
fn candidates_around<'a>(
    alloc: Global,
    near: &mut Near<'a>,
    place: usize,
    pivot: &'a Member,
    length: usize,
    most: usize,
) -> Result<Vec<Candidate<'a>>, NoMemory> {
    let beside = beside(alloc, near, pivot, place)?;
    let reads = missed_reads(alloc, near, beside.as_slice(), pivot)?;
    let mut search = Search {
        alloc,
        pivot,
        length,
        most,
        found: Vec::new(alloc),
    };
    let mut known = Vec::new(alloc);
    for first in &beside {
        search.add_from(near, reads.as_slice(), *first, &mut known)?;
    }
    Ok(search.found)
}

/// The place of these ends among the known ones. Where they aren't known yet, finds those before them and
/// adds both.
fn place_of(
    alloc: Global,
    near: &mut Near,
    pivot: &Member,
    known: &mut Vec<Last>,
    ends: PlaceSet,
) -> Result<usize, NoMemory> {
    match known.iter().position(|last| last.ends.is_same(&ends)) {
        Some(at) => Ok(at),
        None => {
            let before = before(alloc, near, pivot, &ends)?;
            known.push(Last { ends, before })?;
            Ok(known.len() - 1)
        }
    }
}
