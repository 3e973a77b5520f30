//! Where transactions were committed.
ghost use Rattle.std.specs.Prelude.{◌≡◌, ◌++◌, ◌∷◌, ◌==◌, ℕ, [], cond, length, take, None, OnOk, Some};
ghost use Rattle.std.specs.BTreeMap.{get};
ghost use Rattle.std.specs.Option.{option_or};
ghost use Rattle.std.specs.Ordering.{nat_cmp};
ghost use Rattle.sdd_moments.specs.obligations.All.{History};
ghost use Rattle.sdd_watch.specs.Happens.{changes_of, committed_by, committed_in};
ghost use Rattle.sdd_watch.specs.Watching.{AreCommits};

use sdd_moments::{Change, NoMemory, Rec, TxnNo};
use std::alloc::Global;
use std::collections::BTreeMap;

/// Of each transaction that is committed the place of its first Commit among the records.
#[derive(Drop)]
pub(crate) struct Commits {
    places: BTreeMap<u32, usize>,
}

/// The transaction of a Commit.
fn committed_by(made: &(u32, Rec)) -> Option<TxnNo>
    ensures { result ≡ committed_by made.now }
{
    match &made.1 {
        Rec::Commit { txn, .. } => Some(*txn),
        _ => None,
    }
}

/// The changes of a Commit.
fn changes_in(made: &(u32, Rec)) -> &[Change]
    ensures { result.now ≡ committed_in (Some made.now) }
{
    match &made.1 {
        Rec::Commit { changes, .. } => changes.as_slice(),
        _ => &[],
    }
}

impl Commits {
    /// Before the first record.
    pub(crate) fn new(alloc: Global) -> Commits
        ensures { AreCommits [] result }
    {
        Commits {
            places: BTreeMap::new(alloc),
        }
    }

    /// Notes the place of a Commit, unless one of its transaction is noted.
    fn note_commit(&mut self, txn: TxnNo, place: usize) -> Result<(), NoMemory>
        ensures { OnOk result ((n : ℕ) → get nat_cmp self.new.places n
            ≡ option_or (get nat_cmp self.old.places n) (cond (txn.0 == n) (Some place) None)) }
    {
        if self.places.contains_key(&txn.0) {
            return Ok(());
        }
        self.places.insert(txn.0, place)?;
        Ok(())
    }

    /// Notes the record at a place.
    fn note(&mut self, place: usize, made: &(u32, Rec)) -> Result<(), NoMemory>
        ensures { OnOk result ((records : History) → length records ≡ place
            → AreCommits records self.old → AreCommits (records ++ made.now ∷ []) self.new) }
    {
        match committed_by(made) {
            Some(txn) => self.note_commit(txn, place),
            None => Ok(()),
        }
    }

    /// Notes the records from a place on.
    pub(crate) fn note_from(&mut self, records: &[(u32, Rec)], from: usize) -> Result<(), NoMemory>
        ensures { OnOk result (AreCommits (take from records.now) self.old
            → AreCommits records.now self.new) }
    {
        for place in from..records.len() {
            self.note(place, &records[place])?;
        }
        Ok(())
    }

    /// The place of the first Commit of a transaction.
    fn place_of(&self, txn: TxnNo) -> Option<usize>
        ensures { result ≡ get nat_cmp self.now.places txn.0 }
    {
        self.places.get(&txn.0).copied()
    }

    /// What a transaction changes, by its first Commit among the records. O(log n) for n Commits.
    pub(crate) fn changes<'r>(&self, records: &'r [(u32, Rec)], txn: TxnNo) -> &'r [Change]
        requires { AreCommits records.now self.now }
        ensures { result.now ≡ changes_of txn.0 records.now }
    {
        match self.place_of(txn) {
            Some(place) => changes_in(&records[place]),
            None => &[],
        }
    }
}
