ghost use Rattle.std.specs.Prelude.{ℕ, ◌≡◌, List, find, Option, IfOk};
ghost use Rattle.std.specs.BTreeMap.{get};
ghost use Rattle.sdd_links.specs.Attempts as definitions;
ghost use Rattle.sdd_links.specs.Attempts.{attempts, committed, is_attempt_of};
ghost use Rattle.sdd_links.specs.Finding.{pair_cmp};

use sdd_history::{PrintedReply, Rec};
use sdd_lang::{Change, Changes, ClassNo, NoMemory, Ts, TxnNo, Use, Uses};
use std::alloc::Global;
use std::collections::BTreeMap;
use std::marker::Model;

/// An attempt, as its Start records it. Attempts of a transaction are counted from 1.
#[derive(Drop)]
pub struct Attempt<'a> {
    pub txn: TxnNo,
    pub number: u64,
    pub class: ClassNo,
    pub ts: Ts,
    /// The time up to which protocol P2 asks; an undeclared attempt has none.
    pub p2: Option<Ts>,
    pub uses: &'a Uses,
    /// The place of the Start in the history, from 0.
    pub place: usize,
}

impl<'a> Model for Attempt<'a> {
    ghost Value = { definitions.Attempt };

    ghost view = { λ a. record {
      txn = a.txn.0;
      number = a.number;
      class = a.class.0;
      ts = a.ts.0;
      p2 = a.p2;
      uses = a.uses.now;
      place = a.place;
    } };
}

impl<'a> Attempt<'a> {
    fn copy(&self) -> Attempt<'a>
        ensures { result ≡ self.now }
    {
        Attempt {
            txn: self.txn,
            number: self.number,
            class: self.class,
            ts: self.ts,
            p2: self.p2,
            uses: self.uses,
            place: self.place,
        }
    }
}

/// A committed transaction: its committed attempt, and what its Commit records.
#[derive(Drop)]
pub struct Committed<'a> {
    pub start: Attempt<'a>,
    pub reply: &'a PrintedReply,
    pub changes: &'a Changes,
    /// How many values were sent for it, in VALUES and in REDUCE messages.
    pub values: u128,
    /// How many rows were sent for it, in ROWS messages.
    pub rows: u128,
    /// The place of the Commit in the history, from 0.
    pub place: usize,
}

impl<'a> Model for Committed<'a> {
    ghost Value = { definitions.Committed };

    ghost view = { λ t. record {
      start = t.start;
      reply = t.reply.now;
      changes = t.changes.now;
      values = t.values;
      rows = t.rows;
      place = t.place;
    } };
}

impl<'a> Committed<'a> {
    /// The class of its committed attempt. Takes no memory.
    pub fn class(&self) -> ClassNo
        ensures { result.0 ≡ self.now.start.class }
    {
        self.start.class
    }

    /// Its number. Takes no memory.
    pub fn number(&self) -> TxnNo
        ensures { result.0 ≡ self.now.start.txn }
    {
        self.start.txn
    }

    /// The timestamp of its committed attempt. Takes no memory.
    pub fn time(&self) -> u64
        ensures { result ≡ self.now.start.ts }
    {
        self.start.ts.0
    }

    /// What it reads. Takes no memory.
    pub fn uses(&self) -> &[Use]
        ensures { result.now ≡ self.now.start.uses }
    {
        self.start.uses.as_slice()
    }

    /// What it changes. Takes no memory.
    pub fn changes(&self) -> &[Change]
        ensures { result.now ≡ self.now.changes }
    {
        self.changes.as_slice()
    }
}

/// The committed transactions, in the order of their Commits.
///
/// O(r log r) for r records.
pub fn find_committed<'a>(
    alloc: Global,
    history: &'a [(u32, Rec)],
) -> Result<Vec<Committed<'a>>, NoMemory>
    ensures { IfOk result (λ made. made.items ≡ committed history.now) }
{
    let starts = starts(alloc, history)?;
    let mut made = Vec::new(alloc);
    for (place, (_, rec)) in history.iter().enumerate() {
        if let Some(committed) = committed_of(&starts, place, rec) {
            made.push(committed)?;
        }
    }
    Ok(made)
}

/// The first attempt with each transaction and number.
fn starts<'a>(
    alloc: Global,
    history: &'a [(u32, Rec)],
) -> Result<BTreeMap<(u32, u64), Attempt<'a>>, NoMemory>
    ensures { IfOk result (λ made. (n k : ℕ) → get pair_cmp made (n, k) ≡ find (is_attempt_of n k) (attempts history.now)) }
{
    let mut made = BTreeMap::new(alloc);
    for (place, (_, rec)) in history.iter().enumerate() {
        if let Some(attempt) = attempt_of(place, rec) {
            let key = (attempt.txn.0, attempt.number);
            if !made.contains_key(&key) {
                made.insert(key, attempt)?;
            }
        }
    }
    Ok(made)
}

/// The attempt of a Start that stands at this place.
fn attempt_of<'a>(place: usize, rec: &'a Rec) -> Option<Attempt<'a>>
    ensures { result ≡ definitions.attempt_of (place, rec.now) }
{
    match rec {
        Rec::Start {
            txn,
            attempt,
            class,
            ts,
            p2,
            uses,
        } => Some(Attempt {
            txn: *txn,
            number: *attempt,
            class: *class,
            ts: *ts,
            p2: *p2,
            uses,
            place,
        }),
        _ => None,
    }
}

/// The committed transaction of a Commit that stands at this place, with its attempt among these.
fn committed_of<'a>(
    starts: &BTreeMap<(u32, u64), Attempt<'a>>,
    place: usize,
    rec: &'a Rec,
) -> Option<Committed<'a>>
    ensures { (all : List definitions.Attempt) → ((n k : ℕ) → get pair_cmp starts.now (n, k) ≡ find (is_attempt_of n k) all)
        → result ≡ definitions.committed_of all (place, rec.now) }
{
    match rec {
        Rec::Commit {
            txn,
            attempt,
            reply,
            changes,
            values,
            rows,
        } => match starts.get(&(txn.0, *attempt)) {
            Some(start) => Some(Committed {
                start: start.copy(),
                reply,
                changes,
                values: *values,
                rows: *rows,
                place,
            }),
            None => None,
        },
        _ => None,
    }
}
