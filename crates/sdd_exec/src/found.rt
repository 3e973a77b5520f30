ghost use Rattle.std.specs.Prelude.{◌≡◌, [], nat_lt, length, IfOk, OnOk};
ghost use Rattle.std.specs.BTreeSet.{insert_key};
ghost use Rattle.sdd_lang.specs.All.{distinct, row_cmp};
ghost use Rattle.sdd_exec.specs.Rising.{to_last};
ghost use Rattle.sdd_exec.specs.Choices.{NoRepeats};

use sdd_lang::{Answer, AnswerRow, NoMemory};
use std::alloc::Global;
use std::cmp::Ordering;
use std::collections::BTreeSet;
use std::marker::Model;
use std::mem;

/// Rows ascending, each once.
///
/// As long as they are added in their order they stand in a list, and adding one costs one
/// comparison. From the first that is out of order on they stand in a set, and adding one costs a
/// logarithmic step.
#[derive(Drop)]
pub struct Found {
    rising: Vec<AnswerRow>,
    set: BTreeSet<AnswerRow>,
    in_set: bool,
}

impl Model for Found {
    ghost use Rattle.std.specs.Prelude.{◌≡◌, List, cond};
    ghost use Rattle.sdd_lang.specs.All.{Row, distinct};

    ghost Value = { List Row };

    ghost view = { λ f. cond f.in_set f.set.keys f.rising.items };

    ghost invariant = { λ f. distinct f.rising.items ≡ f.rising.items };
}

impl Found {
    /// No row.
    pub fn new(alloc: Global) -> Self
        ensures { result ≡ [] }
    {
        Found {
            rising: Vec::new(alloc),
            set: BTreeSet::new(alloc),
            in_set: false,
        }
    }

    /// Adds a row, where it isn't there.
    #[tactic(auto, using(crate::proofs::Distinct::add_steps))]
    pub fn add(&mut self, alloc: Global, row: AnswerRow) -> Result<(), NoMemory>
        ensures { OnOk result (self.new ≡ insert_key row_cmp self.old row) }
    {
        if self.in_set {
            self.set.insert(row)?;
            return Ok(());
        }
        match to_last(self.rising.as_slice(), &row) {
            Ordering::Greater => {
                self.rising.push(row)?;
                Ok(())
            }
            Ordering::Equal => Ok(()),
            Ordering::Less => {
                self.set = set_with(alloc, &mut self.rising, row)?;
                self.in_set = true;
                Ok(())
            }
        }
    }

    /// How many rows there are. Takes no memory.
    pub fn len(&self) -> usize
        ensures { result ≡ length self.now }
    {
        if self.in_set {
            return self.set.len();
        }
        self.rising.len()
    }

    /// Whether there are more rows than so many. Takes no memory.
    #[tactic(auto, using(crate::proofs::Distinct::once_steps))]
    pub fn is_over(&self, room: usize) -> bool
        ensures more { result ≡ nat_lt room (length self.now) }
        ensures once { NoRepeats self.now }
    {
        if self.in_set {
            return room < self.set.len();
        }
        room < self.rising.len()
    }

    /// The rows, in their order.
    pub fn into_list(self, alloc: Global) -> Result<Answer, NoMemory>
        ensures { IfOk result (λ list. list ≡ self) }
    {
        let Found {
            rising,
            set,
            in_set,
        } = self;
        if in_set {
            return list_rows(alloc, set);
        }
        Ok(Answer::from_vec(rising))
    }
}

/// Compares a row with the last of some rows; `Greater` where there is none.
fn to_last(rows: &[AnswerRow], row: &AnswerRow) -> Ordering
    ensures { result ≡ to_last rows.now row.now }
{
    match rows.last() {
        Some(last) => row.cmp(last),
        None => Ordering::Greater,
    }
}

/// The set of the rows.
fn as_set(alloc: Global, rows: Vec<AnswerRow>) -> Result<BTreeSet<AnswerRow>, NoMemory>
    ensures { IfOk result (λ set. set.keys ≡ distinct rows.items) }
{
    let mut set = BTreeSet::new(alloc);
    for row in rows {
        set.insert(row)?;
    }
    Ok(set)
}

/// The set of the rows, which it takes, with one more.
fn set_with(
    alloc: Global,
    rows: &mut Vec<AnswerRow>,
    row: AnswerRow,
) -> Result<BTreeSet<AnswerRow>, NoMemory>
    ensures set { IfOk result (λ set. set.keys ≡ insert_key row_cmp (distinct rows.old.items) row) }
    ensures rows { rows.new.items ≡ [] }
{
    let taken = mem::replace(rows, Vec::new(alloc));
    let mut set = as_set(alloc, taken)?;
    set.insert(row)?;
    Ok(set)
}

/// The rows of a set, in their order.
fn list_rows(alloc: Global, rows: BTreeSet<AnswerRow>) -> Result<Answer, NoMemory>
    ensures { IfOk result (λ list. list ≡ rows.keys) }
{
    Ok(Answer::from_vec(rows.into_iter().collect(alloc)?))
}
