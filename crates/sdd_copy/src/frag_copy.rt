ghost use Rattle.std.specs.Prelude.{◌≡◌, [], ◌∷◌, ◌++◌, OnOk, OnErr, IfOk, IfSome, IsTrue, map, filter, fold, true, false};
ghost use Rattle.std.specs.Option.{option_copied};
ghost use Rattle.sdd_lang.specs.All.{FragNo, all_keys, common};
ghost use Rattle.sdd_copy.specs.Contents.{Dated, rows_left};
ghost use Rattle.sdd_items.specs.Items.{written, items_of, dated, initial, row_in, rows_in};
ghost use Rattle.sdd_items.specs.Keyed.{is_within, rows_meeting};

use sdd_items::{KeptItems, meets_all};
use sdd_lang::{Change, Keys, NoMemory, Parcel, Restriction, Row, Ts};
use std::alloc::Global;
use std::marker::Model;

/// A fragment's items at one module: by key the date of the last change that was applied, and its
/// row, which is absent where it was a deletion. So a deletion stays, and outdoes what is older.
#[derive(Drop)]
pub struct FragCopy {
    items: KeptItems,
    live: bool,
    alloc: Global,
}

impl Model for FragCopy {
    ghost use Rattle.sdd_lang.specs.All.{Kept};
    ghost use Rattle.sdd_items.specs.Items.{Items};

    ghost Value = { Kept Items };

    ghost view = { λ c. record { live = c.live; value = c.items } };
}

impl FragCopy {
    /// A copy of these rows, each dated 0, which is before every transaction; of two rows with one
    /// key the later stands. The key is the number in column `key`, counted from 1.
    ///
    /// O(n log n) for n rows, each of which is copied.
    pub fn new(alloc: Global, rows: &[Row], key: u32) -> Result<FragCopy, NoMemory>
        ensures { IfOk result (λ copy. (f : FragNo) →
            copy ≡ record { live = true; value = items_of (initial f key rows.now) }) }
    {
        let mut items = KeptItems::new(alloc, key);
        for row in rows.iter().rev() {
            items.add_initial(row, key)?;
        }
        Ok(FragCopy {
            items,
            live: true,
            alloc,
        })
    }

    /// False once a call ran out of memory; after that the copy is only dropped.
    pub fn live(&self) -> bool
        ensures { result ≡ self.now.live }
    {
        self.live
    }

    /// Applies a change of the transaction with timestamp `ts`, where no change of its item with
    /// that date or a greater one was applied before.
    ///
    /// O(log n) for n items; the row is moved.
    pub fn write(&mut self, ts: Ts, change: Change) -> Result<(), NoMemory>
        requires { IsTrue self.old.live }
        ensures ok { OnOk result (
            self.new ≡ record { live = true; value = written self.old.value (ts.0, change) }) }
        ensures err { OnErr result (self.new.live ≡ false) }
    {
        self.live = false;
        self.items.write(ts, change)?;
        self.live = true;
        Ok(())
    }

    /// Applies the changes of the transaction with timestamp `ts`, each where no change of its item
    /// with that date or a greater one was applied before.
    ///
    /// O(log n) a change for n items, and a copy of its row.
    pub fn apply(&mut self, ts: Ts, changes: &[Change]) -> Result<(), NoMemory>
        requires { IsTrue self.old.live }
        ensures ok { OnOk result (
            self.new
            ≡ record { live = true; value = fold written self.old.value (dated ts.0 changes.now) }) }
        ensures applied { OnOk result (
            (xs : Dated) → self.old.value ≡ items_of xs
            → self.new.value ≡ items_of (xs ++ dated ts.0 changes.now)) }
        ensures err { OnErr result (self.new.live ≡ false) }
    {
        self.live = false;
        for change in changes {
            self.items.write(ts, change.copy()?)?;
        }
        self.live = true;
        Ok(())
    }

    /// The rows that aren't deleted, ascending by key: the contents of the changes applied.
    ///
    /// O(n) for n items, the marks of deletions among them, and copies of the rows.
    pub fn rows(&self) -> Result<Vec<Row>, NoMemory>
        requires { IsTrue self.now.live }
        ensures kept { IfOk result (λ rows. rows.items ≡ rows_in self.now.value) }
        ensures contents { IfOk result (λ rows. (xs : Dated) → self.now.value ≡ items_of xs
            → rows.items ≡ map (λ e. e.1) (rows_left xs)) }
    {
        kept_rows(self.alloc, &self.items)
    }

    /// The row with this key, lent: None where there is none, or it was deleted. O(log n) for n
    /// items, and takes no memory.
    pub fn row(&self, key: &i64) -> Option<&Row>
        ensures { option_copied result ≡ row_in self.now.value key.now }
    {
        self.items.row(key)
    }

    /// The rows that aren't deleted and meet the restrictions, with their keys, ascending by key. A
    /// column that a row doesn't have counts as the number 0.
    ///
    /// Looks at the items whose keys the restrictions on the key column allow, so at one where they
    /// name one key, found in O(log n) for n items; at all where they allow all. Copies the rows
    /// that it gives, and makes room at once for as many as it looks at.
    pub fn find_meeting(&self, restrictions: &[Restriction]) -> Result<Vec<(i64, Row)>, NoMemory>
        requires { IsTrue self.now.live }
        ensures { IfOk result (λ rows. rows.items ≡ rows_meeting restrictions.now self.now.value) }
    {
        met_rows(self.alloc, &self.items, restrictions)
    }
}

fn kept_rows(alloc: Global, items: &KeptItems) -> Result<Vec<Row>, NoMemory>
    ensures { IfOk result (λ rows. rows.items ≡ rows_in items.now) }
{
    let mut rows = Vec::with_capacity(alloc, items.entries().len())?;
    for (_, item) in items.entries().iter() {
        if let Some(row) = &item.1 {
            rows.push(row.copy()?)?;
        }
    }
    Ok(rows)
}

fn met_rows(
    alloc: Global,
    items: &KeptItems,
    restrictions: &[Restriction],
) -> Result<Vec<(i64, Row)>, NoMemory>
    ensures { IfOk result (λ rows. rows.items ≡ rows_meeting restrictions.now items.now) }
{
    let keys = items.keys_near(restrictions);
    match only_key(&keys) {
        Some(key) => met_at(alloc, items, restrictions, &key),
        None => met_within(alloc, items, restrictions, &keys),
    }
}

/// The key, where there is but one.
fn only_key(keys: &Keys) -> Option<i64>
    ensures { IfSome result (λ key. common keys.now all_keys ≡ (key, key)) }
{
    match keys.ends() {
        Some((from, to)) => {
            if from != to {
                return None;
            }
            Some(from)
        }
        None => None,
    }
}

/// The row with this key, where it meets the restrictions.
fn met_at(
    alloc: Global,
    items: &KeptItems,
    restrictions: &[Restriction],
    key: &i64,
) -> Result<Vec<(i64, Row)>, NoMemory>
    ensures { IfOk result (λ rows. rows.items
        ≡ rows_meeting restrictions.now (filter (λ e. is_within (key.now, key.now) e.0) items.now)) }
{
    match items.at(key) {
        None => Ok(Vec::new(alloc)),
        Some(item) => met_one(alloc, restrictions, key, item),
    }
}

fn met_one(
    alloc: Global,
    restrictions: &[Restriction],
    key: &i64,
    item: &(u64, Option<Row>),
) -> Result<Vec<(i64, Row)>, NoMemory>
    ensures { IfOk result (λ rows. rows.items ≡ rows_meeting restrictions.now ((key.now, item.now) ∷ [])) }
{
    let mut rows = Vec::with_capacity(alloc, 1)?;
    add_met(&mut rows, restrictions, key, item)?;
    Ok(rows)
}

/// The rows with these keys that meet the restrictions.
fn met_within(
    alloc: Global,
    items: &KeptItems,
    restrictions: &[Restriction],
    keys: &Keys,
) -> Result<Vec<(i64, Row)>, NoMemory>
    ensures { IfOk result (λ rows. rows.items ≡ rows_meeting restrictions.now
        (filter (λ e. is_within (common keys.now all_keys) e.0) items.now)) }
{
    let mut rows = Vec::with_capacity(alloc, items.room(keys))?;
    for (key, item) in items.within(keys) {
        add_met(&mut rows, restrictions, key, item)?;
    }
    Ok(rows)
}

/// Adds the row of an item, where it isn't deleted and meets the restrictions.
fn add_met(
    rows: &mut Vec<(i64, Row)>,
    restrictions: &[Restriction],
    key: &i64,
    item: &(u64, Option<Row>),
) -> Result<(), NoMemory>
    ensures { OnOk result (
        rows.new.items ≡ rows.old.items ++ rows_meeting restrictions.now ((key.now, item.now) ∷ [])) }
{
    let Some(row) = &item.1 else {
        return Ok(());
    };
    if !meets_all(row, restrictions) {
        return Ok(());
    }
    rows.push((*key, row.copy()?))?;
    Ok(())
}
