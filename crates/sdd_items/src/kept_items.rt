//! A fragment's items in memory, which can be looked at by ranges of keys.
ghost use Rattle.std.specs.Prelude.{◌≡◌, [], ◌∷◌, All, IsTrue, IfSome, OnErr, OnOk, cond, filter, fold};
ghost use Rattle.std.specs.Option.{option_copied};
ghost use Rattle.std.specs.Ordering.{int_cmp};
ghost use Rattle.std.specs.BTreeMap.{insert_entry, is_at};
ghost use Rattle.std.specs.Map.{lookup};
ghost use Rattle.sdd_lang.specs.All.{FragNo, Int, all_keys, column, common, number_in};
ghost use Rattle.sdd_items.specs.Items.{written, initial, is_newer, row_in, row_of_item};
ghost use Rattle.sdd_items.specs.Keyed.{HasKey, IsNear, is_within, one_at};

use crate::near::are_of_keys;
use sdd_lang::{
    Change, Keys, NoMemory, Parcel, Restriction, Row, Ts, Value, allowed_keys, value_in,
};
use std::alloc::Global;
use std::collections::BTreeMap;
use std::collections::btree_map::Range;
use std::marker::Model;

/// By key the date of the last change that was applied, and its row, which is absent where it was a
/// deletion.
#[derive(Drop)]
pub struct KeptItems {
    items: BTreeMap<i64, (u64, Option<Row>)>,
    /// The key column of the fragment's relation.
    key: u32,
    /// Whether each row has its item's key in that column, so that restrictions on the column say
    /// which keys are to be looked at. It has, unless a caller names another column.
    keyed: bool,
}

impl Model for KeptItems {
    ghost use Rattle.sdd_items.specs.Items.{Items};
    ghost use Rattle.sdd_items.specs.Keyed.{AreHeld, AreKeyed};

    ghost Value = { Items };

    ghost view = { λ k. k.items.entries };

    ghost invariant = { λ k. AreHeld k.items.entries × AreKeyed k.keyed k.key k.items.entries };
}

impl KeptItems {
    /// No items, of a relation with this key column.
    pub fn new(alloc: Global, key: u32) -> Self
        ensures { result ≡ [] }
    {
        KeptItems {
            items: BTreeMap::new(alloc),
            key,
            keyed: true,
        }
    }

    /// The items, lent.
    pub fn entries(&self) -> &BTreeMap<i64, (u64, Option<Row>)>
        ensures { result.now.entries ≡ self.now }
    {
        &self.items
    }

    /// Puts the item at its key. Costs O(log n).
    fn put(&mut self, item: (i64, (u64, Option<Row>))) -> Result<(), NoMemory>
        ensures { OnOk result (self.new ≡ insert_entry int_cmp self.old item.0 item.1) }
    {
        self.keyed = keyed_with(self.keyed, self.key, &item);
        self.items.insert(item.0, item.1)?;
        Ok(())
    }

    /// The write rule. Costs O(log n).
    pub fn write(&mut self, ts: Ts, change: Change) -> Result<(), NoMemory>
        ensures { OnOk result (self.new ≡ written self.old (ts.0, change)) }
    {
        let item = (change.key, (ts.0, change.row));
        self.keyed = keyed_with(self.keyed, self.key, &item);
        write_at(&mut self.items, item)
    }

    /// Adds a row with the date 0, where none with its key is there. Costs O(log n), and time in the
    /// row.
    pub fn add_initial(&mut self, row: &Row, key: u32) -> Result<(), NoMemory>
        ensures { OnOk result ((f : FragNo) → self.new ≡ fold written self.old (initial f key (row.now ∷ []))) }
    {
        let at = key_in(row, key);
        if is_newer(0, self.items.get(&at)) {
            self.put((at, (0, Some(row.copy()?))))?;
        }
        Ok(())
    }

    /// The items with these keys, ascending by key.
    pub fn within(&self, keys: &Keys) -> Range<'_, i64, (u64, Option<Row>)>
        ensures { result ≡ filter (λ e. is_within (common keys.now all_keys) e.0) self.now }
    {
        match keys.ends() {
            Some((from, to)) => self.items.range(from..=to),
            None => self.items.range(0..0),
        }
    }

    /// The item with this key. Costs O(log n).
    pub fn at(&self, key: &i64) -> Option<&(u64, Option<Row>)>
        ensures { one_at key.now (option_copied result)
            ≡ filter (λ e. is_within (key.now, key.now) e.0) self.now }
    {
        // The length tells that the keys ascend, and saves the search where there are none.
        if self.items.len() == 0 {
            return None;
        }
        self.items.get(key)
    }

    /// The row of the item with this key. Costs O(log n).
    pub fn row(&self, key: &i64) -> Option<&Row>
        ensures { option_copied result ≡ row_in self.now key.now }
    {
        row_of(self.items.get(key))
    }

    /// How many items have these keys at most.
    pub fn room(&self, keys: &Keys) -> usize {
        match keys.ends() {
            Some((from, to)) => {
                let steps = to.abs_diff(from) as usize;
                self.items.len().min(steps.saturating_add(1))
            }
            None => 0,
        }
    }

    /// Keys among which is that of each row that meets the restrictions. Where these are on the key,
    /// they are those that they allow. Takes no memory.
    pub fn keys_near(&self, restrictions: &[Restriction]) -> Keys
        ensures { All (IsNear restrictions.now result) self.now }
    {
        if !self.keyed {
            return Keys::all();
        }
        if !are_of_keys(self.key, restrictions) {
            return Keys::all();
        }
        allowed_keys(self.key, restrictions)
    }
}

/// The write rule in a map. Searches once where the item is there, and twice where it is new.
fn write_at(
    items: &mut BTreeMap<i64, (u64, Option<Row>)>,
    item: (i64, (u64, Option<Row>)),
) -> Result<(), NoMemory>
    ensures ok { OnOk result (items.new.entries
        ≡ cond (is_newer item.1.0 (lookup (is_at (int_cmp item.0)) items.old.entries))
        (insert_entry int_cmp items.old.entries item.0 item.1) items.old.entries) }
    ensures same { OnErr result (items.new.entries ≡ items.old.entries) }
{
    match items.get_mut(&item.0) {
        Some(kept) => {
            if kept.0 < item.1.0 {
                *kept = item.1;
            }
            Ok(())
        }
        None => {
            items.insert(item.0, item.1)?;
            Ok(())
        }
    }
}

/// The number in a column, 0 where there is none.
fn key_in(row: &Row, key: u32) -> i64
    ensures { result ≡ number_in (column row.now key) }
{
    match value_in(row, key) {
        Some(Value::Int(number)) => *number,
        _ => 0,
    }
}

fn is_newer(ts: u64, item: Option<&(u64, Option<Row>)>) -> bool
    ensures { result ≡ is_newer ts (option_copied item.entry) }
{
    match item {
        None => true,
        Some(item) => item.0 < ts,
    }
}

/// The row of an item, where it isn't deleted.
fn row_of(item: Option<&(u64, Option<Row>)>) -> Option<&Row>
    ensures { option_copied result ≡ row_of_item (option_copied item.entry) }
{
    match item {
        None => None,
        Some(item) => item.1.as_ref(),
    }
}

/// Whether the row has the key in its key column.
fn has_key(key: u32, at: &i64, row: &Row) -> bool
    ensures { IsTrue result → column row.now key ≡ Int at.now }
{
    match value_in(row, key) {
        Some(Value::Int(number)) => *number == *at,
        _ => false,
    }
}

/// Whether all rows have their keys there, where all had before.
fn keyed_with(keyed: bool, key: u32, item: &(i64, (u64, Option<Row>))) -> bool
    ensures { IsTrue result → IsTrue keyed × HasKey key item.now }
{
    match &item.1.1 {
        Some(row) => keyed && has_key(key, &item.0, row),
        None => keyed,
    }
}
