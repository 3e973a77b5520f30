ghost use Rattle.std.specs.Prelude.{◌≡◌, ℕ, [], IfOk, OnOk};
ghost use Rattle.std.specs.BTreeMap.{insert_entry};
ghost use Rattle.std.specs.Ordering.{int_cmp};
ghost use Rattle.sdd_lang.specs.All.{entries_of};
ghost use Rattle.sdd_exec.specs.Rising.{keyed_rows, by_keys, to_last_key};
ghost use Rattle.sdd_shipped.specs.Snapshots.{of_relation};

use sdd_lang::{Entries, Entry, NoMemory, Row};
use std::alloc::Global;
use std::cmp::Ordering;
use std::collections::BTreeMap;
use std::marker::Model;
use std::mem;

/// Rows by their keys, ascending; of two with one key the later stands.
///
/// As long as each is put above those before it they stand in a list, and putting one costs one
/// comparison. From the first that isn't on they stand in a map, and putting one costs a logarithmic
/// step.
#[derive(Drop)]
pub struct Matched {
    rising: Vec<Entry>,
    map: BTreeMap<i64, Row>,
    in_map: bool,
}

impl Model for Matched {
    ghost use Rattle.std.specs.Prelude.{◌≡◌, ℤ, List, cond};
    ghost use Rattle.sdd_lang.specs.All.{Row as OfRow};
    ghost use Rattle.sdd_exec.specs.Rising.{keyed_rows, by_keys};

    ghost Value = { List (ℤ × OfRow) };

    ghost view = { λ m. cond m.in_map m.map.entries (keyed_rows m.rising.items) };

    ghost invariant = { λ m. by_keys (keyed_rows m.rising.items) ≡ keyed_rows m.rising.items };
}

impl Matched {
    /// No row.
    pub fn new(alloc: Global) -> Self
        ensures { result ≡ [] }
    {
        Matched {
            rising: Vec::new(alloc),
            map: BTreeMap::new(alloc),
            in_map: false,
        }
    }

    /// Puts a row by its key.
    #[tactic(auto, using(crate::proofs::Keyed::put_steps))]
    pub fn put(&mut self, alloc: Global, entry: Entry) -> Result<(), NoMemory>
        ensures { OnOk result (self.new ≡ insert_entry int_cmp self.old entry.key entry.row) }
    {
        if self.in_map {
            return put_in(&mut self.map, entry);
        }
        match to_last_key(self.rising.as_slice(), &entry) {
            Ordering::Greater => {
                self.rising.push(entry)?;
                Ok(())
            }
            _ => {
                self.map = map_with(alloc, &mut self.rising, entry)?;
                self.in_map = true;
                Ok(())
            }
        }
    }

    /// The rows with their keys, ascending.
    #[tactic(auto, using(crate::proofs::Keyed::entries_are))]
    pub fn into_entries(self, alloc: Global) -> Result<Entries, NoMemory>
        ensures { IfOk result (λ list. (rel : ℕ) → entries_of rel list ≡ of_relation rel self) }
    {
        let Matched {
            rising,
            map,
            in_map,
        } = self;
        if in_map {
            return list_entries(alloc, map);
        }
        Ok(Entries::from_vec(rising))
    }
}

/// How an entry's key stands to that of the last entry; above it where there is none.
fn to_last_key(entries: &[Entry], entry: &Entry) -> Ordering
    ensures { result ≡ to_last_key entries.now entry.now.key }
{
    match entries.last() {
        Some(last) => entry.key.cmp(&last.key),
        None => Ordering::Greater,
    }
}

/// Puts a row into a map.
fn put_in(map: &mut BTreeMap<i64, Row>, entry: Entry) -> Result<(), NoMemory>
    ensures { OnOk result (map.new.entries ≡ insert_entry int_cmp map.old.entries entry.key entry.row) }
{
    let Entry { key, row } = entry;
    map.insert(key, row)?;
    Ok(())
}

/// The map of the rows.
fn as_map(alloc: Global, entries: Vec<Entry>) -> Result<BTreeMap<i64, Row>, NoMemory>
    ensures { IfOk result (λ map. map.entries ≡ by_keys (keyed_rows entries.items)) }
{
    let mut map = BTreeMap::new(alloc);
    for entry in entries {
        put_in(&mut map, entry)?;
    }
    Ok(map)
}

/// The map of the rows, which it takes, with one more.
fn map_with(
    alloc: Global,
    entries: &mut Vec<Entry>,
    entry: Entry,
) -> Result<BTreeMap<i64, Row>, NoMemory>
    ensures map { IfOk result (λ map. map.entries ≡ insert_entry int_cmp (by_keys (keyed_rows entries.old.items)) entry.key entry.row) }
    ensures entries { entries.new.items ≡ [] }
{
    let taken = mem::replace(entries, Vec::new(alloc));
    let mut map = as_map(alloc, taken)?;
    put_in(&mut map, entry)?;
    Ok(map)
}

/// The rows of a map, with their keys.
fn list_entries(alloc: Global, entries: BTreeMap<i64, Row>) -> Result<Entries, NoMemory>
    ensures { IfOk result (λ list. (rel : ℕ) → entries_of rel list ≡ of_relation rel entries.entries) }
{
    let mut list = Vec::new(alloc);
    for (key, row) in entries {
        list.push(Entry { key, row })?;
    }
    Ok(Entries::from_vec(list))
}
