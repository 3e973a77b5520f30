//! The changes of a transaction under way.
ghost use Rattle.std.specs.Prelude.{◌≡◌, [], IfOk, OnOk, map, Some, None, Option, cond};
ghost use Rattle.std.specs.BTreeMap.{insert_entry};
ghost use Rattle.sdd_catalog.specs.Catalogue.{fragment_of};
ghost use Rattle.sdd_lang.specs.Database.{item_cmp};
ghost use Rattle.sdd_lang.specs.Effect.{with_change, with_updates, with_deletes, change_of};
ghost use Rattle.sdd_lang.specs.Fits.{IsRelation};
ghost use Rattle.sdd_lang.specs.Rising.{by_item, changed_item, put_each, to_last_item};
ghost use Rattle.sdd_lang.specs.Source.{entries_of};

use crate::assign::Assign;
use crate::replace::replace_columns;
use crate::source::Entry;
use sdd_base::{Change, Changes, FragNo, NoMemory, RelNo, Row};
use sdd_catalog::Catalogue;
use std::alloc::Global;
use std::cmp::Ordering;
use std::collections::BTreeMap;
use std::marker::Model;
use std::mem;

/// Changes by fragment and key, ascending, each once: the new row, or None where it is deleted.
///
/// As long as each is put above those before it they stand in a list, and putting one costs one
/// comparison. From the first that isn't on they stand in a map, and putting one costs a logarithmic
/// step.
#[derive(Drop)]
pub(crate) struct Pending {
    rising: Vec<Change>,
    map: BTreeMap<(u32, i64), Option<Row>>,
    in_map: bool,
}

impl Model for Pending {
    ghost use Rattle.std.specs.Prelude.{◌≡◌, cond};
    ghost use Rattle.sdd_lang.specs.Effect.{Changed};
    ghost use Rattle.sdd_lang.specs.Rising.{by_item, put_each};

    ghost Value = { Changed };

    ghost view = { λ p. cond p.in_map p.map.entries (by_item p.rising.items) };

    ghost invariant = { λ p. put_each (by_item p.rising.items) ≡ by_item p.rising.items };
}

/// The number of the fragment that holds the key.
fn fragment_of(catalogue: &Catalogue, rel: RelNo, key: &i64) -> u32
    requires { IsRelation catalogue.now rel.0 }
    ensures { result ≡ fragment_of catalogue.now rel.0 key.now }
{
    catalogue.fragment_of(rel, *key).0
}

impl Pending {
    pub(crate) fn new(alloc: Global) -> Self
        ensures { result ≡ [] }
    {
        Pending {
            rising: Vec::new(alloc),
            map: BTreeMap::new(alloc),
            in_map: false,
        }
    }

    /// Of two changes of one key the later wins.
    pub(crate) fn put(
        &mut self,
        catalogue: &Catalogue,
        rel: RelNo,
        key: &i64,
        row: Option<Row>,
    ) -> Result<(), NoMemory>
        requires { IsRelation catalogue.now rel.0 }
        ensures { OnOk result (self.new ≡ with_change catalogue.now self.old rel.0 key.now row) }
    {
        let frag = FragNo(fragment_of(catalogue, rel, key));
        self.add(Change {
            frag,
            key: *key,
            row,
        })
    }

    /// Puts a change by its item.
    #[tactic(auto, using(crate::proofs::Rising::add_steps))]
    fn add(&mut self, change: Change) -> Result<(), NoMemory>
        ensures { OnOk result (self.new ≡ insert_entry item_cmp self.old (changed_item change) change.row) }
    {
        if self.in_map {
            return put_in(&mut self.map, change);
        }
        match to_last(self.rising.as_slice(), &change) {
            Ordering::Greater => {
                self.rising.push(change)?;
                Ok(())
            }
            _ => {
                self.map = map_with(&mut self.rising, change)?;
                self.in_map = true;
                Ok(())
            }
        }
    }

    /// Replaces the rows, or answers false where a sum leaves the range of a whole number.
    pub(crate) fn update(
        &mut self,
        catalogue: &Catalogue,
        rel: RelNo,
        sets: &[Assign],
        entries: &[Entry],
    ) -> Result<bool, NoMemory>
        requires { IsRelation catalogue.now rel.0 }
        ensures { IfOk result (λ fits. cond fits (Some self.new) None ≡ with_updates catalogue.now sets.now self.old (entries_of rel.0 entries.now)) }
    {
        'entries: for entry in entries {
            match replace_columns(sets, &entry.row)? {
                Some(row) => self.put(catalogue, rel, &entry.key, Some(row))?,
                None => return Ok(false),
            }
        }
        Ok(true)
    }

    /// Deletes the rows.
    pub(crate) fn delete(
        &mut self,
        catalogue: &Catalogue,
        rel: RelNo,
        entries: &[Entry],
    ) -> Result<(), NoMemory>
        requires { IsRelation catalogue.now rel.0 }
        ensures { OnOk result (self.new ≡ with_deletes catalogue.now self.old (entries_of rel.0 entries.now)) }
    {
        'entries: for entry in entries {
            self.put(catalogue, rel, &entry.key, None)?;
        }
        Ok(())
    }

    /// The changes, ascending by fragment and then by key.
    #[tactic(auto, using(crate::proofs::Rising::changes_are))]
    pub(crate) fn into_changes(self, alloc: Global) -> Result<Changes, NoMemory>
        ensures { IfOk result (λ changes. changes ≡ map change_of self) }
    {
        let Pending {
            rising,
            map,
            in_map,
        } = self;
        if in_map {
            return list_changes(alloc, map);
        }
        Ok(Changes::from_vec(rising))
    }
}

/// How a change's item stands to that of the last change; above it where there is none.
fn to_last(changes: &[Change], change: &Change) -> Ordering
    ensures { result ≡ to_last_item changes.now (changed_item change.now) }
{
    match changes.last() {
        Some(last) => (change.frag.0.cmp(&last.frag.0)).then(change.key.cmp(&last.key)),
        None => Ordering::Greater,
    }
}

/// Puts a change into a map.
fn put_in(map: &mut BTreeMap<(u32, i64), Option<Row>>, change: Change) -> Result<(), NoMemory>
    ensures { OnOk result (map.new.entries ≡ insert_entry item_cmp map.old.entries (changed_item change) change.row) }
{
    let Change { frag, key, row } = change;
    map.insert((frag.0, key), row)?;
    Ok(())
}

/// The map of the changes.
fn as_map(
    alloc: Global,
    changes: Vec<Change>,
) -> Result<BTreeMap<(u32, i64), Option<Row>>, NoMemory>
    ensures { IfOk result (λ map. map.entries ≡ put_each (by_item changes.items)) }
{
    let mut map = BTreeMap::new(alloc);
    for change in changes {
        put_in(&mut map, change)?;
    }
    Ok(map)
}

/// The map of the changes, which it takes, with one more.
fn map_with(
    changes: &mut Vec<Change>,
    change: Change,
) -> Result<BTreeMap<(u32, i64), Option<Row>>, NoMemory>
    ensures map { IfOk result (λ map. map.entries ≡ insert_entry item_cmp (put_each (by_item changes.old.items)) (changed_item change) change.row) }
    ensures changes { changes.new.items ≡ [] }
{
    let alloc = *changes.allocator();
    let taken = mem::replace(changes, Vec::new(alloc));
    let mut map = as_map(alloc, taken)?;
    put_in(&mut map, change)?;
    Ok(map)
}

/// The changes of a map.
fn list_changes(
    alloc: Global,
    entries: BTreeMap<(u32, i64), Option<Row>>,
) -> Result<Changes, NoMemory>
    ensures { IfOk result (λ changes. changes ≡ map change_of entries.entries) }
{
    let mut changes = Vec::with_capacity(alloc, entries.len())?;
    'changes: for (at, row) in entries {
        changes.push(Change {
            frag: FragNo(at.0),
            key: at.1,
            row,
        })?;
    }
    Ok(Changes::from_vec(changes))
}
