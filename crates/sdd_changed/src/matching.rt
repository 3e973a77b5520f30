//! The rows that meet conditions, of a database with changes that are kept apart from it.
ghost use Rattle.std.specs.Prelude.{◌≡◌, ◌==◌, [], IfOk, OnOk, Some, filter, fold, map};
ghost use Rattle.std.specs.List.Sorted.{IsStrictlySortedBy};
ghost use Rattle.std.specs.Map.{keys_of};
ghost use Rattle.sdd_lang.specs.All.{Database, after_changes, chosen, entries_of, item_cmp, item_of, with_row, without_row};
ghost use Rattle.sdd_plain.specs.Lent.{as_of};
ghost use Rattle.sdd_changed.specs.Matching.{entered, lent_changes, with_matching};

use sdd_lang::{
    Catalogue, Change, Condition, Entries, Entry, NoMemory, Parcel, RelNo, Row, Source, meets_all,
};
use sdd_plain::{Plain, relation_of};
use std::alloc::Global;
use std::collections::BTreeMap;

type Rows = BTreeMap<(u32, i64), Row>;

/// The changes of rows of the relation.
fn changes_of<'a>(
    alloc: Global,
    catalogue: &Catalogue,
    changes: &'a [Change],
    rel: RelNo,
) -> Result<Vec<&'a Change>, NoMemory>
    ensures { IfOk result (λ own. lent_changes own.items
        ≡ filter (λ c. (item_of catalogue.now c).0 == rel.0) changes.now) }
{
    let mut own = Vec::new(alloc);
    'changes: for change in changes {
        if relation_of(catalogue, change.frag) == rel.0 {
            own.push(change)?;
        }
    }
    Ok(own)
}

/// Puts the row at its item.
fn put(rows: &mut Rows, item: (u32, i64), row: Row) -> Result<(), NoMemory>
    ensures { OnOk result (rows.new.entries ≡ with_row rows.old.entries item row) }
{
    rows.insert(item, row)?;
    Ok(())
}

/// Takes the row of the item away, where it has one.
fn remove(rows: &mut Rows, item: (u32, i64))
    ensures { rows.new.entries ≡ without_row rows.old.entries item }
{
    rows.remove(&item);
}

/// Puts the row at its item where it meets the conditions; where it doesn't, the item has none.
fn put_matching(
    rows: &mut Rows,
    conds: &[Condition],
    item: (u32, i64),
    row: &Row,
) -> Result<(), NoMemory>
    ensures { OnOk result (rows.new.entries ≡ with_matching conds.now rows.old.entries item (Some row.now)) }
{
    if meets_all(conds, &[row]) {
        return put(rows, item, row.copy()?);
    }
    remove(rows, item);
    Ok(())
}

/// Makes a change of a row of the relation: the new row stands where it meets the conditions.
fn make_change(
    rows: &mut Rows,
    rel: RelNo,
    conds: &[Condition],
    change: &Change,
) -> Result<(), NoMemory>
    ensures { OnOk result (rows.new.entries ≡ with_matching conds.now rows.old.entries (rel.0, change.now.key) change.now.row) }
{
    let item = (rel.0, change.key);
    match &change.row {
        Some(row) => put_matching(rows, conds, item, row),
        None => {
            remove(rows, item);
            Ok(())
        }
    }
}

/// The entries by their items.
fn by_item(alloc: Global, rel: RelNo, entries: Entries) -> Result<Rows, NoMemory>
    ensures { IfOk result (λ rows. rows.entries ≡ entered (entries_of rel.0 entries)) }
{
    let mut rows = BTreeMap::new(alloc);
    'entries: for entry in entries.into_vec() {
        let Entry { key, row } = entry;
        put(&mut rows, (rel.0, key), row)?;
    }
    Ok(rows)
}

/// The rows as entries of the relation.
fn as_entries(alloc: Global, rel: RelNo, rows: Rows) -> Result<Entries, NoMemory>
    ensures { IfOk result (λ entries. entries_of rel.0 entries ≡ map (as_of rel.0) rows.entries) }
{
    let mut entries = Vec::with_capacity(alloc, rows.len())?;
    'rows: for (item, row) in rows {
        entries.push(Entry { key: item.1, row })?;
    }
    Ok(Entries::from_vec(entries))
}

/// The entries of the relation as they are after changes of its rows.
fn with_changes(
    alloc: Global,
    rel: RelNo,
    conds: &[Condition],
    entries: Entries,
    changes: &[&Change],
) -> Result<Entries, NoMemory>
    ensures { IfOk result (λ made. entries_of rel.0 made ≡ map (as_of rel.0)
        (fold (λ rows c. with_matching conds.now rows (rel.0, c.key) c.row) (entered (entries_of rel.0 entries)) (lent_changes changes.now))) }
{
    let mut rows = by_item(alloc, rel, entries)?;
    'changes: for change in changes {
        make_change(&mut rows, rel, conds, *change)?;
    }
    as_entries(alloc, rel, rows)
}

/// The rows of the relation that meet the conditions, once the changes are made, with their keys,
/// ascending by key. Costs what it costs to find such rows of the database, a test for each change,
/// and where one is of the relation a logarithmic step for each row.
pub(crate) fn find_matching(
    alloc: Global,
    catalogue: &Catalogue,
    base: &Plain,
    changes: &[Change],
    rel: RelNo,
    conds: &[Condition],
) -> Result<Entries, NoMemory>
    requires { IsStrictlySortedBy item_cmp (keys_of base.now.value) }
    ensures { IfOk result (λ entries. entries_of rel.0 entries
        ≡ chosen (after_changes catalogue.now base.now.value changes.now) rel.0 conds.now) }
{
    let entries = base.find_matching(alloc, 0, rel, conds)?;
    let own = changes_of(alloc, catalogue, changes, rel)?;
    if own.is_empty() {
        return Ok(entries);
    }
    with_changes(alloc, rel, conds, entries, own.as_slice())
}
