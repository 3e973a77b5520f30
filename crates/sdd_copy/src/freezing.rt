//! The rows of one use, taken from the copies of its fragments.
ghost use Rattle.std.specs.Prelude.{◌≡◌, ◌++◌, OnOk, IfOk, IsTrue, fold, map, []};
ghost use Rattle.std.specs.List.{flat_map};
ghost use Rattle.std.specs.Option.{option_copied};
ghost use Rattle.sdd_copy.specs.Copies.{rows_at};
ghost use Rattle.sdd_copy.specs.Ascending.{ascend, is_after};
ghost use Rattle.sdd_copy.specs.Frozen.{chosen, rows_for, with_keyed};

use crate::copies::Copies;
use sdd_lang::{NoMemory, Row, RowList, Use};
use std::alloc::Global;
use std::collections::BTreeMap;

/// Of all fragments of the use the rows that meet its restrictions, ascending by key.
///
/// The copies give them ascending, and the key ranges of fragments mostly follow one another. Then
/// they stand in order as they were found; else a map puts them in order.
pub(crate) fn rows_for(alloc: Global, one: &Use, copies: &Copies) -> Result<RowList, NoMemory>
    requires { IsTrue copies.now.live }
    ensures { IfOk result (λ rows. rows ≡ rows_for (rows_at copies.now.value) one.now) }
{
    let found = found_in(alloc, one, copies)?;
    if ascend(found.as_slice()) {
        without_keys(alloc, found)
    } else {
        in_order(alloc, found)
    }
}

/// The rows that meet the restrictions of the use, fragment after fragment.
fn found_in(alloc: Global, one: &Use, copies: &Copies) -> Result<Vec<(i64, Row)>, NoMemory>
    requires { IsTrue copies.now.live }
    ensures { IfOk result (λ found. found.items
        ≡ flat_map (λ f. chosen one.now.restrictions (rows_at copies.now.value f.0)) one.now.frags) }
{
    let mut found = Vec::new(alloc);
    for frag in one.frags.as_slice() {
        if let Some(copy) = copies.at(*frag) {
            add_all(&mut found, copy.find_meeting(one.restrictions.as_slice())?)?;
        }
    }
    Ok(found)
}

/// Puts more rows after those that were found, of which the first are taken as they stand.
fn add_all(found: &mut Vec<(i64, Row)>, mut more: Vec<(i64, Row)>) -> Result<(), NoMemory>
    ensures { OnOk result (found.new.items ≡ found.old.items ++ more.items) }
{
    if found.is_empty() {
        *found = more;
    } else {
        found.append(&mut more)?;
    }
    Ok(())
}

/// Whether each key is greater than the one before it.
fn ascend(rows: &[(i64, Row)]) -> bool
    ensures { result ≡ ascend None rows.now }
{
    let mut last = None;
    for row in rows {
        if !is_after(last, row) {
            return false;
        }
        last = Some(row);
    }
    true
}

fn is_after(last: Option<&(i64, Row)>, row: &(i64, Row)) -> bool
    ensures { result ≡ is_after (option_copied last.entry) row.now }
{
    match last {
        None => true,
        Some(last) => last.0 < row.0,
    }
}

/// The rows as they stand.
fn without_keys(alloc: Global, found: Vec<(i64, Row)>) -> Result<RowList, NoMemory>
    ensures { IfOk result (λ rows. rows ≡ map (λ e. e.1) found.items) }
{
    let mut rows = Vec::with_capacity(alloc, found.len())?;
    for (_, row) in found {
        rows.push(row)?;
    }
    Ok(RowList::from_vec(rows))
}

/// The rows ascending by key; of two with one key the later stands.
fn in_order(alloc: Global, found: Vec<(i64, Row)>) -> Result<RowList, NoMemory>
    ensures { IfOk result (λ rows. rows ≡ map (λ e. e.1) (fold with_keyed [] found.items)) }
{
    let merged = merge_rows(alloc, found)?;
    Ok(RowList::from_vec(rows_in(alloc, merged)?))
}

fn rows_in(alloc: Global, merged: BTreeMap<i64, Row>) -> Result<Vec<Row>, NoMemory>
    ensures { IfOk result (λ rows. rows.items ≡ map (λ e. e.1) merged.entries) }
{
    Ok(merged.into_values().collect(alloc)?)
}

fn merge_rows(alloc: Global, found: Vec<(i64, Row)>) -> Result<BTreeMap<i64, Row>, NoMemory>
    ensures { IfOk result (λ merged. merged.entries ≡ fold with_keyed [] found.items) }
{
    let mut merged: BTreeMap<i64, Row> = BTreeMap::new(alloc);
    for row in found {
        add_row(&mut merged, row)?;
    }
    Ok(merged)
}

fn add_row(merged: &mut BTreeMap<i64, Row>, row: (i64, Row)) -> Result<(), NoMemory>
    ensures { OnOk result (merged.new.entries ≡ with_keyed merged.old.entries row) }
{
    merged.insert(row.0, row.1)?;
    Ok(())
}
