//! The rows that an event left.
ghost use Rattle.std.specs.Prelude.{◌≡◌, ◌∷◌, [], fold, length, true, IfOk, IsTrue, OnOk};
ghost use Rattle.std.specs.List.{list_any};
ghost use Rattle.std.specs.Option.{option_copied};
ghost use Rattle.sdd_moments.specs.obligations.All.{Change as Item, Input, Log, Represent, has_copy, history, is_here};
ghost use Rattle.sdd_moments.specs.obligations.copy.Contents.{Dated};
ghost use Rattle.sdd_moments.specs.schedule.world.Represents.{Calm};
ghost use Rattle.sdd_watch.specs.Happens.{applied_by, applied_in, changes_applied, is_of_item, report_row, row_left, rows_of, with_row};
ghost use Rattle.sdd_watch.specs.Watching.{AreCommits};
ghost use Rattle.sdd_moments.specs.Changes.{IsBetween};

use crate::commits::Commits;
use sdd_inside::RowDelta;
use sdd_moments::{
    Catalogue, Change, Copies, DmNo, FragNo, NoMemory, Parcel, Rec, Row, TxnNo, World,
};
use std::alloc::Global;

/// Whether a data module has a copy of a fragment, whose number is taken as 1 at least, since
/// fragments are counted from 1.
fn has_copy(catalogue: &Catalogue, dm: DmNo, frag: FragNo) -> bool
    ensures { result ≡ has_copy catalogue.now dm.0 frag.0 }
{
    let number = frag.0.max(1);
    if number > catalogue.fragments() {
        return false;
    }
    catalogue.has_copy(dm, FragNo(number))
}

/// The row that the copy of a fragment has at a key, lent.
fn row_at<'c>(copies: &'c Copies, frag: FragNo, key: &i64) -> Option<&'c Row>
    requires live { IsTrue copies.now.live }
    requires here { is_here copies.now.value frag.0 ≡ true }
    ensures { (xs : Dated) → Represent copies.now.value xs → (change : Item) → change.frag ≡ frag
        → change.key ≡ key.now → option_copied result ≡ row_left xs change }
{
    match copies.at(frag) {
        Some(copy) => copy.row(key),
        None => unreachable!(),
    }
}

/// A copy of it.
fn row_in(copies: &Copies, frag: FragNo, key: &i64) -> Result<Option<Row>, NoMemory>
    requires live { IsTrue copies.now.live }
    requires here { is_here copies.now.value frag.0 ≡ true }
    ensures { IfOk result (λ row. (xs : Dated) → Represent copies.now.value xs
        → (change : Item) → change.frag ≡ frag → change.key ≡ key.now → row ≡ row_left xs change) }
{
    match row_at(copies, frag, key) {
        Some(row) => Ok(Some(row.copy()?)),
        None => Ok(None),
    }
}

/// Whether a row is of the item of a change.
fn is_of_item(row: &RowDelta, dm: DmNo, change: &Change) -> bool
    ensures { result ≡ is_of_item (dm, change.now) row.now }
{
    row.dm.0 == dm.0 && (row.item.frag.0 == change.frag.0 && row.item.key == change.key)
}

/// Whether one of these rows is of the item of a change.
fn has_item(rows: &[RowDelta], dm: DmNo, change: &Change) -> bool
    ensures { result ≡ list_any (is_of_item (dm, change.now)) rows.now }
{
    rows.iter().any(|row| is_of_item(row, dm, change))
}

/// The row of the item of a change, as a data module's copy has it.
fn report_row(world: &World<'_>, dm: DmNo, change: &Change) -> Result<RowDelta, NoMemory>
    requires { (g : Input) × (log : Log) × Calm world.now g log
        × (has_copy g.catalogue dm.0 change.now.frag.0 ≡ true) }
    ensures { IfOk result (λ row. (g : Input) (log : Log) → Calm world.now g log
        → has_copy g.catalogue dm.0 change.now.frag.0 ≡ true
        → row ≡ report_row g log (dm, change.now)) }
{
    let row = row_in(world.sites().copies(dm), change.frag, &change.key)?;
    Ok(RowDelta {
        dm,
        item: Change {
            frag: change.frag,
            key: change.key,
            row,
        },
    })
}

/// Adds the row of the item of a change that was applied, unless it is there.
fn add_row(
    world: &World<'_>,
    dm: DmNo,
    change: &Change,
    rows: &mut Vec<RowDelta>,
) -> Result<(), NoMemory>
    requires { (g : Input) × (log : Log) × Calm world.now g log
        × (has_copy g.catalogue dm.0 change.now.frag.0 ≡ true) }
    ensures { OnOk result ((g : Input) (log : Log) → Calm world.now g log
        → has_copy g.catalogue dm.0 change.now.frag.0 ≡ true
        → rows.new.items ≡ with_row g log rows.old.items (dm, change.now)) }
{
    if has_item(rows.as_slice(), dm, change) {
        return Ok(());
    }
    rows.push(report_row(world, dm, change)?)?;
    Ok(())
}

/// The same, where the data module has a copy of the fragment of the change.
fn add_here(
    world: &World<'_>,
    dm: DmNo,
    change: &Change,
    rows: &mut Vec<RowDelta>,
) -> Result<(), NoMemory>
    requires { (g : Input) × (log : Log) × Calm world.now g log }
    ensures { OnOk result ((g : Input) (log : Log) → Calm world.now g log → rows.new.items
        ≡ fold (with_row g log) rows.old.items (changes_applied g dm (change.now ∷ []))) }
{
    if !has_copy(world.whole(), dm, change.frag) {
        return Ok(());
    }
    add_row(world, dm, change, rows)?;
    Ok(())
}

/// Adds the rows of the items of changes that were applied.
fn add_rows(
    world: &World<'_>,
    dm: DmNo,
    changes: &[Change],
    rows: &mut Vec<RowDelta>,
) -> Result<(), NoMemory>
    requires { (g : Input) × (log : Log) × Calm world.now g log }
    ensures { OnOk result ((g : Input) (log : Log) → Calm world.now g log → rows.new.items
        ≡ fold (with_row g log) rows.old.items (changes_applied g dm changes.now)) }
{
    for change in changes {
        add_here(world, dm, change, rows)?;
    }
    Ok(())
}

/// The transaction that a record applies, and where.
fn applied_in(made: &(u32, Rec)) -> Option<(TxnNo, DmNo)>
    ensures { result ≡ applied_in made.now }
{
    match &made.1 {
        Rec::Apply { txn, dm, .. } => Some((*txn, *dm)),
        _ => None,
    }
}

/// Adds the rows of what a record applied.
fn add_applied(
    world: &World<'_>,
    commits: &Commits,
    records: &[(u32, Rec)],
    made: &(u32, Rec),
    rows: &mut Vec<RowDelta>,
) -> Result<(), NoMemory>
    requires calm { (g : Input) × (log : Log) × Calm world.now g log }
    requires commits { AreCommits records.now commits.now }
    ensures { OnOk result ((g : Input) (log : Log) → Calm world.now g log
        → records.now ≡ history log → rows.new.items
        ≡ fold (with_row g log) rows.old.items (applied_by g (history log) made.now)) }
{
    match applied_in(made) {
        Some((txn, dm)) => add_rows(world, dm, commits.changes(records, txn), rows),
        None => Ok(()),
    }
}

/// The rows of the items to which changes were applied by the records from a place on.
pub(crate) fn rows_from(
    alloc: Global,
    world: &World<'_>,
    commits: &Commits,
    from: usize,
) -> Result<Vec<RowDelta>, NoMemory>
    requires { (g : Input) × (log : Log) × Calm world.now g log
        × AreCommits (history log) commits.now }
    ensures { IfOk result (λ rows. (g : Input) (old new : Log) → Calm world.now g new
        → IsBetween g old new → from ≡ length (history old) → rows.items ≡ rows_of g old new) }
{
    let records = world.history().as_slice();
    let mut rows = Vec::new(alloc);
    for place in from..records.len() {
        add_applied(world, commits, records, &records[place], &mut rows)?;
    }
    Ok(rows)
}
