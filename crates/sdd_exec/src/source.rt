//! What statements find in the rows of a snapshot.
ghost use Rattle.std.specs.Prelude.{◌≡◌, ◌+◌, [], length, fold, IfOk};
ghost use Rattle.sdd_lang.specs.All.{key_column, key_in, rows_lent};
ghost use Rattle.sdd_shipped.specs.Snapshots.{parts_for, found_for, chosen_for, with_chosen, of_relation};

use crate::joins::join;
use crate::matched::Matched;
use crate::parts::Parts;
use crate::snapshot::Snapshot;
use sdd_lang::{
    Answer, Catalogue, Condition, Entries, Entry, NoMemory, Parcel, Ref, RelNo, Row, Source, Value,
    meets_all, value_in,
};
use std::alloc::Global;

/// What a transaction's statements find in the rows that were shipped for its uses.
#[derive(Clone, Copy)]
pub struct Shipped<'a> {
    pub catalogue: &'a Catalogue,
    pub snap: &'a Snapshot,
}

/// The key column of a relation; 0 where there is no such relation.
fn key_column(catalogue: &Catalogue, rel: RelNo) -> u32
    ensures { result ≡ key_column catalogue.now rel.0 }
{
    let before = rel.0.saturating_sub(1);
    if before < catalogue.relations() {
        return catalogue.relation(RelNo(before + 1)).key;
    }
    0
}

/// The key of a relation's row; 0 where it has none.
fn key_of(catalogue: &Catalogue, rel: RelNo, row: &Row) -> i64
    ensures { result ≡ key_in catalogue.now rel.0 row.now }
{
    match value_in(row, key_column(catalogue, rel)) {
        Some(Value::Int(number)) => *number,
        _ => 0,
    }
}

/// A copy of a relation's row with its key.
fn key_entry(catalogue: &Catalogue, rel: RelNo, row: &Row) -> Result<Entry, NoMemory>
    ensures { IfOk result (λ entry. entry ≡ record { key = key_in catalogue.now rel.0 row.now; row = row.now }) }
{
    Ok(Entry {
        key: key_of(catalogue, rel, row),
        row: row.copy()?,
    })
}

/// Adds a row by its key, where it meets the conditions.
#[tactic(auto, using(crate::proofs::Shipping::entry_steps))]
fn add_entry(
    alloc: Global,
    entries: &mut Matched,
    catalogue: &Catalogue,
    rel: RelNo,
    conds: &[Condition],
    row: &Row,
) -> Result<(), NoMemory>
    ensures { IfOk result (λ _. of_relation rel.0 entries.new ≡ with_chosen catalogue.now rel.0 conds.now (of_relation rel.0 entries.old) row.now) }
{
    if !meets_all(conds, &[row]) {
        return Ok(());
    }
    entries.put(alloc, key_entry(catalogue, rel, row)?)
}

/// The rows that meet the conditions, by their keys.
#[tactic(auto, using(crate::proofs::Shipping::entry_steps))]
fn entries_by_key(
    alloc: Global,
    catalogue: &Catalogue,
    rel: RelNo,
    conds: &[Condition],
    rows: &[&Row],
) -> Result<Matched, NoMemory>
    ensures { IfOk result (λ entries. of_relation rel.0 entries ≡ fold (with_chosen catalogue.now rel.0 conds.now) [] (rows_lent rows.now)) }
{
    let mut entries = Matched::new(alloc);
    for row in rows {
        add_entry(alloc, &mut entries, catalogue, rel, conds, row)?;
    }
    Ok(entries)
}

/// The rows of the uses of a query.
fn parts<'a>(
    alloc: Global,
    snap: &'a Snapshot,
    before: u32,
    rels: &[RelNo],
) -> Result<Parts<'a>, NoMemory>
    ensures { IfOk result (λ parts. parts ≡ parts_for snap.now.value before (length rels.now)) }
{
    let mut parts = Parts::new(alloc);
    for part in 0..rels.len() {
        parts.push(snap.rows_for(alloc, u64::from(before) + part as u64 + 1)?)?;
    }
    Ok(parts)
}

impl Source for Shipped<'_> {
    ghost found = { λ s. found_for s.snap.now.value };

    ghost chosen = { λ s. chosen_for s.catalogue.now s.snap.now.value };

    fn query(
        &self,
        alloc: Global,
        before: u32,
        out: &[Ref],
        rels: &[RelNo],
        conds: &[Condition],
        room: usize,
    ) -> Result<Option<Answer>, NoMemory> {
        let parts = parts(alloc, self.snap, before, rels)?;
        join(alloc, &parts, out, conds, room)
    }

    fn find_matching(
        &self,
        alloc: Global,
        before: u32,
        rel: RelNo,
        conds: &[Condition],
    ) -> Result<Entries, NoMemory> {
        let rows = self.snap.rows_for(alloc, u64::from(before) + 1)?;
        let entries = entries_by_key(alloc, self.catalogue, rel, conds, rows.as_slice())?;
        Ok(entries.into_entries(alloc)?)
    }
}
