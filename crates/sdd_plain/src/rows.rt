//! The rows of all relations in memory.
ghost use Rattle.std.specs.Prelude.{◌≡◌, ◌==◌, ◌&&◌, ◌-◌, [], All, IsTrue, IfOk, OnOk, filter, slice_index};
ghost use Rattle.sdd_lang.specs.All.{FitsStart, Item, Row as OfRow, after_changes, all_keys, changed_by, chosen, common, database_of, entries_of, fragment_at, may_join, rows_lent, rows_of, with_row, without_row};
ghost use Rattle.sdd_plain.specs.Held.{HasKey, AreNear, is_within};
ghost use Rattle.sdd_plain.specs.Parts.{standing};

use crate::narrowing::keys_of_part;
use sdd_exec::Parts;
use sdd_lang::{
    Catalogue, Change, Changes, Condition, Entries, Entry, FragNo, Keys, NoMemory, Parcel, RelNo,
    Row, Value, key_of, may_join, meets_all, value_in,
};
use std::alloc::Global;
use std::collections::BTreeMap;
use std::collections::btree_map::Range;
use std::marker::Model;

/// Rows by relation and key.
#[derive(Drop)]
pub(crate) struct Rows {
    rows: BTreeMap<(u32, i64), Row>,
    /// The key columns of the relations, as they were given at first.
    columns: Vec<u32>,
    /// Whether each row has its key in its relation's column of these. It has, unless a caller goes
    /// on with another catalogue.
    keyed: bool,
}

impl Model for Rows {
    ghost use Rattle.sdd_lang.specs.All.{Database};
    ghost use Rattle.sdd_plain.specs.Held.{AreHeld, AreKeyed};

    ghost Value = { Database };

    ghost view = { λ r. r.rows.entries };

    ghost invariant = { λ r. AreHeld r.rows.entries × AreKeyed r.keyed r.columns.items r.rows.entries };
}

impl Rows {
    /// No row, of relations with these key columns.
    fn new(alloc: Global, columns: Vec<u32>) -> Self
        ensures { result ≡ [] }
    {
        Rows {
            rows: BTreeMap::new(alloc),
            columns,
            keyed: true,
        }
    }

    /// Puts the row at its key. Costs O(log n).
    pub(crate) fn put(&mut self, item: (u32, i64), row: Row) -> Result<(), NoMemory>
        ensures { OnOk result (self.new ≡ with_row self.old item row) }
    {
        self.keyed = keyed_with(self.keyed, self.columns.as_slice(), &item, &row);
        self.rows.insert(item, row)?;
        Ok(())
    }

    /// Takes the row of the item away, where it has one. Costs O(log n).
    fn remove(&mut self, item: (u32, i64))
        ensures { self.new ≡ without_row self.old item }
    {
        self.rows.remove(&item);
    }

    /// Makes the change. Costs O(log n); the row is moved.
    pub(crate) fn change(&mut self, catalogue: &Catalogue, change: Change) -> Result<(), NoMemory>
        ensures { OnOk result (self.new ≡ changed_by catalogue.now self.old change) }
    {
        let Change { frag, key, row } = change;
        let item = (relation_of(catalogue, frag), key);
        match row {
            Some(row) => self.put(item, row),
            None => {
                self.remove(item);
                Ok(())
            }
        }
    }

    /// The rows of the relation that have these keys, with their items, ascending by key.
    fn within(&self, rel: RelNo, keys: &Keys) -> Range<'_, (u32, i64), Row>
        ensures { result ≡ filter (λ e. (e.0.0 == rel.0) && is_within (common keys.now all_keys) e.0.1) self.now }
    {
        match keys.ends() {
            Some((from, to)) => self.rows.range((rel.0, from)..=(rel.0, to)),
            None => self.rows.range((rel.0, 0)..(rel.0, 0)),
        }
    }

    /// Keys among which is that of each row of the relation that may stand in the part.
    fn keys_near(
        &self,
        alloc: Global,
        rel: RelNo,
        part: usize,
        conds: &[Condition],
    ) -> Result<Keys, NoMemory>
        ensures { IfOk result (AreNear self.now rel.0 part conds.now) }
    {
        if !self.keyed {
            return Ok(Keys::all());
        }
        let column = key_column(self.columns.as_slice(), rel.0);
        keys_of_part(alloc, column, part, conds)
    }

    /// Rows of the relation with their items, ascending by key, among them all that may stand in the
    /// part. Where the part's restrictions are on the key, these are the rows whose keys they allow.
    fn near(
        &self,
        alloc: Global,
        rel: RelNo,
        part: usize,
        conds: &[Condition],
    ) -> Result<Range<'_, (u32, i64), Row>, NoMemory>
        ensures { let stands = λ (e : Item × OfRow). may_join conds.now part e.1 in
            IfOk result (λ rows. filter stands rows ≡ filter (λ e. (e.0.0 == rel.0) && stands e) self.now) }
    {
        let keys = self.keys_near(alloc, rel, part, conds)?;
        Ok(self.within(rel, &keys))
    }

    /// The rows of the relation that meet the conditions, with their keys, ascending by key.
    pub(crate) fn find_matching(
        &self,
        alloc: Global,
        rel: RelNo,
        conds: &[Condition],
    ) -> Result<Entries, NoMemory>
        ensures { IfOk result (λ entries. entries_of rel.0 entries ≡ chosen self.now rel.0 conds.now) }
    {
        let mut entries = Vec::new(alloc);
        'rows: for (item, row) in self.near(alloc, rel, 1, conds)? {
            if meets_all(conds, &[row]) {
                entries.push(Entry {
                    key: item.1,
                    row: row.copy()?,
                })?;
            }
        }
        Ok(Entries::from_vec(entries))
    }

    /// The rows of the relation that may stand in the part.
    fn part(
        &self,
        alloc: Global,
        rel: RelNo,
        part: usize,
        conds: &[Condition],
    ) -> Result<Vec<&Row>, NoMemory>
        ensures { IfOk result (λ rows. rows_lent rows.items ≡ filter (may_join conds.now part) (rows_of self.now rel.0)) }
    {
        let mut rows = Vec::new(alloc);
        'rows: for (_, row) in self.near(alloc, rel, part, conds)? {
            if may_join(conds, part, row) {
                rows.push(row)?;
            }
        }
        Ok(rows)
    }

    /// Of each relation the rows that may stand in its part.
    pub(crate) fn parts(
        &self,
        alloc: Global,
        rels: &[RelNo],
        conds: &[Condition],
    ) -> Result<Parts<'_>, NoMemory>
        ensures { IfOk result (λ parts. parts ≡ standing self.now conds.now 1 rels.now) }
    {
        let mut parts = Parts::new(alloc);
        'rels: for i in 0..rels.len() {
            parts.push(self.part(alloc, rels[i], i + 1, conds)?)?;
        }
        Ok(parts)
    }

    /// Makes the changes, in order; the rows are moved.
    pub(crate) fn apply(&mut self, catalogue: &Catalogue, changes: Changes) -> Result<(), NoMemory>
        ensures { OnOk result (self.new ≡ after_changes catalogue.now self.old changes) }
    {
        'changes: for change in changes.into_vec() {
            self.change(catalogue, change)?;
        }
        Ok(())
    }

    /// The rows, of which the later of two with one key stands.
    pub(crate) fn from_rows(
        alloc: Global,
        catalogue: &Catalogue,
        rows: &[(RelNo, Row)],
    ) -> Result<Self, NoMemory>
        requires { All (FitsStart catalogue.now) rows.now }
        ensures { IfOk result (λ built. built ≡ database_of catalogue.now rows.now) }
    {
        let mut built = Rows::new(alloc, key_columns(alloc, catalogue)?);
        'rows: for (rel, row) in rows {
            let key = key_of(catalogue, *rel, row);
            built.put((rel.0, key), row.copy()?)?;
        }
        Ok(built)
    }
}

/// The relation of a fragment, or 0 where the fragment isn't there. Number 0 stands for fragment 1.
pub fn relation_of(catalogue: &Catalogue, frag: FragNo) -> u32
    ensures { result ≡ (fragment_at catalogue.now frag.0).rel.0 }
{
    let number = frag.0.max(1);
    if number <= catalogue.fragments() {
        catalogue.fragment(FragNo(number)).rel.0
    } else {
        0
    }
}

/// The key columns of the relations, in their order.
fn key_columns(alloc: Global, catalogue: &Catalogue) -> Result<Vec<u32>, NoMemory> {
    catalogue.law_is_sound();
    let mut columns = Vec::new(alloc);
    for number in 1..catalogue.relations() + 1 {
        columns.push(catalogue.relation(RelNo(number)).key)?;
    }
    Ok(columns)
}

/// The key column of a relation, where these are the relations' key columns; 0 where none is given.
fn key_column(columns: &[u32], rel: u32) -> u32
    ensures { result ≡ slice_index columns.now (rel - 1) }
{
    columns
        .get(rel.saturating_sub(1) as usize)
        .copied()
        .unwrap_or(0)
}

/// Whether the row has its item's key in its relation's key column.
fn has_key(columns: &[u32], item: &(u32, i64), row: &Row) -> bool
    ensures { IsTrue result → HasKey columns.now (item.now, row.now) }
{
    match value_in(row, key_column(columns, item.0)) {
        Some(Value::Int(number)) => *number == item.1,
        _ => false,
    }
}

/// Whether all rows have their keys there, where all had before.
fn keyed_with(keyed: bool, columns: &[u32], item: &(u32, i64), row: &Row) -> bool
    ensures { IsTrue result → IsTrue keyed × HasKey columns.now (item.now, row.now) }
{
    keyed && has_key(columns, item, row)
}
