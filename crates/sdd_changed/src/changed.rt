//! A database as it is after changes.
ghost use Rattle.std.specs.Prelude.{◌≡◌, ◌+◌, ◌++◌, ◌∷◌, [], IfOk, filter, map};
ghost use Rattle.std.specs.List.Sorted.{IsStrictlySortedBy};
ghost use Rattle.std.specs.Map.{keys_of};
ghost use Rattle.sdd_lang.specs.All.{after_changes, chosen_in, item_cmp, may_join, rows_lent, rows_of};
ghost use Rattle.sdd_lang.specs.Source.{found_in};
ghost use Rattle.sdd_plain.specs.Parts.{standing};

use crate::matching::find_matching;
use crate::own_conditions::own_conditions;
use sdd_exec::{Parts, join};
use sdd_lang::{
    Answer, Catalogue, Change, Condition, Entries, Entry, Listed, NoMemory, Ref, RelNo, Row,
    RowList, Source,
};
use sdd_plain::Plain;
use std::alloc::Global;
use std::marker::Model;

/// A database with changes that were made to it, in their order. They are kept apart from its rows, so
/// that these stay for others.
#[derive(Drop)]
pub struct Changed<'a> {
    catalogue: &'a Catalogue,
    base: &'a Plain,
    changes: &'a [Change],
}

impl<'a> Model for Changed<'a> {
    ghost use Rattle.std.specs.List.Sorted.{IsStrictlySortedBy};
    ghost use Rattle.std.specs.Map.{keys_of};
    ghost use Rattle.sdd_lang.specs.All.{Database, after_changes, item_cmp};

    ghost Value = { Database };

    ghost view = { λ c. after_changes c.catalogue.now c.base.now.value c.changes.now };

    ghost invariant = { λ c. IsStrictlySortedBy item_cmp (keys_of c.base.now.value) };
}

/// The rows of entries.
fn rows_of_entries(alloc: Global, entries: Entries) -> Result<RowList, NoMemory>
    ensures { IfOk result (λ rows. rows ≡ map (λ e. e.row) entries) }
{
    let mut rows = Vec::new(alloc);
    'entries: for entry in entries.into_vec() {
        let Entry { key: _, row } = entry;
        rows.push(row)?;
    }
    Ok(RowList::from_vec(rows))
}

/// The rows, lent.
fn lend<'a>(alloc: Global, rows: &'a [Row]) -> Result<Vec<&'a Row>, NoMemory>
    ensures { IfOk result (λ lent. rows_lent lent.items ≡ rows.now) }
{
    let mut lent = Vec::with_capacity(alloc, rows.len())?;
    'rows: for row in rows {
        lent.push(row)?;
    }
    Ok(lent)
}

/// The lists of rows, lent as parts of a query.
fn lend_all<'a>(alloc: Global, lists: &'a [RowList]) -> Result<Parts<'a>, NoMemory>
    ensures { IfOk result (λ parts. parts ≡ lists.now) }
{
    let mut parts = Parts::new(alloc);
    'lists: for rows in lists {
        parts.push(lend(alloc, rows.as_slice())?)?;
    }
    Ok(parts)
}

impl<'a> Changed<'a> {
    /// The database with these changes.
    pub fn new(catalogue: &'a Catalogue, base: &'a Plain, changes: &'a [Change]) -> Self
        requires { IsStrictlySortedBy item_cmp (keys_of base.now.value) }
        ensures { result ≡ after_changes catalogue.now base.now.value changes.now }
    {
        Changed {
            catalogue,
            base,
            changes,
        }
    }

    /// The rows of the relation that may stand in the part.
    fn part(
        &self,
        alloc: Global,
        rel: RelNo,
        part: usize,
        conds: &[Condition],
    ) -> Result<RowList, NoMemory>
        ensures { IfOk result (λ rows. rows ≡ filter (may_join conds.now part) (rows_of self.now rel.0)) }
    {
        let own = own_conditions(alloc, part, conds)?;
        rows_of_entries(alloc, self.find_matching(alloc, 0, rel, own.as_slice())?)
    }

    /// Of each relation the rows that may stand in its part.
    fn parts(
        &self,
        alloc: Global,
        rels: &[RelNo],
        conds: &[Condition],
    ) -> Result<Vec<RowList>, NoMemory>
        ensures { IfOk result (λ lists. lists.items ≡ standing self.now conds.now 1 rels.now) }
    {
        let mut lists = Vec::new(alloc);
        'rels: for i in 0..rels.len() {
            lists.push(self.part(alloc, rels[i], i + 1, conds)?)?;
        }
        Ok(lists)
    }
}

impl<'a> Source for Changed<'a> {
    ghost found = { λ db. found_in db };

    ghost chosen = { λ db. chosen_in db };

    #[tactic(auto, using(sdd_plain::proofs::Answering::answer_standing))]
    fn query(
        &self,
        alloc: Global,
        before: u32,
        out: &[Ref],
        rels: &[RelNo],
        conds: &[Condition],
        room: usize,
    ) -> Result<Option<Answer>, NoMemory> {
        if self.changes.is_empty() {
            return self.base.query(alloc, before, out, rels, conds, room);
        }
        let lists = self.parts(alloc, rels, conds)?;
        let parts = lend_all(alloc, lists.as_slice())?;
        join(alloc, &parts, out, conds, room)
    }

    fn find_matching(
        &self,
        alloc: Global,
        _before: u32,
        rel: RelNo,
        conds: &[Condition],
    ) -> Result<Entries, NoMemory> {
        find_matching(alloc, self.catalogue, self.base, self.changes, rel, conds)
    }
}
