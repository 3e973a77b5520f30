//! Which rows stay.
ghost use Rattle.std.specs.Prelude.{◌≡◌, ◌++◌, ◌&&◌, IfOk, OnOk, is_some};
ghost use Rattle.std.specs.BTreeMap.{is_at};
ghost use Rattle.std.specs.List.{All, flat_map, list_all, list_any};
ghost use Rattle.std.specs.Map.{lookup};
ghost use Rattle.sdd_lang.specs.All.{FitsStart, FitsStatement, FitsTxn, IsRelation, database_of, item_cmp, key_column, key_in, with_row};
ghost use Rattle.sdd_lang.specs.declared.transaction.Txn.{Txn as OfTxn};
ghost use Rattle.sdd_robust_laws.specs.Accesses.{is_equality, is_key_equality, is_one_key, may_delete, stays};
ghost use Rattle.sdd_robust.specs.Settings.{deleted_by, deleted_in, is_in_range, lent_rows};

use crate::key_range::{KeyRange, range_of_part};
use sdd_lang::{Catalogue, Condition, NoMemory, Op, RelNo, Row, Stmt, Txn, key_of};
use std::alloc::Global;
use std::collections::BTreeMap;
use std::marker::Model;

/// The transactions of a workload and the database with which it begins, laid out for the question which
/// rows stay: those that are there at first, and that no transaction of the workload may delete.
#[derive(Drop)]
pub(crate) struct Staying<'a> {
    catalogue: &'a Catalogue,
    txns: &'a [Txn],
    rows: BTreeMap<(u32, i64), &'a Row>,
    /// Of each delete the rows that it may delete.
    deleted: Vec<KeyRange>,
}

impl<'a> Model for Staying<'a> {
    ghost use Rattle.std.specs.Prelude.{◌≡◌};
    ghost use Rattle.sdd_robust.specs.Settings.{Setting, deleted_in, lent_rows};

    ghost Value = { Setting };

    ghost view = { λ s. record { cat = s.catalogue.now; work = s.txns.now; first = lent_rows s.rows.entries } };

    ghost invariant = { λ s. s.deleted.items ≡ deleted_in s.catalogue.now s.txns.now };
}

impl<'a> Staying<'a> {
    /// Costs a logarithmic step for each row, and time and memory in the deletes.
    pub(crate) fn of(
        alloc: Global,
        catalogue: &'a Catalogue,
        rows: &'a [(RelNo, Row)],
        txns: &'a [Txn],
    ) -> Result<Staying<'a>, NoMemory>
        requires rows { All (FitsStart catalogue.now) rows.now }
        requires txns { All (FitsTxn catalogue.now) txns.now }
        ensures { IfOk result (λ s. s ≡ record { cat = catalogue.now; work = txns.now; first = database_of catalogue.now rows.now }) }
    {
        let deleted = deleted_in(alloc, catalogue, txns)?;
        let rows = rows_by_item(alloc, catalogue, rows)?;
        Ok(Staying {
            catalogue,
            txns,
            rows,
            deleted,
        })
    }

    /// Whether there is a row at first. Costs a logarithmic step.
    fn is_there(&self, rel: RelNo, key: &i64) -> bool
        ensures { result ≡ is_some (lookup (is_at (item_cmp (rel.0, key.now))) self.now.first) }
    {
        self.rows.contains_key(&(rel.0, *key))
    }

    /// Whether some transaction may delete the row. Costs time in the deletes.
    fn may_go(&self, rel: RelNo, key: &i64) -> bool
        ensures { result ≡ list_any (λ (txn : OfTxn). list_any (may_delete self.now.cat (rel.0, key.now)) txn.statements) self.now.work }
    {
        let _ = &self.txns;
        is_in_one(rel, key, self.deleted.as_slice())
    }

    /// Whether there is a row at first, and no transaction may delete it.
    fn stays(&self, rel: RelNo, key: &i64) -> bool
        ensures { result ≡ stays self.now.cat self.now.work self.now.first (rel.0, key.now) }
    {
        self.is_there(rel, key) && !self.may_go(rel, key)
    }

    pub(crate) fn catalogue(&self) -> &Catalogue
        ensures { result.now ≡ self.now.cat }
    {
        self.catalogue
    }

    /// Whether an update with these conditions, which allow the rows of the range, changes one row for
    /// sure: each condition is `key = N`, and the row stays.
    pub(crate) fn updates_one_row(&self, range: &KeyRange, conds: &[Condition]) -> bool
        requires { IsRelation self.now.cat range.now.rel.0 }
        ensures { result ≡ (is_one_key range.now.least range.now.greatest
            && (list_all (is_key_equality (key_column self.now.cat range.now.rel.0)) conds.now
            && stays self.now.cat self.now.work self.now.first (range.now.rel.0, range.now.least))) }
    {
        self.catalogue.law_is_sound();
        let key = self.catalogue.relation(range.rel).key;
        is_one_key(range) && are_key_equalities(key, conds) && self.stays(range.rel, &range.least)
    }
}

fn is_in_range(rel: RelNo, key: &i64, range: &KeyRange) -> bool
    ensures { result ≡ is_in_range (rel.0, key.now) range.now }
{
    range.rel == rel && range.least <= *key && *key <= range.greatest
}

fn is_in_one(rel: RelNo, key: &i64, ranges: &[KeyRange]) -> bool
    ensures { result ≡ list_any (is_in_range (rel.0, key.now)) ranges.now }
{
    ranges.iter().any(|range| is_in_range(rel, key, range))
}

fn is_one_key(range: &KeyRange) -> bool
    ensures { result ≡ is_one_key range.now.least range.now.greatest }
{
    range.least <= range.greatest && range.greatest <= range.least
}

fn is_equality(op: Op) -> bool
    ensures { result ≡ is_equality op }
{
    match op {
        Op::Eq => true,
        Op::Ne => false,
        Op::Lt => false,
        Op::Le => false,
        Op::Gt => false,
        Op::Ge => false,
    }
}

fn is_key_equality(key: u32, cond: &Condition) -> bool
    ensures { result ≡ is_key_equality key cond.now }
{
    match cond {
        Condition::Const { left, op, value: _ } => left.column == key && is_equality(*op),
        Condition::Same { left: _, right: _ } => false,
    }
}

fn are_key_equalities(key: u32, conds: &[Condition]) -> bool
    ensures { result ≡ list_all (is_key_equality key) conds.now }
{
    conds.iter().all(|cond| is_key_equality(key, cond))
}

/// The rows by relation and key: of two with one key the later stands.
fn rows_by_item<'a>(
    alloc: Global,
    catalogue: &Catalogue,
    rows: &'a [(RelNo, Row)],
) -> Result<BTreeMap<(u32, i64), &'a Row>, NoMemory>
    requires { All (FitsStart catalogue.now) rows.now }
    ensures { IfOk result (λ found. lent_rows found.entries ≡ database_of catalogue.now rows.now) }
{
    let mut found = BTreeMap::new(alloc);
    'rows: for (rel, row) in rows {
        add_row(&mut found, catalogue, *rel, row)?;
    }
    Ok(found)
}

fn add_row<'a>(
    found: &mut BTreeMap<(u32, i64), &'a Row>,
    catalogue: &Catalogue,
    rel: RelNo,
    row: &'a Row,
) -> Result<(), NoMemory>
    requires { IsRelation catalogue.now rel.0 }
    ensures { OnOk result (lent_rows found.new.entries
        ≡ with_row (lent_rows found.old.entries) (rel.0, key_in catalogue.now rel.0 row.now) row.now) }
{
    let key = key_of(catalogue, rel, row);
    found.insert((rel.0, key), row)?;
    Ok(())
}

/// Of each delete of the transactions the rows that it may delete.
fn deleted_in(alloc: Global, catalogue: &Catalogue, txns: &[Txn]) -> Result<Vec<KeyRange>, NoMemory>
    requires { All (FitsTxn catalogue.now) txns.now }
    ensures { IfOk result (λ found. found.items ≡ deleted_in catalogue.now txns.now) }
{
    let mut found = Vec::new(alloc);
    'txns: for txn in txns {
        add_deletes(alloc, catalogue, txn.statements.as_slice(), &mut found)?;
    }
    Ok(found)
}

fn add_deletes(
    alloc: Global,
    catalogue: &Catalogue,
    statements: &[Stmt],
    found: &mut Vec<KeyRange>,
) -> Result<(), NoMemory>
    requires { All (FitsStatement catalogue.now) statements.now }
    ensures { OnOk result (found.new.items ≡ found.old.items ++ flat_map (deleted_by catalogue.now) statements.now) }
{
    'statements: for statement in statements {
        add_delete(alloc, catalogue, statement, found)?;
    }
    Ok(())
}

/// Adds the rows that the statement may delete, where it is a delete.
fn add_delete(
    alloc: Global,
    catalogue: &Catalogue,
    statement: &Stmt,
    found: &mut Vec<KeyRange>,
) -> Result<(), NoMemory>
    requires { FitsStatement catalogue.now statement.now }
    ensures { OnOk result (found.new.items ≡ found.old.items ++ deleted_by catalogue.now statement.now) }
{
    match statement {
        Stmt::Put { rel: _, row: _ } => Ok(()),
        Stmt::Query {
            out: _,
            rels: _,
            conds: _,
        } => Ok(()),
        Stmt::Update {
            rel: _,
            sets: _,
            conds: _,
        } => Ok(()),
        Stmt::Delete { rel, conds } => {
            match range_of_part(alloc, catalogue, *rel, 1, conds.as_slice())? {
                Some(range) => {
                    found.push(range)?;
                    Ok(())
                }
                None => Ok(()),
            }
        }
    }
}
