//! What a transaction may read and change.
ghost use Rattle.std.specs.Prelude.{◌≡◌, ◌++◌, [], false, true, map, IfOk, OnOk};
ghost use Rattle.std.specs.List.{All};
ghost use Rattle.sdd_lang.specs.All.{FitsStatement, FitsTxn, IsRelation, key_in};
ghost use Rattle.sdd_lang.specs.declared.statement.Stmt.TheVariants.{Delete, Update};
ghost use Rattle.sdd_robust_laws.specs.Accesses.{accesses, assigned_column, columns_read, over_keys, part_accesses, read_part, statement_accesses};
ghost use Rattle.sdd_robust.specs.KeyRanges.{access_in, changes_in, reads_in};

use crate::columns::columns_read;
use crate::key_range::{KeyRange, range_of_part};
use crate::member::Accesses;
use crate::staying::Staying;
use sdd_lang::{Assign, Catalogue, Condition, NoMemory, Ref, RelNo, Row, Stmt, Txn, key_of};
use sdd_robust_laws::Access;
use std::alloc::Global;

/// What the transaction may read and change, where it is one of the workload. Costs time in its
/// statements, their conditions and columns, and for each update of one row in the deletes of the
/// workload.
pub(crate) fn accesses_of(
    alloc: Global,
    staying: &Staying<'_>,
    txn: &Txn,
) -> Result<Accesses, NoMemory>
    requires { FitsTxn staying.now.cat txn.now }
    ensures { IfOk result (λ found. found ≡ accesses staying.now.cat staying.now.work staying.now.first txn.now) }
{
    let mut found = Vec::new(alloc);
    'statements: for statement in txn.statements.as_slice() {
        add_statement(alloc, staying, statement, &mut found)?;
    }
    Ok(Accesses::from_vec(found))
}

/// Adds what the statement may read and change.
fn add_statement(
    alloc: Global,
    staying: &Staying<'_>,
    statement: &Stmt,
    found: &mut Vec<Access>,
) -> Result<(), NoMemory>
    requires { FitsStatement staying.now.cat statement.now }
    ensures { OnOk result (found.new.items
        ≡ found.old.items ++ statement_accesses staying.now.cat staying.now.work staying.now.first statement.now) }
{
    match statement {
        Stmt::Put { rel, row } => add_put(staying.catalogue(), *rel, row, found),
        Stmt::Query { out, rels, conds } => add_parts(
            alloc,
            staying.catalogue(),
            conds.as_slice(),
            out.as_slice(),
            rels.as_slice(),
            found,
        ),
        Stmt::Update { rel, sets, conds } => {
            add_update(
                alloc,
                staying,
                *rel,
                sets.as_slice(),
                conds.as_slice(),
                found,
            )
        }
        Stmt::Delete { rel, conds } => {
            add_delete(alloc, staying.catalogue(), *rel, conds.as_slice(), found)
        }
    }
}

/// Adds the change of the row that is put.
fn add_put(
    catalogue: &Catalogue,
    rel: RelNo,
    row: &Row,
    found: &mut Vec<Access>,
) -> Result<(), NoMemory>
    requires { IsRelation catalogue.now rel.0 }
    ensures { OnOk result (found.new.items ≡ found.old.items
        ++ over_keys rel (key_in catalogue.now rel.0 row.now, key_in catalogue.now rel.0 row.now) 0 false true true) }
{
    let key = key_of(catalogue, rel, row);
    found.push(Access {
        rel,
        least: key,
        greatest: key,
        column: 0,
        reads: false,
        changes: true,
        sure: true,
    })?;
    Ok(())
}

/// Adds what is read of the parts of a query.
fn add_parts(
    alloc: Global,
    catalogue: &Catalogue,
    conds: &[Condition],
    out: &[Ref],
    rels: &[RelNo],
    found: &mut Vec<Access>,
) -> Result<(), NoMemory>
    requires { All (λ rel. IsRelation catalogue.now rel.0) rels.now }
    ensures { OnOk result (found.new.items ≡ found.old.items ++ part_accesses catalogue.now conds.now out.now 1 rels.now) }
{
    'rels: for i in 0..rels.len() {
        add_part(alloc, catalogue, conds, out, i + 1, rels[i], found)?;
    }
    Ok(())
}

/// Adds what is read of a part.
fn add_part(
    alloc: Global,
    catalogue: &Catalogue,
    conds: &[Condition],
    out: &[Ref],
    part: usize,
    rel: RelNo,
    found: &mut Vec<Access>,
) -> Result<(), NoMemory>
    requires { IsRelation catalogue.now rel.0 }
    ensures { OnOk result (found.new.items ≡ found.old.items ++ read_part catalogue.now conds.now out.now part rel) }
{
    match range_of_part(alloc, catalogue, rel, part, conds)? {
        Some(range) => add_reads(alloc, catalogue, &range, conds, out, part, found),
        None => Ok(()),
    }
}

/// Adds what is read of a part, whose rows are of this range.
fn add_reads(
    alloc: Global,
    catalogue: &Catalogue,
    range: &KeyRange,
    conds: &[Condition],
    out: &[Ref],
    part: usize,
    found: &mut Vec<Access>,
) -> Result<(), NoMemory>
    requires { IsRelation catalogue.now range.now.rel.0 }
    ensures { OnOk result (found.new.items
        ≡ found.old.items ++ reads_in range.now (columns_read catalogue.now conds.now out.now part range.now.rel)) }
{
    let columns = columns_read(alloc, catalogue, conds, out, part, range.rel)?;
    'columns: for column in &columns {
        found.push(access_in(range, *column, true, false, false))?;
    }
    Ok(())
}

/// Adds what an update reads and changes.
fn add_update(
    alloc: Global,
    staying: &Staying<'_>,
    rel: RelNo,
    sets: &[Assign],
    conds: &[Condition],
    found: &mut Vec<Access>,
) -> Result<(), NoMemory>
    requires { IsRelation staying.now.cat rel.0 }
    ensures { OnOk result (found.new.items ≡ found.old.items
        ++ statement_accesses staying.now.cat staying.now.work staying.now.first (Update rel sets.now conds.now)) }
{
    match range_of_part(alloc, staying.catalogue(), rel, 1, conds)? {
        Some(range) => {
            add_reads(alloc, staying.catalogue(), &range, conds, &[], 1, found)?;
            let sure = staying.updates_one_row(&range, conds);
            add_changes(&range, sets, sure, found)
        }
        None => Ok(()),
    }
}

/// Adds the changes of the columns that are assigned.
fn add_changes(
    range: &KeyRange,
    sets: &[Assign],
    sure: bool,
    found: &mut Vec<Access>,
) -> Result<(), NoMemory>
    ensures { OnOk result (found.new.items ≡ found.old.items ++ changes_in range.now (map assigned_column sets.now) sure) }
{
    'sets: for assign in sets {
        found.push(access_in(range, assigned_column(assign), false, true, sure))?;
    }
    Ok(())
}

/// Adds what a delete reads and changes.
fn add_delete(
    alloc: Global,
    catalogue: &Catalogue,
    rel: RelNo,
    conds: &[Condition],
    found: &mut Vec<Access>,
) -> Result<(), NoMemory>
    requires { IsRelation catalogue.now rel.0 }
    ensures { OnOk result (found.new.items ≡ found.old.items ++ statement_accesses catalogue.now [] [] (Delete rel conds.now)) }
{
    match range_of_part(alloc, catalogue, rel, 1, conds)? {
        Some(range) => {
            add_reads(alloc, catalogue, &range, conds, &[], 1, found)?;
            found.push(access_in(&range, 0, false, true, false))?;
            Ok(())
        }
        None => Ok(()),
    }
}

fn assigned_column(assign: &Assign) -> u32
    ensures { result ≡ assigned_column assign.now }
{
    match assign {
        Assign::To { column, value: _ } => *column,
        Assign::Add { column, by: _ } => *column,
    }
}

/// An access of a column of these rows.
fn access_in(range: &KeyRange, column: u32, reads: bool, changes: bool, sure: bool) -> Access
    ensures { result ≡ access_in range.now column reads changes sure }
{
    Access {
        rel: range.rel,
        least: range.least,
        greatest: range.greatest,
        column,
        reads,
        changes,
        sure,
    }
}
