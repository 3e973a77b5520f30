//! Whether a transaction fits a catalogue.
ghost use Rattle.std.specs.Prelude.{◌≡◌, ◌≢◌, ◌↔◌, ◌≤◌, map, length, slice_get, All, IsTrue, IfSome, IfNone, IsSome, Some, None};
ghost use Rattle.sdd_catalog.specs.Catalogue.{relation_at, key_column, kind_at};
ghost use Rattle.sdd_catalog.specs.declared.resolved.Column.{Column as OfColumn};
ghost use Rattle.sdd_catalog.specs.declared.parts.Kind.TheVariants.{Int};
ghost use Rattle.sdd_lang.specs.Fits.{FitsTxn, FitsStatement, FitsQuery, FitsAssign, FitsConditions, FitsCondition, FitsRef, FitsRow, IsColumn, IsRelation, IsFrom1To, kind_of, kind_of_ref, rel_of};

use crate::assign::Assign;
use crate::condition::{Condition, Ref};
use crate::statement::Stmt;
use crate::transaction::Txn;
use sdd_base::{RelNo, Row, Value};
use sdd_catalog::{Catalogue, Column, Kind};

/// Whether the transaction fits the catalogue: its module, relations and columns are there, kinds
/// agree, no key is assigned, and counts keep their limits. Takes no memory.
///
/// Costs time in the transaction.
pub fn fits(catalogue: &Catalogue, txn: &Txn) -> bool
    ensures { IsTrue result ↔ FitsTxn catalogue.now txn.now }
{
    is_from_1_to(catalogue.tms(), u32::from(txn.tm.0))
        && txn.statements.as_slice().len() <= 32
        && txn
            .statements
            .as_slice()
            .iter()
            .all(|statement| fits_statement(catalogue, statement))
}

fn is_from_1_to(most: u32, number: u32) -> bool
    ensures { IsTrue result ↔ IsFrom1To most number }
{
    1 <= number && number <= most
}

fn are_from_1_to(most: usize, count: usize) -> bool
    ensures { IsTrue result ↔ IsFrom1To most count }
{
    1 <= count && count <= most
}

fn is_relation(catalogue: &Catalogue, rel: RelNo) -> bool
    ensures { IsTrue result ↔ IsRelation catalogue.now rel.0 }
{
    is_from_1_to(catalogue.relations(), rel.0)
}

/// The kind of a column of a relation, where both are there.
fn kind_of_column(catalogue: &Catalogue, rel: RelNo, column: u32) -> Option<Kind>
    requires { IsRelation catalogue.now rel.0 }
    ensures some { IfSome result (λ kind. IsColumn catalogue.now rel.0 column × (kind ≡ kind_at catalogue.now rel.0 column)) }
    ensures none { IfNone result (IsColumn catalogue.now rel.0 column → ⊥) }
{
    if column == 0 {
        return None;
    }
    match catalogue
        .relation(rel)
        .columns
        .as_slice()
        .get(column as usize - 1)
    {
        Some(column) => Some(column.kind),
        None => None,
    }
}

fn kind_of_value(value: &Value) -> Kind
    ensures { result ≡ kind_of value.now }
{
    match value {
        Value::Int(_) => Kind::Int,
        Value::Text(_) => Kind::Text,
    }
}

fn are_kinds(values: &[Value], columns: &[Column]) -> bool
    ensures { IsTrue result ↔ (map kind_of values.now ≡ map (λ (c : OfColumn). c.kind) columns.now) }
{
    match values {
        [] => columns.is_empty(),
        [value, values @ ..] => match columns {
            [] => false,
            [column, columns @ ..] => {
                kind_of_value(value) == column.kind && are_kinds(values, columns)
            }
        },
    }
}

fn fits_row(catalogue: &Catalogue, rel: RelNo, row: &Row) -> bool
    requires { IsRelation catalogue.now rel.0 }
    ensures { IsTrue result ↔ FitsRow catalogue.now rel.0 row.now }
{
    are_kinds(row.as_slice(), catalogue.relation(rel).columns.as_slice())
}

/// The relation of a part, where it is there.
fn relation_of(rels: &[RelNo], part: u32) -> Option<RelNo>
    ensures some { IfSome result (λ rel. IsFrom1To (length rels.now) part × (rel.0 ≡ rel_of rels.now part)) }
    ensures none { IfNone result (IsFrom1To (length rels.now) part → ⊥) }
{
    if part == 0 {
        return None;
    }
    match rels.get(part as usize - 1) {
        Some(rel) => Some(*rel),
        None => None,
    }
}

/// The kind of a column of a part, where both are there.
fn kind_of_ref(catalogue: &Catalogue, rels: &[RelNo], at: Ref) -> Option<Kind>
    requires { All (λ rel. IsRelation catalogue.now rel.0) rels.now }
    ensures some { IfSome result (λ kind. FitsRef catalogue.now rels.now at × (kind ≡ kind_of_ref catalogue.now rels.now at)) }
    ensures none { IfNone result (FitsRef catalogue.now rels.now at → ⊥) }
{
    match relation_of(rels, at.part) {
        Some(rel) => kind_of_column(catalogue, rel, at.column),
        None => None,
    }
}

fn fits_condition(catalogue: &Catalogue, rels: &[RelNo], cond: &Condition) -> bool
    requires { All (λ rel. IsRelation catalogue.now rel.0) rels.now }
    ensures { IsTrue result ↔ FitsCondition catalogue.now rels.now cond.now }
{
    match cond {
        Condition::Const { left, op: _, value } => match kind_of_ref(catalogue, rels, *left) {
            Some(kind) => kind_of_value(value) == kind,
            None => false,
        },
        Condition::Same { left, right } => match kind_of_ref(catalogue, rels, *left) {
            Some(kind) => match kind_of_ref(catalogue, rels, *right) {
                Some(other) => kind == other,
                None => false,
            },
            None => false,
        },
    }
}

fn fits_conditions(catalogue: &Catalogue, rels: &[RelNo], conds: &[Condition]) -> bool
    requires { All (λ rel. IsRelation catalogue.now rel.0) rels.now }
    ensures { IsTrue result ↔ FitsConditions catalogue.now rels.now conds.now }
{
    conds.len() <= 16
        && conds
            .iter()
            .all(|cond| fits_condition(catalogue, rels, cond))
}

fn fits_assign(catalogue: &Catalogue, rel: RelNo, assign: &Assign) -> bool
    requires { IsRelation catalogue.now rel.0 }
    ensures { IsTrue result ↔ FitsAssign catalogue.now rel.0 assign.now }
{
    match assign {
        Assign::To { column, value } => match kind_of_column(catalogue, rel, *column) {
            Some(kind) => *column != catalogue.relation(rel).key && kind_of_value(value) == kind,
            None => false,
        },
        Assign::Add { column, by: _ } => match kind_of_column(catalogue, rel, *column) {
            Some(kind) => *column != catalogue.relation(rel).key && kind == Kind::Int,
            None => false,
        },
    }
}

fn fits_query(catalogue: &Catalogue, out: &[Ref], rels: &[RelNo], conds: &[Condition]) -> bool
    ensures { IsTrue result ↔ FitsQuery catalogue.now out.now rels.now conds.now }
{
    if !are_from_1_to(6, rels.len()) || !rels.iter().all(|rel| is_relation(catalogue, *rel)) {
        return false;
    }
    are_from_1_to(16, out.len())
        && out
            .iter()
            .all(|at| kind_of_ref(catalogue, rels, *at).is_some())
        && fits_conditions(catalogue, rels, conds)
}

fn fits_statement(catalogue: &Catalogue, statement: &Stmt) -> bool
    ensures { IsTrue result ↔ FitsStatement catalogue.now statement.now }
{
    match statement {
        Stmt::Put { rel, row } => is_relation(catalogue, *rel) && fits_row(catalogue, *rel, row),
        Stmt::Query { out, rels, conds } => {
            fits_query(catalogue, out.as_slice(), rels.as_slice(), conds.as_slice())
        }
        Stmt::Update { rel, sets, conds } => {
            is_relation(catalogue, *rel)
                && are_from_1_to(16, sets.as_slice().len())
                && sets
                    .as_slice()
                    .iter()
                    .all(|assign| fits_assign(catalogue, *rel, assign))
                && fits_conditions(catalogue, &[*rel], conds.as_slice())
        }
        Stmt::Delete { rel, conds } => {
            is_relation(catalogue, *rel) && fits_conditions(catalogue, &[*rel], conds.as_slice())
        }
    }
}
