//! The uses of a transaction.
ghost use Rattle.std.specs.Prelude.{◌≡◌, ◌≤◌, ◌++◌, IfOk, OnOk, All, length, is_some};
ghost use Rattle.sdd_lang.specs.Fits.{FitsStatement, FitsTxn, IsRelation};
ghost use Rattle.sdd_lang.specs.Uses.{restriction_of, restrictions_of, meets_keys, fragments_for, use_of, part_uses, statement_uses, uses_of};

use crate::condition::Condition;
use crate::keys::{Keys, allowed_keys};
use crate::statement::Stmt;
use crate::transaction::Txn;
use sdd_base::{FragNo, Frags, NoMemory, Parcel, RelNo, Restriction, Restrictions, Use};
use sdd_catalog::Catalogue;
use std::alloc::Global;

/// The uses of a transaction: one for each relation that a statement reads, numbered through all
/// statements, with its restrictions and the fragments that may hold a row that meets them.
///
/// Costs, for each use, time in the conditions of its statement and the fragments of the catalogue.
pub fn uses(alloc: Global, catalogue: &Catalogue, txn: &Txn) -> Result<Vec<Use>, NoMemory>
    requires { FitsTxn catalogue.now txn.now }
    ensures { IfOk result (λ uses. uses.items ≡ uses_of catalogue.now txn.now) }
{
    // Most statements have one use.
    let mut uses = Vec::with_capacity(alloc, txn.statements.as_slice().len())?;
    for statement in txn.statements.as_slice() {
        add_uses(alloc, catalogue, statement, &mut uses)?;
    }
    Ok(uses)
}

/// Adds the uses of one more statement.
fn add_uses(
    alloc: Global,
    catalogue: &Catalogue,
    statement: &Stmt,
    uses: &mut Vec<Use>,
) -> Result<(), NoMemory>
    requires fits { FitsStatement catalogue.now statement.now }
    requires few { length uses.old.items ≤ 192 }
    ensures { OnOk result (uses.new.items ≡ uses.old.items ++ statement_uses catalogue.now (length uses.old.items) statement.now) }
{
    match statement {
        Stmt::Put { rel: _, row: _ } => Ok(()),
        Stmt::Query {
            out: _,
            rels,
            conds,
        } => { add_parts(alloc, catalogue, rels.as_slice(), conds.as_slice(), uses) }
        Stmt::Update {
            rel,
            sets: _,
            conds,
        } => { add_parts(alloc, catalogue, &[*rel], conds.as_slice(), uses) }
        Stmt::Delete { rel, conds } => add_parts(alloc, catalogue, &[*rel], conds.as_slice(), uses),
    }
}

/// Adds a use for each part of a statement.
fn add_parts(
    alloc: Global,
    catalogue: &Catalogue,
    rels: &[RelNo],
    conds: &[Condition],
    uses: &mut Vec<Use>,
) -> Result<(), NoMemory>
    requires there { All (λ rel. IsRelation catalogue.now rel.0) rels.now }
    requires parts { length rels.now ≤ 6 }
    requires few { length uses.old.items ≤ 192 }
    ensures { OnOk result (uses.new.items ≡ uses.old.items ++ part_uses catalogue.now (length uses.old.items) conds.now 1 rels.now) }
{
    let before = uses.len() as u32;
    let mut part = 1;
    for rel in rels {
        uses.push(use_of(alloc, catalogue, before + part, *rel, part, conds)?)?;
        part += 1;
    }
    Ok(())
}

/// The use of a part.
fn use_of(
    alloc: Global,
    catalogue: &Catalogue,
    number: u32,
    rel: RelNo,
    part: u32,
    conds: &[Condition],
) -> Result<Use, NoMemory>
    requires { IsRelation catalogue.now rel.0 }
    ensures { IfOk result (λ found. found ≡ use_of catalogue.now number rel (restrictions_of part conds.now)) }
{
    let restrictions = restrictions_of(alloc, part as usize, conds)?;
    let frags = fragments_for(alloc, catalogue, rel, restrictions.as_slice())?;
    Ok(Use {
        number,
        rel,
        frags,
        restrictions,
    })
}

/// The fragments of the relation that hold a key which the restrictions allow, ascending.
fn fragments_for(
    alloc: Global,
    catalogue: &Catalogue,
    rel: RelNo,
    restrictions: &[Restriction],
) -> Result<Frags, NoMemory>
    requires { IsRelation catalogue.now rel.0 }
    ensures { IfOk result (λ frags. frags ≡ fragments_for catalogue.now rel.0 restrictions.now) }
{
    catalogue.law_is_sound();
    let keys = allowed_keys(catalogue.relation(rel).key, restrictions);
    let mut frags = Vec::new(alloc);
    for number in 1..catalogue.fragments() + 1 {
        if meets_keys(catalogue, rel, &keys, FragNo(number)) {
            frags.push(FragNo(number))?;
        }
    }
    Ok(Frags::from_vec(frags))
}

/// Whether the fragment is of the relation and holds one of the keys.
pub(crate) fn meets_keys(catalogue: &Catalogue, rel: RelNo, keys: &Keys, frag: FragNo) -> bool
    requires from { 1 ≤ frag.0 }
    requires to { frag.0 ≤ length catalogue.now.fragments }
    ensures { result ≡ meets_keys catalogue.now rel.0 keys.now frag.0 }
{
    let fragment = catalogue.fragment(frag);
    fragment.rel == rel && keys.meets(&fragment.least, &fragment.greatest)
}

/// The conditions that compare a column of the part with a constant, as restrictions of the part.
///
/// Costs time in the conditions; takes memory once for the list, and once for each text.
pub fn restrictions_of(
    alloc: Global,
    part: usize,
    conds: &[Condition],
) -> Result<Restrictions, NoMemory>
    ensures { IfOk result (λ found. found ≡ restrictions_of part conds.now) }
{
    let mut found = Vec::with_capacity(alloc, count_for(part, conds))?;
    for cond in conds {
        match restriction_of(part, cond)? {
            Some(restriction) => found.push(restriction)?,
            None => {}
        }
    }
    Ok(Restrictions::from_vec(found))
}

/// How many of the conditions are restrictions of the part.
fn count_for(part: usize, conds: &[Condition]) -> usize
    ensures { result ≡ length (restrictions_of part conds.now) }
{
    let mut count = 0;
    for cond in conds {
        if is_for(part, cond) {
            count += 1;
        }
    }
    count
}

/// Whether the condition is a restriction of the part.
fn is_for(part: usize, cond: &Condition) -> bool
    ensures { result ≡ is_some (restriction_of part cond.now) }
{
    match cond {
        Condition::Const {
            left,
            op: _,
            value: _,
        } => left.part as usize == part,
        Condition::Same { left: _, right: _ } => false,
    }
}

/// The condition as a restriction of the part, where it is one.
fn restriction_of(part: usize, cond: &Condition) -> Result<Option<Restriction>, NoMemory>
    ensures { IfOk result (λ found. found ≡ restriction_of part cond.now) }
{
    match cond {
        Condition::Const { left, op, value } => {
            if left.part as usize == part {
                Ok(Some(Restriction {
                    column: left.column,
                    op: *op,
                    value: value.copy()?,
                }))
            } else {
                Ok(None)
            }
        }
        Condition::Same { left: _, right: _ } => Ok(None),
    }
}
