//! Writing the words of a line. Each call puts its piece after what was written before; where memory
//! runs out, what was written is not to be used.
ghost use Rattle.std.specs.Prelude.{◌≡◌, ◌++◌, ◌∷◌, List, flat_map, OnOk};
ghost use Rattle.std.specs.Fmt.{signed_decimal};
ghost use Rattle.sdd_lang.specs.All.{RelNo, Value, rel_of};
ghost use Rattle.sdd_lang.specs.declared.condition.Ref.{Ref};
ghost use Rattle.sdd_words.specs.Values.{value_word};
ghost use Rattle.sdd_words.specs.Keywords.{op_word};
ghost use Rattle.sdd_words.specs.Words.{word_bytes, more_bytes, spaced, Plain};
ghost use Rattle.sdd_script.specs.Spelling.{relation_word, row_words, name_of_column, column_word, condition_words, conditions_words, where_words, own_column, assign_words, sets_words, site_word, count_word};

use crate::naming::{columns_of, name_of_relation};
use sdd_lang::{Assign, Catalogue, Column, Condition, NoMemory, Op, Ref, RelNo, Site, Value};
use sdd_words::{put, put_count, put_number, put_value, put_values};

/// Puts a space and a plain word.
pub fn put_plain(out: &mut Vec<u8>, bytes: &[u8]) -> Result<(), NoMemory>
    ensures { OnOk result (out.new.items ≡ out.old.items ++ spaced (Plain bytes.now)) }
{
    put(out, b" ")?;
    put(out, bytes)
}

fn put_spaced(out: &mut Vec<u8>, value: &Value) -> Result<(), NoMemory>
    ensures { OnOk result (out.new.items ≡ out.old.items ++ spaced (value_word value.now)) }
{
    put(out, b" ")?;
    put_value(out, value)
}

/// Puts a space and a relation's name.
pub fn put_relation(out: &mut Vec<u8>, catalogue: &Catalogue, rel: RelNo) -> Result<(), NoMemory>
    ensures { OnOk result (out.new.items ≡ out.old.items ++ spaced (relation_word catalogue.now rel)) }
{
    put_plain(out, name_of_relation(catalogue, rel.0))
}

/// Puts a relation's name and a row.
pub fn put_row(
    out: &mut Vec<u8>,
    catalogue: &Catalogue,
    rel: RelNo,
    row: &[Value],
) -> Result<(), NoMemory>
    ensures { OnOk result (out.new.items ≡ out.old.items ++ more_bytes (row_words catalogue.now rel row.now)) }
{
    put_relation(out, catalogue, rel)?;
    put_values(out, row)?;
    Ok(())
}

fn rel_of(rels: &[RelNo], part: u32) -> u32
    ensures { result ≡ rel_of rels.now part }
{
    match rels.get((part as usize).saturating_sub(1)) {
        Some(rel) => rel.0,
        None => 0,
    }
}

fn name_of_column(columns: &[Column], column: u32) -> &[u8]
    ensures { result.now ≡ name_of_column columns.now column }
{
    match columns.get((column as usize).saturating_sub(1)) {
        Some(column) => column.name.as_str().as_bytes(),
        None => &[],
    }
}

/// Puts a space and a column of a use.
pub fn put_column(
    out: &mut Vec<u8>,
    catalogue: &Catalogue,
    rels: &[RelNo],
    column: Ref,
) -> Result<(), NoMemory>
    ensures { OnOk result (out.new.items ≡ out.old.items ++ spaced (column_word catalogue.now rels.now column)) }
{
    put(out, b" ")?;
    put_count(out, u64::from(column.part))?;
    put(out, b".")?;
    put(
        out,
        name_of_column(
            columns_of(catalogue, rel_of(rels, column.part)),
            column.column,
        ),
    )
}

/// Puts columns of uses.
#[tactic(auto, using(crate::proofs::Lists::written))]
pub fn put_columns(
    out: &mut Vec<u8>,
    catalogue: &Catalogue,
    rels: &[RelNo],
    columns: &[Ref],
) -> Result<(), NoMemory>
    ensures { OnOk result (
        out.new.items ≡ out.old.items
        ++ flat_map (λ (r : Ref). spaced (column_word catalogue.now rels.now r)) columns.now
        ) }
{
    'columns: for column in columns {
        put_column(out, catalogue, rels, *column)?;
    }
    Ok(())
}

/// Puts the names of relations.
#[tactic(auto, using(crate::proofs::Lists::written))]
pub fn put_relations(
    out: &mut Vec<u8>,
    catalogue: &Catalogue,
    rels: &[RelNo],
) -> Result<(), NoMemory>
    ensures { OnOk result (
        out.new.items ≡ out.old.items
        ++ flat_map (λ (r : RelNo). spaced (relation_word catalogue.now r)) rels.now
        ) }
{
    'rels: for rel in rels {
        put_relation(out, catalogue, *rel)?;
    }
    Ok(())
}

fn op_word(op: Op) -> &'static [u8]
    ensures { result.now ≡ op_word op }
{
    match op {
        Op::Eq => b"=",
        Op::Ne => b"!=",
        Op::Lt => b"<",
        Op::Le => b"<=",
        Op::Gt => b">",
        Op::Ge => b">=",
    }
}

#[tactic(auto, using(crate::proofs::Pieces::three_words))]
fn put_condition(
    out: &mut Vec<u8>,
    catalogue: &Catalogue,
    rels: &[RelNo],
    condition: &Condition,
) -> Result<(), NoMemory>
    ensures { OnOk result (
        out.new.items ≡ out.old.items
        ++ more_bytes (condition_words catalogue.now rels.now condition.now)
        ) }
{
    match condition {
        Condition::Const { left, op, value } => {
            put_column(out, catalogue, rels, *left)?;
            put_plain(out, op_word(*op))?;
            put_spaced(out, value)
        }
        Condition::Same { left, right } => {
            put_column(out, catalogue, rels, *left)?;
            put_plain(out, b"=")?;
            put_column(out, catalogue, rels, *right)
        }
    }
}

fn put_keyed(
    out: &mut Vec<u8>,
    key: &[u8],
    catalogue: &Catalogue,
    rels: &[RelNo],
    condition: &Condition,
) -> Result<(), NoMemory>
    ensures { OnOk result (
        out.new.items ≡ out.old.items
        ++
        (spaced (Plain key.now) ++ more_bytes (condition_words catalogue.now rels.now condition.now))
        ) }
{
    put_plain(out, key)?;
    put_condition(out, catalogue, rels, condition)
}

/// Puts conditions, the first after `where` and each further one after `and`.
#[tactic(auto, using(crate::proofs::Lists::condition_more, crate::proofs::Lists::conditions_written))]
pub fn put_conditions(
    out: &mut Vec<u8>,
    catalogue: &Catalogue,
    rels: &[RelNo],
    conditions: &[Condition],
) -> Result<(), NoMemory>
    ensures { OnOk result (
        out.new.items ≡ out.old.items
        ++ more_bytes (where_words catalogue.now rels.now conditions.now)
        ) }
{
    let mut key = b"where".as_slice();
    'conditions: for condition in conditions {
        put_keyed(out, key, catalogue, rels, condition)?;
        key = b"and".as_slice();
    }
    Ok(())
}

fn put_addend(out: &mut Vec<u8>, by: &i64) -> Result<(), NoMemory>
    ensures { OnOk result (out.new.items ≡ out.old.items ++ spaced (Plain (signed_decimal by.now))) }
{
    put(out, b" ")?;
    put_number(out, by)
}

#[tactic(auto, using(crate::proofs::Pieces::three_words))]
fn put_assign(
    out: &mut Vec<u8>,
    catalogue: &Catalogue,
    rel: RelNo,
    assign: &Assign,
) -> Result<(), NoMemory>
    ensures { OnOk result (
        out.new.items ≡ out.old.items
        ++ more_bytes (assign_words catalogue.now rel assign.now)
        ) }
{
    match assign {
        Assign::To { column, value } => {
            put_column(
                out,
                catalogue,
                &[rel],
                Ref {
                    part: 1,
                    column: *column,
                },
            )?;
            put_plain(out, b"=")?;
            put_spaced(out, value)
        }
        Assign::Add { column, by } => {
            put_column(
                out,
                catalogue,
                &[rel],
                Ref {
                    part: 1,
                    column: *column,
                },
            )?;
            put_plain(out, b"+=")?;
            put_addend(out, by)
        }
    }
}

/// Puts assignments.
#[tactic(auto, using(crate::proofs::Lists::assign_more, crate::proofs::Lists::assigns_written))]
pub fn put_assigns(
    out: &mut Vec<u8>,
    catalogue: &Catalogue,
    rel: RelNo,
    assigns: &[Assign],
) -> Result<(), NoMemory>
    ensures { OnOk result (
        out.new.items ≡ out.old.items
        ++ more_bytes (sets_words catalogue.now rel assigns.now)
        ) }
{
    'assigns: for assign in assigns {
        put_assign(out, catalogue, rel, assign)?;
    }
    Ok(())
}

/// Puts a space and a site.
pub fn put_site(out: &mut Vec<u8>, site: Site) -> Result<(), NoMemory>
    ensures { OnOk result (out.new.items ≡ out.old.items ++ spaced (site_word site)) }
{
    match site {
        Site::U => put(out, b" U"),
        Site::T(tm) => {
            put(out, b" T")?;
            put_count(out, u64::from(tm.0))
        }
        Site::D(dm) => {
            put(out, b" D")?;
            put_count(out, u64::from(dm.0))
        }
    }
}

/// Puts a space and a number.
pub fn put_count_word(out: &mut Vec<u8>, n: u32) -> Result<(), NoMemory>
    ensures { OnOk result (out.new.items ≡ out.old.items ++ spaced (count_word n)) }
{
    put(out, b" ")?;
    put_count(out, u64::from(n))
}
