//! Queries, by the words after the first word of their lines.
ghost use Rattle.std.specs.Prelude.{◌≡◌, map, IfOk, codes};
ghost use Rattle.sdd_lang.specs.All.{GivesReading, MAX_OUTPUT_COLUMNS, MAX_USES, along};
ghost use Rattle.sdd_script.specs.Few.{few, short};
ghost use Rattle.sdd_script.specs.Rules.{rule_in};
ghost use Rattle.sdd_script.specs.Statements.{listed_column, part_in, parts_of, query_over, query_of_parts, query_behind_from, query_with, query_of};

use crate::columns::{read_column, read_conditions};
use crate::fault::{LineError, WorkRule, must, refuse, require};
use crate::few::keep_few;
use crate::naming::part_of;
use sdd_lang::{Catalogue, Listed, MAX_OUTPUT_COLUMNS, MAX_USES, NoMemory, Ref, RelNo, Stmt};
use sdd_words::{Comparisons, Token, Tokens, are_free, look_like_columns, read_comparisons};
use std::alloc::Global;

/// The relations of words by their places, with None where there is no such relation.
#[tactic(auto, using(crate::proofs::FewRead::part_more, crate::proofs::FewRead::all_parts))]
fn read_parts(
    alloc: Global,
    catalogue: &Catalogue,
    rels: &mut Tokens<'_>,
) -> Result<Vec<Option<u8>>, NoMemory>
    ensures { IfOk result (λ v. v.items ≡ parts_of catalogue.now rels.old) }
{
    let mut parts = Vec::new(alloc);
    'rels: while let Some(rel) = rels.next() {
        parts.push(part_of(catalogue, &rel))?;
    }
    Ok(parts)
}

fn read_listed_column(
    catalogue: &Catalogue,
    parts: &[Option<u8>],
    word: &Token<'_>,
) -> Result<Ref, LineError>
    ensures { GivesReading rule_in (λ r. r) result (listed_column catalogue.now parts.now word.now) }
{
    let found = read_column(catalogue, parts, word)?;
    Ok(found.at)
}

#[tactic(auto, using(crate::proofs::FewRead::few_loop))]
fn read_listed(
    alloc: Global,
    catalogue: &Catalogue,
    parts: &[Option<u8>],
    words: &mut Tokens<'_>,
) -> Result<Vec<Ref>, LineError>
    ensures { GivesReading rule_in (λ v. v.items) result
        (few MAX_OUTPUT_COLUMNS (along (λ i w. listed_column catalogue.now parts.now w) 0 words.old)) }
{
    let mut out = Vec::new(alloc);
    'words: while let Some(word) = words.next() {
        let column = read_listed_column(catalogue, parts, &word)?;
        keep_few(&mut out, MAX_OUTPUT_COLUMNS, column)?;
    }
    Ok(out)
}

fn read_part(part: Option<u8>) -> Result<RelNo, LineError>
    ensures { GivesReading rule_in (λ r. r) result (part_in part) }
{
    let rel = require(WorkRule::UnknownName, part)?;
    Ok(RelNo(u32::from(rel)))
}

#[tactic(auto, using(crate::proofs::FewRead::few_loop))]
fn read_relations(alloc: Global, parts: &[Option<u8>]) -> Result<Vec<RelNo>, LineError>
    ensures { GivesReading rule_in (λ v. v.items) result
        (few MAX_USES (along (λ i p. part_in p) 0 parts.now)) }
{
    let mut rels = Vec::new(alloc);
    'parts: for part in parts {
        let rel = read_part(*part)?;
        keep_few(&mut rels, MAX_USES, rel)?;
    }
    Ok(rels)
}

/// A query over relations that stand at these places.
fn read_query_of(
    alloc: Global,
    catalogue: &Catalogue,
    parts: &[Option<u8>],
    columns: &mut Tokens<'_>,
    words: &mut Comparisons<'_>,
) -> Result<Stmt, LineError>
    ensures { GivesReading rule_in (λ s. s) result
        (short (query_over catalogue.now parts.now columns.old words.old)) }
{
    let out = read_listed(alloc, catalogue, parts, columns)?;
    let rels = read_relations(alloc, parts)?;
    let conds = read_conditions(alloc, catalogue, parts, words)?;
    Ok(Stmt::Query {
        out: Listed::from_vec(out),
        rels: Listed::from_vec(rels),
        conds: Listed::from_vec(conds),
    })
}

fn read_query_parts(
    alloc: Global,
    catalogue: &Catalogue,
    columns: &mut Tokens<'_>,
    rels: &mut Tokens<'_>,
    words: &mut Comparisons<'_>,
) -> Result<Stmt, LineError>
    ensures { GivesReading rule_in (λ s. s) result
        (short (query_of_parts catalogue.now columns.old rels.old words.old)) }
{
    let parts = read_parts(alloc, catalogue, rels)?;
    read_query_of(alloc, catalogue, parts.as_slice(), columns, words)
}

fn read_query_behind_from(
    alloc: Global,
    catalogue: &Catalogue,
    columns: &mut Tokens<'_>,
    rels: &mut Tokens<'_>,
    rest: Tokens<'_>,
) -> Result<Stmt, LineError>
    ensures { GivesReading rule_in (λ s. s) result
        (short (query_behind_from catalogue.now columns.old rels.old rest.entry)) }
{
    must(
        WorkRule::BadLine,
        look_like_columns(columns) && are_free(rels),
    )?;
    match read_comparisons(rest) {
        Some(mut words) => read_query_parts(alloc, catalogue, columns, rels, &mut words),
        None => refuse(WorkRule::BadLine),
    }
}

fn read_query_with(
    alloc: Global,
    catalogue: &Catalogue,
    columns: &mut Tokens<'_>,
    behind: &Tokens<'_>,
) -> Result<Stmt, LineError>
    ensures { GivesReading rule_in (λ s. s) result
        (short (query_with catalogue.now columns.old behind.now)) }
{
    let (mut rels, rest) = behind.split_from(b"where");
    read_query_behind_from(alloc, catalogue, columns, &mut rels, rest)
}

/// A query, by its columns, `from`, its relations, and its conditions; of what is too many the first
/// ones.
pub fn read_query(
    alloc: Global,
    catalogue: &Catalogue,
    words: &Tokens<'_>,
) -> Result<Stmt, LineError>
    ensures { GivesReading rule_in (λ s. s) result (short (query_of catalogue.now words.now)) }
{
    match words.cut_at(b"from") {
        Some((mut columns, behind)) => read_query_with(alloc, catalogue, &mut columns, &behind),
        None => refuse(WorkRule::BadLine),
    }
}
