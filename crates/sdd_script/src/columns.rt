//! Columns of uses, and conditions, by their words.
ghost use Rattle.std.specs.Prelude.{◌≡◌, ◌<◌, ◌-◌, ◌^◌, length, Some, None};
ghost use Rattle.sdd_lang.specs.All.{GivesReading, MAX_CONDITIONS};
ghost use Rattle.sdd_words.specs.Words.{Plain};
ghost use Rattle.sdd_script.specs.Few.{few};
ghost use Rattle.sdd_script.specs.Rules.{rule_in};
ghost use Rattle.sdd_script.specs.Columns.{use_in, use_at, use_numbered, column_in, column_of_use, same_of, const_of, condition_of, conditions_of};

use crate::fault::{LineError, WorkRule, must, refuse, require};
use crate::few::keep_few;
use crate::found::Found;
use crate::naming::{column_named, columns_of, kind_of_place};
use crate::values::{is_of_kind, read_value};
use sdd_lang::{Catalogue, Column, Condition, MAX_CONDITIONS, Op, Ref};
use sdd_words::{
    Comparison, Comparisons, Token, is_whole_number, names_column, number_in, parts_at_point,
};
use std::alloc::Global;

/// The number of a use and its relation, or None exactly where one of them isn't there.
fn use_at(parts: &[Option<u8>], part: i64) -> Option<(u32, u32)>
    ensures { result ≡ use_at parts.now part }
{
    let part = u32::try_from(part).ok()?;
    let place = part.checked_sub(1)?;
    match parts.get(place as usize) {
        Some(Some(rel)) => Some((part, u32::from(*rel))),
        _ => None,
    }
}

fn use_numbered(parts: &[Option<u8>], part: Option<i64>) -> Option<(u32, u32)>
    ensures { result ≡ use_numbered parts.now part }
{
    use_at(parts, part?)
}

fn column_in(columns: &[Column], part: u32, name: &[u8]) -> Result<Found, LineError>
    requires { length columns.now < 2 ^ 32 - 1 }
    ensures { GivesReading rule_in (λ f. f) result (column_in columns.now part name.now) }
{
    let place = require(WorkRule::UnknownName, column_named(columns, name))?;
    let kind = require(WorkRule::UnknownName, kind_of_place(columns, place))?;
    let column = place as u32 + 1;
    Ok(Found {
        at: Ref { part, column },
        kind,
    })
}

/// The column of a use that bytes name.
#[tactic(auto, using(crate::proofs::FewColumns::few_columns))]
fn column_of_use_in(
    catalogue: &Catalogue,
    parts: &[Option<u8>],
    bytes: &[u8],
) -> Result<Found, LineError>
    ensures { GivesReading rule_in (λ f. f) result (column_of_use catalogue.now parts.now (Plain bytes.now)) }
{
    let (number, name) = parts_at_point(bytes);
    must(WorkRule::BadNumber, is_whole_number(number))?;
    let (part, rel) = require(
        WorkRule::UnknownName,
        use_numbered(parts, number_in(number)),
    )?;
    catalogue.law_is_sound();
    column_in(columns_of(catalogue, rel), part, name)
}

/// The column of a use that a word names.
pub fn read_column(
    catalogue: &Catalogue,
    parts: &[Option<u8>],
    word: &Token<'_>,
) -> Result<Found, LineError>
    ensures { GivesReading rule_in (λ f. f) result (column_of_use catalogue.now parts.now word.now) }
{
    match word.plain() {
        Some(bytes) => column_of_use_in(catalogue, parts, bytes),
        None => refuse(WorkRule::BadNumber),
    }
}

fn read_const(alloc: Global, left: Found, op: Op, right: &Token<'_>) -> Result<Condition, LineError>
    ensures { GivesReading rule_in (λ c. c) result (const_of left op right.now) }
{
    let value = read_value(alloc, Some(left.kind), right)?;
    Ok(Condition::Const {
        left: left.at,
        op,
        value,
    })
}

fn read_same(
    catalogue: &Catalogue,
    parts: &[Option<u8>],
    left: Found,
    right: &Token<'_>,
) -> Result<Condition, LineError>
    ensures { GivesReading rule_in (λ c. c) result (same_of catalogue.now parts.now left right.now) }
{
    let right = read_column(catalogue, parts, right)?;
    must(WorkRule::WrongKind, is_of_kind(Some(left.kind), right.kind))?;
    Ok(Condition::Same {
        left: left.at,
        right: right.at,
    })
}

fn read_condition(
    alloc: Global,
    catalogue: &Catalogue,
    parts: &[Option<u8>],
    words: &Comparison<'_>,
) -> Result<Condition, LineError>
    ensures { GivesReading rule_in (λ c. c) result (condition_of catalogue.now parts.now words.now) }
{
    let left = read_column(catalogue, parts, &words.left)?;
    if names_column(alloc, words.op, &words.right)? {
        read_same(catalogue, parts, left, &words.right)
    } else {
        read_const(alloc, left, words.op, &words.right)
    }
}

/// The conditions of a statement on the relations of these parts; of too many the first ones.
#[tactic(auto, using(crate::proofs::FewRead::few_loop))]
pub fn read_conditions(
    alloc: Global,
    catalogue: &Catalogue,
    parts: &[Option<u8>],
    words: &mut Comparisons<'_>,
) -> Result<Vec<Condition>, LineError>
    ensures { GivesReading rule_in (λ v. v.items) result
        (few MAX_CONDITIONS (conditions_of catalogue.now parts.now words.old)) }
{
    let mut conds = Vec::new(alloc);
    'words: while let Some(one) = words.next() {
        let condition = read_condition(alloc, catalogue, parts, &one)?;
        keep_few(&mut conds, MAX_CONDITIONS, condition)?;
    }
    Ok(conds)
}
