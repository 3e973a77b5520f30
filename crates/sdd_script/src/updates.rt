//! Updates, by the words after the first word of their lines.
ghost use Rattle.std.specs.Prelude.{◌≡◌, ◌∷◌, [], Some, codes};
ghost use Rattle.sdd_lang.specs.All.{GivesReading, MAX_ASSIGNMENTS, along};
ghost use Rattle.sdd_script.specs.Few.{few, short};
ghost use Rattle.sdd_script.specs.Rules.{rule_in};
ghost use Rattle.sdd_script.specs.Statements.{addend_of, add_of, to_of, assign_of, update_over, update_of_parts, update_with, update_behind_set, update_to, update_of};

use crate::columns::{read_column, read_conditions};
use crate::fault::{LineError, WorkRule, must, refuse, require};
use crate::few::keep_few;
use crate::found::Found;
use crate::naming::{key_of, part_of};
use crate::values::{is_of_kind, read_value};
use sdd_lang::{Assign, Catalogue, Kind, Listed, MAX_ASSIGNMENTS, RelNo, Stmt};
use sdd_words::{
    Comparisons, Setting, Settings, Token, Tokens, has_key, is_free, number_in, read_comparisons,
    read_settings,
};
use std::alloc::Global;

fn read_addend(word: &Token<'_>) -> Result<i64, LineError>
    ensures { GivesReading rule_in (λ n. n) result (addend_of word.now) }
{
    match word.plain() {
        Some(bytes) => require(WorkRule::BadNumber, number_in(bytes)),
        None => refuse(WorkRule::WrongKind),
    }
}

fn read_add(found: Found, word: &Token<'_>) -> Result<Assign, LineError>
    ensures { GivesReading rule_in (λ a. a) result (add_of found word.now) }
{
    must(WorkRule::WrongKind, is_of_kind(Some(found.kind), Kind::Int))?;
    let by = read_addend(word)?;
    Ok(Assign::Add {
        column: found.at.column,
        by,
    })
}

fn read_to(alloc: Global, found: Found, word: &Token<'_>) -> Result<Assign, LineError>
    ensures { GivesReading rule_in (λ a. a) result (to_of found word.now) }
{
    let value = read_value(alloc, Some(found.kind), word)?;
    Ok(Assign::To {
        column: found.at.column,
        value,
    })
}

fn read_assign(
    alloc: Global,
    catalogue: &Catalogue,
    rel: u8,
    words: &Setting<'_>,
) -> Result<Assign, LineError>
    ensures { GivesReading rule_in (λ a. a) result (assign_of catalogue.now rel words.now) }
{
    let found = read_column(catalogue, &[Some(rel)], &words.left)?;
    must(
        WorkRule::KeyChanged,
        found.at.column != key_of(catalogue, u32::from(rel)),
    )?;
    if words.adds {
        read_add(found, &words.right)
    } else {
        read_to(alloc, found, &words.right)
    }
}

#[tactic(auto, using(crate::proofs::FewRead::few_loop))]
fn read_assigns(
    alloc: Global,
    catalogue: &Catalogue,
    rel: u8,
    words: &mut Settings<'_>,
) -> Result<Vec<Assign>, LineError>
    ensures { GivesReading rule_in (λ v. v.items) result
        (few MAX_ASSIGNMENTS (along (λ i s. assign_of catalogue.now rel s) 0 words.old)) }
{
    let mut sets = Vec::new(alloc);
    'words: while let Some(one) = words.next() {
        let assign = read_assign(alloc, catalogue, rel, &one)?;
        keep_few(&mut sets, MAX_ASSIGNMENTS, assign)?;
    }
    Ok(sets)
}

fn read_update_of(
    alloc: Global,
    catalogue: &Catalogue,
    rel: u8,
    sets: &mut Settings<'_>,
    words: &mut Comparisons<'_>,
) -> Result<Stmt, LineError>
    ensures { GivesReading rule_in (λ s. s) result (short (update_over catalogue.now rel sets.old words.old)) }
{
    let assigns = read_assigns(alloc, catalogue, rel, sets)?;
    let conds = read_conditions(alloc, catalogue, &[Some(rel)], words)?;
    Ok(Stmt::Update {
        rel: RelNo(u32::from(rel)),
        sets: Listed::from_vec(assigns),
        conds: Listed::from_vec(conds),
    })
}

#[tactic(auto, using(crate::proofs::Shortened::fails_at), unfolding(crate::specs::Statements::update_of_parts))]
fn read_update_parts(
    alloc: Global,
    catalogue: &Catalogue,
    name: &Token<'_>,
    sets: &mut Settings<'_>,
    words: &mut Comparisons<'_>,
) -> Result<Stmt, LineError>
    ensures { GivesReading rule_in (λ s. s) result
        (short (update_of_parts catalogue.now name.now sets.old words.old)) }
{
    let rel = require(WorkRule::UnknownName, part_of(catalogue, name))?;
    read_update_of(alloc, catalogue, rel, sets, words)
}

fn read_update_form(
    alloc: Global,
    catalogue: &Catalogue,
    name: &Token<'_>,
    sets: &mut Settings<'_>,
    rest: Tokens<'_>,
) -> Result<Stmt, LineError>
    ensures { GivesReading rule_in (λ s. s) result
        (short (update_with catalogue.now name.now sets.old rest.entry)) }
{
    match read_comparisons(rest) {
        Some(mut words) => read_update_parts(alloc, catalogue, name, sets, &mut words),
        None => refuse(WorkRule::BadLine),
    }
}

fn read_update_behind_set(
    alloc: Global,
    catalogue: &Catalogue,
    name: &Token<'_>,
    sets: Tokens<'_>,
    rest: Tokens<'_>,
) -> Result<Stmt, LineError>
    ensures { GivesReading rule_in (λ s. s) result
        (short (update_behind_set catalogue.now name.now sets.entry rest.entry)) }
{
    must(WorkRule::BadLine, is_free(name) && sets.has_words())?;
    match read_settings(sets) {
        Some(mut sets) => read_update_form(alloc, catalogue, name, &mut sets, rest),
        None => refuse(WorkRule::BadLine),
    }
}

fn read_update_to(
    alloc: Global,
    catalogue: &Catalogue,
    name: &Token<'_>,
    words: &Tokens<'_>,
) -> Result<Stmt, LineError>
    ensures { GivesReading rule_in (λ s. s) result (short (update_to catalogue.now name.now words.now)) }
{
    let (sets, rest) = words.split_from(b"where");
    read_update_behind_set(alloc, catalogue, name, sets, rest)
}

/// An update, by its relation, `set`, its assignments, and its conditions; of what is too many the
/// first ones.
pub fn read_update(
    alloc: Global,
    catalogue: &Catalogue,
    words: &mut Tokens<'_>,
) -> Result<Stmt, LineError>
    ensures { GivesReading rule_in (λ s. s) result (short (update_of catalogue.now words.old)) }
{
    match words.two() {
        Some((name, key)) => {
            must(WorkRule::BadLine, has_key(b"set", &key))?;
            read_update_to(alloc, catalogue, &name, words)
        }
        None => refuse(WorkRule::BadLine),
    }
}
