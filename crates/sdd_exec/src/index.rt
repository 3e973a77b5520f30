//! The rows of a part by their values in some of their columns.
ghost use Rattle.std.specs.Prelude.{◌≡◌, cond, ◌++◌, ◌∷◌, List, [], IfOk};
ghost use Rattle.std.specs.HashMap as hash;
ghost use Rattle.std.specs.Option.{option_map_or};
ghost use Rattle.sdd_lang.specs.All.{Value, rows_lent};
ghost use Rattle.sdd_exec.specs.Choices as joins;

use crate::tie::{Key, Tie, key_of};
use sdd_lang::{Condition, NoMemory, Row, compare, value_in};
use std::alloc::Global;
use std::collections::HashMap;

/// The places of rows by the values in some of their columns.
pub type Index = HashMap<Key, Vec<usize>>;

/// Whether a row of a part meets the condition, where it names no other part.
fn passes_one(part: usize, row: &Row, cond: &Condition) -> bool
    ensures { result ≡ joins.passes_one part row.now cond.now }
{
    match cond {
        Condition::Const { left, op, value } => {
            left.part.saturating_sub(1) as usize != part
                || op.admits(compare(value_in(row, left.column), Some(value)))
        }
        Condition::Same { left, right } => {
            left.part.saturating_sub(1) as usize != part
                || right.part.saturating_sub(1) as usize != part
                || compare(value_in(row, left.column), value_in(row, right.column)).is_eq()
        }
    }
}

/// Whether a row of a part meets the conditions that name no other part.
fn passes(part: usize, row: &Row, conds: &[Condition]) -> bool
    ensures { result ≡ joins.passes part conds.now row.now }
{
    conds.iter().all(|cond| passes_one(part, row, cond))
}

/// Adds the place of a row with its values in the tied columns, where it meets the conditions that
/// name no other part.
fn add_keyed(
    alloc: Global,
    keyed: &mut Vec<(Key, usize)>,
    part: usize,
    conds: &[Condition],
    ties: &[Tie],
    place: usize,
    row: &Row,
) -> Result<(), NoMemory>
    ensures { IfOk result (λ _. keyed.new.items ≡ keyed.old.items ++ joins.keyed part conds.now ties.now place (row.now ∷ [])) }
{
    if !passes(part, row, conds) {
        return Ok(());
    }
    let key = key_of(alloc, ties, row)?;
    keyed.push((key, place))?;
    Ok(())
}

/// The rows of a part that meet the conditions which name no other part: their places, each with
/// the row's values in the tied columns.
#[tactic(auto, using(crate::proofs::Steps::key_steps))]
fn keyed_places(
    alloc: Global,
    rows: &[&Row],
    part: usize,
    conds: &[Condition],
    ties: &[Tie],
) -> Result<Vec<(Key, usize)>, NoMemory>
    ensures { IfOk result (λ pairs. pairs.items ≡ joins.keyed part conds.now ties.now 0 (rows_lent rows.now)) }
{
    let mut keyed = Vec::new(alloc);
    for (place, row) in rows.iter().enumerate() {
        add_keyed(alloc, &mut keyed, part, conds, ties, place, row)?;
    }
    Ok(keyed)
}

/// Adds the place of a row, where it meets the conditions that name no other part.
fn add_untied(
    places: &mut Vec<usize>,
    part: usize,
    conds: &[Condition],
    place: usize,
    row: &Row,
) -> Result<(), NoMemory>
    ensures { IfOk result (λ _. places.new.items ≡ places.old.items ++ joins.places (joins.keyed part conds.now [] place (row.now ∷ [])) []) }
{
    if !passes(part, row, conds) {
        return Ok(());
    }
    places.push(place)?;
    Ok(())
}

/// The places of a part's rows where nothing ties it: of those that meet the conditions which name
/// no other part.
pub fn untied_places(
    alloc: Global,
    rows: &[&Row],
    part: usize,
    conds: &[Condition],
) -> Result<Vec<usize>, NoMemory>
    ensures { IfOk result (λ places. places.items ≡ joins.places (joins.keyed part conds.now [] 0 (rows_lent rows.now)) []) }
{
    let mut places = Vec::new(alloc);
    for (place, row) in rows.iter().enumerate() {
        add_untied(&mut places, part, conds, place, row)?;
    }
    Ok(places)
}

/// Takes out the places with the key.
fn take_places(alloc: Global, index: &mut Index, key: &Key) -> Vec<usize>
    ensures places { result.items ≡ option_map_or (λ v. v.items) (hash.get joins.same_row index.old key.now) [] }
    ensures others { (q : List Value) → hash.get joins.same_row index.new q ≡ cond (joins.same_row key.now q) None (hash.get joins.same_row index.old q) }
{
    match index.remove(key) {
        Some(places) => places,
        None => Vec::new(alloc),
    }
}

/// Adds a place to those with the key.
fn add_place(alloc: Global, index: &mut Index, key: Key, place: usize) -> Result<(), NoMemory>
    ensures { IfOk result (λ _. (q : List Value) →
        option_map_or (λ v. v.items) (hash.get joins.same_row index.new q) []
        ≡ option_map_or (λ v. v.items) (hash.get joins.same_row index.old q) [] ++ joins.places ((key, place) ∷ []) q) }
{
    let mut places = take_places(alloc, index, &key);
    places.push(place)?;
    index.insert(key, places)?;
    Ok(())
}

/// The places by their keys, which are moved.
#[tactic(auto, using(crate::proofs::Steps::grouped_next))]
pub fn group_by_key(alloc: Global, keyed: Vec<(Key, usize)>) -> Result<Index, NoMemory>
    ensures { IfOk result (λ m. (q : List Value) → option_map_or (λ v. v.items) (hash.get joins.same_row m q) [] ≡ joins.places keyed.items q) }
{
    let mut index: Index = HashMap::new(alloc);
    'pairs: for pair in keyed {
        let (key, place) = pair;
        add_place(alloc, &mut index, key, place)?;
    }
    Ok(index)
}

/// The places that the index has with a key.
pub fn places_of<'a>(index: &'a Index, key: &Key) -> &'a [usize]
    ensures { result.now ≡ option_map_or (λ v. v.items) (hash.get joins.same_row index.now key.now) [] }
{
    match index.get(key) {
        Some(places) => places.as_slice(),
        None => &[],
    }
}

/// The places of a part's rows by the values in the tied columns, of those rows alone that meet the
/// conditions which name no other part.
pub fn index(
    alloc: Global,
    rows: &[&Row],
    part: usize,
    conds: &[Condition],
    ties: &[Tie],
) -> Result<Index, NoMemory>
    ensures { IfOk result (λ m. (q : List Value) → option_map_or (λ v. v.items) (hash.get joins.same_row m q) [] ≡ joins.places (joins.keyed part conds.now ties.now 0 (rows_lent rows.now)) q) }
{
    group_by_key(alloc, keyed_places(alloc, rows, part, conds, ties)?)
}
