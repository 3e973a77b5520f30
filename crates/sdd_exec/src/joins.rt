//! The join of a query's parts.
ghost use Rattle.std.specs.Prelude.{◌≡◌, ◌<◌, ◌≤◌, ◌++◌, ◌∷◌, true, ℕ, length, map, List, []};
ghost use Rattle.std.specs.Prelude.{IfOk, IfSome, slice_index_or, filter_map};
ghost use Rattle.std.specs.List.{flat_map};
ghost use Rattle.std.specs.HashMap as hash;
ghost use Rattle.std.specs.Option.{option_map_or};
ghost use Rattle.sdd_lang.specs.All.{distinct, product, projection, rows_lent, selection, within};
ghost use Rattle.sdd_exec.specs.Choices as joins;
ghost use Rattle.sdd_exec.specs.Sifting as sift;

use crate::choice::{Choice, choice_with_place, fill};
use crate::exploring::find_answers;
use crate::found::Found;
use crate::index::{Index, index, places_of, untied_places};
use crate::parts::Parts;
use crate::sifting::sift;
use crate::tie::{Tie, key_for, ties};
use sdd_lang::{Answer, Condition, MAX_REPLY_ROWS, NoMemory, Ref, Row, meets_all, project};
use std::alloc::Global;

/// How many choices, of one row from each part taken so far, a step may make before the join begins
/// anew and looks ahead. It is as many as a reply may have rows: looking ahead in a join that makes no
/// more costs more than it saves, since each of these choices may be an answer. It bounds the time
/// and the memory of a join alone: what is answered is the same whatever it is.
const FREE_CHOICES: usize = MAX_REPLY_ROWS;

/// The first part that wasn't taken; 0 where none is left.
fn first_left(parts: usize, taken: &[usize]) -> usize
    requires { 0 < parts }
    ensures { result < parts }
{
    for part in 0..parts {
        if !taken.contains(&part) {
            return part;
        }
    }
    0
}

/// The part to be taken next: one that an equality ties to those that were taken, or else the first
/// that is left.
fn next_part(
    alloc: Global,
    parts: usize,
    taken: &[usize],
    conds: &[Condition],
) -> Result<usize, NoMemory>
    requires { 0 < parts }
    ensures { IfOk result (λ part. part < parts) }
{
    for part in 0..parts {
        if !taken.contains(&part) && !ties(alloc, taken, part, conds)?.is_empty() {
            return Ok(part);
        }
    }
    Ok(first_left(parts, taken))
}

/// Adds the choice with each of these places of a part.
fn extend(
    alloc: Global,
    kept: &mut Vec<Choice>,
    parts: usize,
    choice: &[usize],
    part: usize,
    places: &[usize],
) -> Result<(), NoMemory>
    ensures { IfOk result (λ _. kept.new.items ≡ kept.old.items ++ map (joins.placed parts choice.now part) places.now) }
{
    kept.reserve(places.len())?;
    for place in places {
        kept.push(choice_with_place(alloc, parts, choice, part, *place)?)?;
    }
    Ok(())
}

/// The choices with each place of a part that the index has for them; left where they are more than
/// so many.
fn extend_all(
    alloc: Global,
    parts: &Parts,
    kept: &[Choice],
    part: usize,
    ties: &[Tie],
    index: &Index,
    most: usize,
) -> Result<Vec<Choice>, NoMemory>
    ensures { let found = λ (choice : List ℕ). option_map_or (λ v. v.items) (hash.get joins.same_row index.now (joins.key_for ties.now (joins.picked parts.now choice))) [] in
        IfOk result (λ extended. length extended.items ≤ most → extended.items ≡ flat_map (λ (choice : List ℕ). map (joins.placed (length parts.now) choice part) (found choice)) kept.now) }
{
    let mut made = Vec::new(alloc);
    for choice in kept {
        let key = key_for(alloc, ties, parts, choice.as_slice())?;
        let places = places_of(index, &key);
        extend(
            alloc,
            &mut made,
            parts.count(),
            choice.as_slice(),
            part,
            places,
        )?;
        if made.len() > most {
            return Ok(made);
        }
    }
    Ok(made)
}

/// The choices with each of these places of a part; left where they are more than so many.
fn extend_each(
    alloc: Global,
    parts: usize,
    kept: &[Choice],
    part: usize,
    places: &[usize],
    most: usize,
) -> Result<Vec<Choice>, NoMemory>
    ensures { IfOk result (λ extended. length extended.items ≤ most → extended.items ≡ flat_map (λ (choice : List ℕ). map (joins.placed parts choice part) places.now) kept.now) }
{
    let mut made = Vec::new(alloc);
    for choice in kept {
        extend(alloc, &mut made, parts, choice.as_slice(), part, places)?;
        if made.len() > most {
            return Ok(made);
        }
    }
    Ok(made)
}

/// The choices with the rows of one more part, which nothing ties; left where they are more than so
/// many.
fn take_untied(
    alloc: Global,
    parts: &Parts,
    conds: &[Condition],
    kept: &[Choice],
    part: usize,
    most: usize,
) -> Result<Vec<Choice>, NoMemory>
    requires { part < length parts.now }
    ensures { IfOk result (λ extended. length extended.items ≤ most → extended.items ≡ flat_map (joins.extended parts.now part [] (joins.keyed part conds.now [] 0 (slice_index_or parts.now part []))) kept.now) }
{
    let places = untied_places(alloc, parts.rows(part), part, conds)?;
    extend_each(alloc, parts.count(), kept, part, &places, most)
}

/// The choices with the rows of one more part; left where they are more than so many.
fn take_part(
    alloc: Global,
    parts: &Parts,
    conds: &[Condition],
    taken: &[usize],
    kept: &[Choice],
    part: usize,
    most: usize,
) -> Result<Vec<Choice>, NoMemory>
    requires { part < length parts.now }
    ensures { IfOk result (λ extended. length extended.items ≤ most → extended.items ≡ flat_map (joins.extensions parts.now conds.now taken.now part) kept.now) }
{
    let ties = ties(alloc, taken, part, conds)?;
    if ties.is_empty() {
        return take_untied(alloc, parts, conds, kept, part, most);
    }
    let index = index(alloc, parts.rows(part), part, conds, &ties)?;
    extend_all(alloc, parts, kept, part, &ties, &index, most)
}

/// What a join has reached: the parts that it took, and choices that have places of these.
#[derive(Drop)]
struct Reached {
    taken: Vec<usize>,
    kept: Vec<Choice>,
}

/// Nothing is taken, and one choice stands for all.
fn begin(alloc: Global) -> Result<Reached, NoMemory>
    ensures taken { IfOk result (λ reached. reached.taken.items ≡ []) }
    ensures kept { IfOk result (λ reached. reached.kept.items ≡ [] ∷ []) }
{
    let mut kept = Vec::new(alloc);
    kept.push(Choice::from_vec(Vec::new(alloc)))?;
    Ok(Reached {
        taken: Vec::new(alloc),
        kept,
    })
}

/// Takes one more part, where it isn't taken.
#[tactic(auto, using(crate::proofs::Complete::take_steps))]
fn take(
    alloc: Global,
    parts: &Parts,
    conds: &[Condition],
    reached: Reached,
    part: usize,
    most: usize,
) -> Result<Reached, NoMemory>
    requires part { part < length parts.now }
    requires complete { joins.IsComplete parts.now conds.now reached.taken.items reached.kept.items }
    ensures complete { IfOk result (λ next. length next.kept.items ≤ most → joins.IsComplete parts.now conds.now next.taken.items next.kept.items) }
    ensures taken { IfOk result (λ next. joins.is_taken next.taken.items part ≡ true) }
    ensures still { IfOk result (λ next. (p : ℕ) → joins.is_taken reached.taken.items p ≡ true → joins.is_taken next.taken.items p ≡ true) }
{
    let Reached { mut taken, kept } = reached;
    if taken.contains(&part) {
        return Ok(Reached { taken, kept });
    }
    let kept = take_part(alloc, parts, conds, &taken, &kept, part, most)?;
    taken.push(part)?;
    Ok(Reached { taken, kept })
}

/// Choices among which are all whose rows meet the conditions; None where a step makes more than so
/// many.
#[tactic(auto, using(crate::proofs::Complete::choice_steps))]
fn few(
    alloc: Global,
    parts: &Parts,
    conds: &[Condition],
    most: usize,
) -> Result<Option<Vec<Choice>>, NoMemory>
    ensures { IfOk result (λ few. IfSome few (λ kept. joins.HasAll parts.now conds.now kept.items)) }
{
    let mut reached = begin(alloc)?;
    for _step in 0..parts.count() {
        let part = next_part(alloc, parts.count(), reached.taken.as_slice(), conds)?;
        reached = take(alloc, parts, conds, reached, part, most)?;
        if reached.kept.len() > most {
            return Ok(None);
        }
    }
    for part in 0..parts.count() {
        reached = take(alloc, parts, conds, reached, part, most)?;
        if reached.kept.len() > most {
            return Ok(None);
        }
    }
    let Reached { taken: _, kept } = reached;
    Ok(Some(kept))
}

/// Adds the listed columns of a tuple, where it meets the conditions.
fn add_tuple(
    alloc: Global,
    rows: &mut Found,
    conds: &[Condition],
    out: &[Ref],
    tuple: &[&Row],
) -> Result<(), NoMemory>
    ensures { IfOk result (λ _. rows.new ≡ joins.with_found (joins.row_of_tuple out.now conds.now (rows_lent tuple.now)) rows.old) }
{
    if !meets_all(conds, tuple) {
        return Ok(());
    }
    rows.add(alloc, project(alloc, out, tuple)?)
}

/// Adds the listed columns of a choice, where its rows are there and meet the conditions. The tuple
/// is memory for these rows.
fn add_answer<'a>(
    alloc: Global,
    rows: &mut Found,
    tuple: &mut Vec<&'a Row>,
    parts: &Parts<'a>,
    conds: &[Condition],
    out: &[Ref],
    choice: &[usize],
) -> Result<(), NoMemory>
    ensures { IfOk result (λ _. rows.new ≡ joins.with_found (joins.row_from parts.now out.now conds.now choice.now) rows.old) }
{
    if !fill(tuple, parts, choice)? {
        return Ok(());
    }
    add_tuple(alloc, rows, conds, out, tuple.as_slice())
}

/// The listed columns of the choices that meet the conditions, ascending, each once; None where
/// there are more than so many.
#[tactic(auto, using(crate::proofs::Steps::answer_steps))]
fn answers(
    alloc: Global,
    parts: &Parts,
    conds: &[Condition],
    out: &[Ref],
    kept: &[Choice],
    room: usize,
) -> Result<Option<Found>, NoMemory>
    ensures { IfOk result (λ found. found ≡ within room (distinct (filter_map (joins.row_from parts.now out.now conds.now) kept.now))) }
{
    let mut rows = Found::new(alloc);
    let mut tuple = Vec::with_capacity(alloc, parts.count())?;
    for choice in kept {
        let choice = choice.as_slice();
        add_answer(alloc, &mut rows, &mut tuple, parts, conds, out, choice)?;
        if rows.len() > room {
            return Ok(None);
        }
    }
    Ok(Some(rows))
}

/// The answer over the rows of one part.
fn answers_of_one(
    alloc: Global,
    rows: &[&Row],
    conds: &[Condition],
    out: &[Ref],
    room: usize,
) -> Result<Option<Found>, NoMemory>
    ensures { IfOk result (λ found. found ≡ within room (distinct (projection out.now (selection conds.now (product (rows_lent rows.now ∷ [])))))) }
{
    let mut found = Found::new(alloc);
    for row in rows {
        add_tuple(alloc, &mut found, conds, out, &[row])?;
        if found.len() > room {
            return Ok(None);
        }
    }
    Ok(Some(found))
}

/// The answer over the rows of the parts.
fn answers_of_all(
    alloc: Global,
    parts: &Parts,
    conds: &[Condition],
    out: &[Ref],
    room: usize,
) -> Result<Option<Found>, NoMemory>
    ensures { IfOk result (λ found. found ≡ within room (distinct (projection out.now (selection conds.now (product parts.now))))) }
{
    if parts.count() == 1 {
        return answers_of_one(alloc, parts.rows(0), conds, out, room);
    }
    if let Some(kept) = few(alloc, parts, conds, FREE_CHOICES)? {
        return answers(alloc, parts, conds, out, &kept, room);
    }
    if let Some(answer) = find_answers(alloc, parts, conds, out, room)? {
        return Ok(answer);
    }
    let kept = sift(alloc, parts, conds, out, room)?;
    answers(alloc, parts, conds, out, &kept, room)
}

/// The answer of a query over these rows of its parts, or None where it has more than `room` rows.
///
/// Where there is one part, its rows are gone through once, and none but those of the answer takes
/// memory. Of several parts one is taken after the other, at each step one that an equality ties to
/// those that were taken, where there is one; its rows are found by a hash of the tied columns. So
/// it costs time with the rows, the tuples that meet the equalities of the parts taken so far, and
/// for each row that is found one comparison; a logarithmic step each, where these don't ascend.
/// Where a step makes more than 4,096 choices the join begins anew and goes depth first through the
/// parts, always to one of which the choice leaves few rows; where it leaves none of any tied part
/// it goes no further. Then it costs a look-up for each part that is tied, at each of up to 64
/// choices a row, and memory follows the rows, for their indexes and for what is remembered of the
/// choices that were explored. A search that isn't through by then gives up, and the choices are
/// sifted at each step: then memory follows the values in tied columns and the answers, up to
/// `room`, and not the choices.
pub fn join(
    alloc: Global,
    parts: &Parts,
    out: &[Ref],
    conds: &[Condition],
    room: usize,
) -> Result<Option<Answer>, NoMemory>
    ensures { IfOk result (λ rows. rows ≡ within room (distinct (projection out.now (selection conds.now (product parts.now))))) }
{
    match answers_of_all(alloc, parts, conds, out, room)? {
        None => Ok(None),
        Some(found) => Ok(Some(found.into_list(alloc)?)),
    }
}
