//! Choices: of each part one row, by its place.
ghost use Rattle.std.specs.Prelude.{◌≡◌, ◌==◌, cond, IfOk, IsTrue, slice_index};
ghost use Rattle.sdd_lang.specs.Condition as of_tuples;
ghost use Rattle.sdd_lang.specs.All.{held, rows_lent};
ghost use Rattle.sdd_exec.specs.Choices as joins;

use crate::parts::Parts;
use sdd_lang::{Listed, NoMemory, Ref, Row, Value, value_in};
use std::alloc::Global;

/// Of each part the place of one row, counted from 0. A place that isn't given is 0.
pub type Choice = Listed<usize>;

/// The place of a part in a choice.
pub fn place_at(choice: &[usize], part: usize) -> usize
    ensures { result ≡ slice_index choice.now part }
{
    choice.get(part).copied().unwrap_or(0)
}

/// The value of a column in the rows of a choice, or None where it isn't there.
#[tactic(auto, using(crate::proofs::Picked::value_in_picked))]
pub fn value_at<'a>(parts: &Parts<'a>, choice: &[usize], at: Ref) -> Option<&'a Value>
    ensures { held result ≡ of_tuples.value_at (joins.picked parts.now choice.now) at }
{
    let part = (at.part as usize).saturating_sub(1);
    match parts.row(part, place_at(choice, part)) {
        Some(row) => value_in(row, at.column),
        None => None,
    }
}

/// Makes the tuple that of a choice's rows, in the memory that it has; false where a place isn't one
/// of its part.
pub fn fill<'a>(
    tuple: &mut Vec<&'a Row>,
    parts: &Parts<'a>,
    choice: &[usize],
) -> Result<bool, NoMemory>
    ensures there { IfOk result (λ whole. whole ≡ joins.is_there parts.now choice.now) }
    ensures rows { IfOk result (λ whole. IsTrue whole → rows_lent tuple.new.items ≡ joins.picked parts.now choice.now) }
{
    tuple.clear();
    for part in 0..parts.count() {
        match parts.row(part, place_at(choice, part)) {
            Some(row) => tuple.push(row)?,
            None => return Ok(false),
        }
    }
    Ok(true)
}

/// The place of a part in the choice that has another place at one part.
fn place_of(choice: &[usize], part: usize, place: usize, p: usize) -> usize
    ensures { result ≡ cond (p == part) place (slice_index choice.now p) }
{
    if p == part {
        return place;
    }
    place_at(choice, p)
}

/// The choice for so many parts with another place at one of them.
pub fn choice_with_place(
    alloc: Global,
    parts: usize,
    choice: &[usize],
    part: usize,
    place: usize,
) -> Result<Choice, NoMemory>
    ensures { IfOk result (λ next. next ≡ joins.placed parts choice.now part place) }
{
    let mut places = Vec::with_capacity(alloc, parts)?;
    for p in 0..parts {
        places.push(place_of(choice, part, place, p))?;
    }
    Ok(Choice::from_vec(places))
}
