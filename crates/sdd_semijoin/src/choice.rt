ghost use Rattle.std.specs.Prelude.{◌≡◌, ◌<◌, ◌^◌, [], ◌∷◌, length, filter};
ghost use Rattle.std.specs.List.{list_any};
ghost use Rattle.sdd_semijoin.specs.Choosing.{moves_from, fewer, best_after};
ghost use Rattle.sdd_semijoin.specs.Steps.{rows_at, same_step, is_candidate, next_move};

use crate::moves::Move;
use crate::step::Step;
use sdd_lang::{Condition, Ref};

/// The next reducer move of a query with these conditions, whose uses have these numbers of rows,
/// once these steps are done: a step whose source has fewer rows than its target, and of such steps
/// the first with the fewest source rows; with the columns that give the values and are reduced.
/// None exactly where there is no such step.
///
/// Costs time in the conditions times the steps that are done. Takes no memory.
pub fn next_move(conds: &[Condition], counts: &[u128], done: &[Step]) -> Option<Move>
    requires { length conds.now < 2 ^ 32 }
    ensures { result ≡ next_move conds.now counts.now done.now }
{
    let mut best = None;
    let mut number = 0;
    for cond in conds {
        number += 1;
        best = with_condition(best, number, cond, counts, done);
    }
    best
}

/// The better of the best move so far and those of a condition.
fn with_condition(
    best: Option<Move>,
    number: u32,
    cond: &Condition,
    counts: &[u128],
    done: &[Step],
) -> Option<Move>
    ensures { result
        ≡ best_after counts.now best
        (filter (is_candidate counts.now done.now) (moves_from number (cond.now ∷ []))) }
{
    match cond {
        Condition::Const { .. } => best,
        Condition::Same { left, right } => {
            if left.part == right.part {
                return best;
            }
            let to_left = move_to(number, true, *right, *left);
            let to_right = move_to(number, false, *left, *right);
            let better = with_move(best, to_left, counts, done);
            with_move(better, to_right, counts, done)
        }
    }
}

fn move_to(cond: u32, left: bool, source: Ref, target: Ref) -> Move
    ensures { result
        ≡ record { step = record { cond = cond; left = left }; source = source; target = target } }
{
    Move::new(Step { cond, left }, source, target)
}

/// The better of the best move so far and another, where that is a candidate.
fn with_move(best: Option<Move>, other: Move, counts: &[u128], done: &[Step]) -> Option<Move>
    ensures { result
        ≡ best_after counts.now best
        (filter (is_candidate counts.now done.now) (other ∷ [])) }
{
    if is_candidate(&other, counts, done) {
        return Some(fewer(best, other, counts));
    }
    best
}

fn is_candidate(one: &Move, counts: &[u128], done: &[Step]) -> bool
    ensures { result ≡ is_candidate counts.now done.now one.now }
{
    !is_done(one.step(), done)
        && rows_at(counts, one.source().part) < rows_at(counts, one.target().part)
}

fn is_done(step: Step, done: &[Step]) -> bool
    ensures { result ≡ list_any (same_step step) done.now }
{
    done.iter().any(|other| step.is(other))
}

/// The later move only where its source has fewer rows.
fn fewer(best: Option<Move>, other: Move, counts: &[u128]) -> Move
    ensures { result ≡ fewer counts.now best other }
{
    match best {
        None => other,
        Some(first) => {
            if rows_at(counts, other.source().part) < rows_at(counts, first.source().part) {
                other
            } else {
                first
            }
        }
    }
}

/// The rows of a use, counted from 1 in the query.
fn rows_at(counts: &[u128], part: u32) -> u128
    ensures { result ≡ rows_at counts.now part }
{
    match counts.get(part.saturating_sub(1) as usize) {
        None => 0,
        Some(rows) => *rows,
    }
}
