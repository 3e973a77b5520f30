//! A join that looks ahead: a search of the choices part by part, depth first, which takes next the
//! part of which a choice leaves few rows.
ghost use Rattle.std.specs.Prelude.{◌≡◌, ◌&&◌, ◌||◌, true, false, length, slice_get, IfOk, IfSome, IsTrue};
ghost use Rattle.std.specs.Option.{option_map_or};
ghost use Rattle.sdd_lang.specs.All.{distinct, product, projection, selection, within};
ghost use Rattle.sdd_lang.specs.All as of_tuples;
ghost use Rattle.sdd_exec.specs.Choices as joins;
ghost use Rattle.sdd_shipped.specs.Members as members;
ghost use Rattle.sdd_exec.specs.Sifting as sift;
ghost use Rattle.sdd_exec.specs.Exploring as plans;

use crate::choice::{choice_with_place, fill};
use crate::found::Found;
use crate::index::places_of;
use crate::known::{
    Explored, add_told, is_answered, is_dead, is_known, remember, remember_dead, unexplored,
};
use crate::links::values_of;
use crate::parts::Parts;
use crate::plan::{Next, Node, is_led, make_plan};
use crate::tie::key_for;
use sdd_lang::{Condition, NoMemory, Ref, meets_all};
use std::alloc::Global;

/// How many choices are explored before the search gives up, for each row of all parts.
const STEPS_PER_ROW: usize = 64;

/// How many choices are explored in any search before it gives up.
const FREE_STEPS: usize = 4_096;

/// So many times fewer rows let a part be taken before one that stands first.
const FEWER: usize = 4;

/// The places of a part's rows that its ties allow behind a choice.
fn places_for<'p>(
    alloc: Global,
    next: &'p Next,
    parts: &Parts,
    choice: &[usize],
) -> Result<&'p [usize], NoMemory>
    ensures { IfOk result (λ places. places.now ≡ plans.places_with next.now (joins.key_for next.now.ties.items (joins.picked parts.now choice.now))) }
{
    let key = key_for(alloc, next.ties.as_slice(), parts, choice)?;
    Ok(places_of(&next.rows, &key))
}

/// Which of the parts that may be taken next is: the first without a row, or else one that has far
/// fewer than those before it.
fn best_next(
    alloc: Global,
    node: &Node,
    parts: &Parts,
    choice: &[usize],
) -> Result<usize, NoMemory> {
    let mut best = 0;
    if node.nexts.len() < 2 {
        return Ok(best);
    }
    let mut least = usize::MAX;
    for (at, next) in node.nexts.iter().enumerate() {
        let count = places_for(alloc, next, parts, choice)?.len();
        if count == 0 {
            return Ok(at);
        }
        if count < least / FEWER {
            least = count;
            best = at;
        }
    }
    Ok(best)
}

/// Whether the rows of a choice are there and meet the conditions.
fn is_met(
    alloc: Global,
    parts: &Parts,
    conds: &[Condition],
    choice: &[usize],
) -> Result<bool, NoMemory>
    ensures { IfOk result (λ met. met ≡ (joins.is_there parts.now choice.now && of_tuples.meets_all conds.now (joins.picked parts.now choice.now))) }
{
    let mut tuple = Vec::with_capacity(alloc, parts.count())?;
    if !fill(&mut tuple, parts, choice)? {
        return Ok(false);
    }
    Ok(meets_all(conds, tuple.as_slice()))
}

/// Adds the row of a choice of all parts, where it is an answer; whether it is, or None where there is
/// no room for all.
fn tell(
    alloc: Global,
    state: &mut Explored,
    parts: &Parts,
    conds: &[Condition],
    out: &[Ref],
    nodes: &[Node],
    room: usize,
    choice: &[usize],
) -> Result<Option<bool>, NoMemory>
    requires { plans.IsKept parts.now conds.now out.now nodes.now state.now }
    ensures kept { IfOk result (λ _. plans.IsKept parts.now conds.now out.now nodes.now state.new) }
    ensures still { IfOk result (λ _. plans.StillHas state.old.found state.new.found) }
    ensures told { IfOk result (λ _. joins.is_there parts.now choice.now ≡ true → of_tuples.meets_all conds.now (joins.picked parts.now choice.now) ≡ true
        → members.Has state.new.found (sift.values_of parts.now out.now choice.now)) }
    ensures none { IfOk result (λ told. IfSome told (λ came. came ≡ false
        → joins.is_there parts.now choice.now ≡ true → of_tuples.meets_all conds.now (joins.picked parts.now choice.now) ≡ true → ⊥)) }
{
    let row = values_of(alloc, parts, out, choice)?;
    if state.told.contains(&row) {
        return Ok(Some(true));
    }
    if !is_met(alloc, parts, conds, choice)? {
        return Ok(Some(false));
    }
    add_told(alloc, state, parts, out, choice)?;
    if state.found.len() > room {
        return Ok(None);
    }
    Ok(Some(true))
}

/// Whether one more choice may be explored.
fn goes_on(steps: &mut usize) -> bool {
    if *steps == 0 {
        return false;
    }
    *steps -= 1;
    true
}

/// Whether one of two is so.
fn is_either(one: bool, other: bool) -> bool
    ensures { result ≡ (one || other) }
{
    one || other
}

/// Finds all answers that come of a choice of a node's parts; whether any do, or None where it leaves
/// off, since there are more than asked for or the steps are used up.
fn explore(
    alloc: Global,
    state: &mut Explored,
    steps: &mut usize,
    nodes: &[Node],
    parts: &Parts,
    conds: &[Condition],
    out: &[Ref],
    room: usize,
    left: usize,
    place: usize,
    choice: &[usize],
) -> Result<Option<bool>, NoMemory>
    requires nodes { plans.AreNodes parts.now conds.now out.now nodes.now }
    requires kept { plans.IsKept parts.now conds.now out.now nodes.now state.now }
    requires sound { plans.IsSoundAt parts.now conds.now nodes.now place choice.now }
    ensures kept { IfOk result (λ _. plans.IsKept parts.now conds.now out.now nodes.now state.new) }
    ensures still { IfOk result (λ _. plans.StillHas state.old.found state.new.found) }
    ensures explored { IfOk result (λ whole. IfSome whole (λ came. plans.IsExploredAt parts.now conds.now out.now nodes.now place choice.now state.new.found)) }
    ensures none { IfOk result (λ whole. IfSome whole (λ came. came ≡ false → plans.NoneComesAt parts.now conds.now nodes.now place choice.now)) }
{
    let Some(node) = nodes.get(place) else {
        return Ok(None);
    };
    if node.is_whole {
        let told = tell(alloc, state, parts, conds, out, nodes, room, choice)?;
        return Ok(told);
    }
    if left == 0 {
        return Ok(None);
    }
    if !goes_on(steps) {
        return Ok(None);
    }
    if is_dead(alloc, state, node, place, parts, choice)? {
        return Ok(Some(false));
    }
    if is_known(alloc, state, node, place, parts, out, choice)? {
        return Ok(Some(true));
    }
    let best = best_next(alloc, node, parts, choice)?;
    let Some(next) = node.nexts.get(best) else {
        return Ok(None);
    };
    if !is_led(nodes, node, next) {
        return Ok(None);
    }
    let places = places_for(alloc, next, parts, choice)?;
    let mut came = false;
    for row in places {
        let longer = choice_with_place(alloc, parts.count(), choice, next.part, *row)?;
        let Some(more) = explore(
            alloc,
            state,
            steps,
            nodes,
            parts,
            conds,
            out,
            room,
            left - 1,
            next.node,
            longer.as_slice(),
        )?
        else {
            return Ok(None);
        };
        if is_answered(alloc, state, node, parts, out, choice)? {
            return Ok(Some(true));
        }
        came = is_either(came, more);
    }
    if came {
        remember(alloc, state, node, place, parts, choice)?;
        return Ok(Some(true));
    }
    remember_dead(alloc, state, node, place, parts, choice)?;
    Ok(Some(false))
}

/// How many rows the parts have.
fn count_rows(parts: &Parts) -> usize {
    let mut rows: usize = 0;
    for part in 0..parts.count() {
        rows = rows.saturating_add(parts.rows(part).len());
    }
    rows
}

/// Whether the first node is that of no part.
fn is_start(nodes: &[Node]) -> bool
    ensures { IsTrue result → option_map_or (λ node. length node.taken.items) (slice_get nodes.now 0) 1 ≡ 0 }
{
    match nodes.first() {
        Some(node) => node.taken.is_empty(),
        None => false,
    }
}

/// The answer, looked for depth first: None where the search gives up.
pub fn find_answers(
    alloc: Global,
    parts: &Parts,
    conds: &[Condition],
    out: &[Ref],
    room: usize,
) -> Result<Option<Option<Found>>, NoMemory>
    ensures { IfOk result (λ sought. IfSome sought (λ answer. answer ≡ within room (distinct (projection out.now (selection conds.now (product parts.now)))))) }
{
    let rows = count_rows(parts);
    let mut steps = rows
        .saturating_mul(STEPS_PER_ROW)
        .saturating_add(FREE_STEPS);
    let nodes = make_plan(alloc, parts, conds, out)?;
    let nodes = nodes.as_slice();
    if !is_start(nodes) {
        return Ok(None);
    }
    let mut state = unexplored(alloc, nodes.len(), rows)?;
    let whole = explore(
        alloc,
        &mut state,
        &mut steps,
        nodes,
        parts,
        conds,
        out,
        room,
        parts.count(),
        0,
        &[],
    )?;
    let Explored {
        seen: _,
        dead: _,
        free: _,
        told: _,
        found,
    } = state;
    if found.is_over(room) {
        return Ok(Some(None));
    }
    match whole {
        Some(_came) => Ok(Some(Some(found))),
        None => Ok(None),
    }
}
