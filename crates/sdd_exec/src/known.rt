//! What a search knows: the answers that it has found, and of which choices all that can come is found.
ghost use Rattle.std.specs.Prelude.{◌≡◌, ◌⊎◌, ◌<◌, ℕ, [], List, true, false, length, slice_get, IfOk, IsTrue};
ghost use Rattle.std.specs.Option.{option_map_or};
ghost use Rattle.std.specs.BTreeSet.{insert_key};
ghost use Rattle.std.specs.HashSet.{contains};
ghost use Rattle.sdd_lang.specs.All.{Value, row_cmp};
ghost use Rattle.sdd_exec.specs.Choices as joins;
ghost use Rattle.sdd_exec.specs.Sifting as sift;
ghost use Rattle.sdd_exec.specs.Exploring as plans;

use crate::found::Found;
use crate::links::values_of;
use crate::parts::Parts;
use crate::plan::Node;
use crate::tie::Key;
use sdd_lang::{AnswerRow, NoMemory, Ref};
use std::alloc::Global;
use std::collections::HashSet;

/// How many states are remembered besides one for each row of all parts.
const FREE_STATES: usize = 65_536;

/// What a search has explored.
#[derive(Drop)]
pub struct Explored {
    /// By the place of a node what choices of its parts, of which all that can come is found, have in
    /// its marks.
    pub seen: Vec<HashSet<Key>>,
    /// By the place of a node what choices of its parts, of which no row of the answer comes, have in
    /// its linked columns.
    pub dead: Vec<HashSet<Key>>,
    /// How many more of these may be remembered.
    pub free: usize,
    /// The answers, to ask for them quickly.
    pub told: HashSet<AnswerRow>,
    pub found: Found,
}

/// An empty set for each of so many places.
fn empty_sets(alloc: Global, places: usize) -> Result<Vec<HashSet<Key>>, NoMemory>
    ensures { IfOk result (λ sets. (n : ℕ) (q : List Value) → option_map_or (λ set. contains joins.same_row set q) (slice_get sets.items n) false ≡ false) }
{
    let mut sets = Vec::with_capacity(alloc, places)?;
    for _place in 0..places {
        sets.push(HashSet::new(alloc))?;
    }
    Ok(sets)
}

/// Nothing is explored yet.
pub fn unexplored(alloc: Global, nodes: usize, rows: usize) -> Result<Explored, NoMemory>
    ensures seen { IfOk result (λ state. (n : ℕ) (q : List Value) → plans.is_seen state n q ≡ false) }
    ensures dead { IfOk result (λ state. (n : ℕ) (q : List Value) → plans.is_dead state n q ≡ false) }
    ensures told { IfOk result (λ state. (q : List Value) → contains joins.same_row state.told q ≡ false) }
    ensures found { IfOk result (λ state. state.found ≡ []) }
{
    Ok(Explored {
        seen: empty_sets(alloc, nodes)?,
        dead: empty_sets(alloc, nodes)?,
        free: rows.saturating_add(FREE_STATES),
        told: HashSet::new(alloc),
        found: Found::new(alloc),
    })
}

/// Adds what a choice has in the listed columns to the answers.
pub fn add_told(
    alloc: Global,
    state: &mut Explored,
    parts: &Parts,
    out: &[Ref],
    choice: &[usize],
) -> Result<(), NoMemory>
    ensures found { IfOk result (λ _. state.new.found ≡ insert_key row_cmp state.old.found (sift.values_of parts.now out.now choice.now)) }
    ensures told { IfOk result (λ _. (q : List Value) → contains joins.same_row state.new.told q ≡ true
        → (contains joins.same_row state.old.told q ≡ true) ⊎ (sift.values_of parts.now out.now choice.now ≡ q)) }
    ensures seen { state.new.seen ≡ state.old.seen }
    ensures dead { state.new.dead ≡ state.old.dead }
{
    let row = values_of(alloc, parts, out, choice)?;
    state.found.add(alloc, row)?;
    let again = values_of(alloc, parts, out, choice)?;
    state.told.insert(again)?;
    Ok(())
}

/// Whether a choice has all listed columns, and they are an answer that was found.
pub fn is_answered(
    alloc: Global,
    state: &Explored,
    node: &Node,
    parts: &Parts,
    out: &[Ref],
    choice: &[usize],
) -> Result<bool, NoMemory>
    ensures { IfOk result (λ told. IsTrue told → (node.now.is_listed ≡ true) × (contains joins.same_row state.now.told (sift.values_of parts.now out.now choice.now) ≡ true)) }
{
    if !node.is_listed {
        return Ok(false);
    }
    let row = values_of(alloc, parts, out, choice)?;
    Ok(state.told.contains(&row))
}

/// Whether it is known that no row of the answer comes of a choice.
pub fn is_dead(
    alloc: Global,
    state: &Explored,
    node: &Node,
    place: usize,
    parts: &Parts,
    choice: &[usize],
) -> Result<bool, NoMemory>
    ensures { IfOk result (λ dead. IsTrue dead → plans.is_dead state.now place (sift.values_of parts.now node.now.links.items choice.now) ≡ true) }
{
    let Some(dead) = state.dead.get(place) else {
        return Ok(false);
    };
    if dead.is_empty() {
        return Ok(false);
    }
    let links = values_of(alloc, parts, node.links.as_slice(), choice)?;
    Ok(dead.contains(&links))
}

/// Whether a choice of the node at a place was explored that has these values in its marks.
fn is_seen(state: &Explored, place: usize, marks: &Key) -> bool
    ensures { result ≡ plans.is_seen state.now place marks.now }
{
    match state.seen.get(place) {
        Some(seen) => seen.contains(marks),
        None => false,
    }
}

/// Whether all that can come of a choice is known to be found.
pub fn is_known(
    alloc: Global,
    state: &Explored,
    node: &Node,
    place: usize,
    parts: &Parts,
    out: &[Ref],
    choice: &[usize],
) -> Result<bool, NoMemory>
    ensures { IfOk result (λ known. IsTrue known → (plans.is_seen state.now place (sift.values_of parts.now node.now.marks.items choice.now) ≡ true)
        ⊎ ((node.now.is_listed ≡ true) × (contains joins.same_row state.now.told (sift.values_of parts.now out.now choice.now) ≡ true))) }
{
    let marks = values_of(alloc, parts, node.marks.as_slice(), choice)?;
    if is_seen(state, place, &marks) {
        return Ok(true);
    }
    is_answered(alloc, state, node, parts, out, choice)
}

/// Adds a row to the set at a place.
fn add_seen(seen: &mut Vec<HashSet<Key>>, place: usize, marks: Key) -> Result<(), NoMemory>
    requires { place < length seen.now.items }
    ensures { IfOk result (λ _. (n : ℕ) (q : List Value) → option_map_or (λ set. contains joins.same_row set q) (slice_get seen.new.items n) false ≡ true
        → (option_map_or (λ set. contains joins.same_row set q) (slice_get seen.old.items n) false ≡ true) ⊎ ((n ≡ place) × (marks ≡ q))) }
{
    seen[place].insert(marks)?;
    Ok(())
}

/// Remembers that all that can come of a choice is found.
pub fn remember(
    alloc: Global,
    state: &mut Explored,
    node: &Node,
    place: usize,
    parts: &Parts,
    choice: &[usize],
) -> Result<(), NoMemory>
    ensures seen { IfOk result (λ _. (n : ℕ) (q : List Value) → plans.is_seen state.new n q ≡ true
        → (plans.is_seen state.old n q ≡ true) ⊎ ((n ≡ place) × (sift.values_of parts.now node.now.marks.items choice.now ≡ q))) }
    ensures dead { state.new.dead ≡ state.old.dead }
    ensures told { state.new.told ≡ state.old.told }
    ensures found { state.new.found ≡ state.old.found }
{
    if state.free == 0 {
        return Ok(());
    }
    if place >= state.seen.len() {
        return Ok(());
    }
    state.free -= 1;
    let marks = values_of(alloc, parts, node.marks.as_slice(), choice)?;
    add_seen(&mut state.seen, place, marks)
}

/// Remembers that no row of the answer comes of a choice.
pub fn remember_dead(
    alloc: Global,
    state: &mut Explored,
    node: &Node,
    place: usize,
    parts: &Parts,
    choice: &[usize],
) -> Result<(), NoMemory>
    ensures dead { IfOk result (λ _. (n : ℕ) (q : List Value) → plans.is_dead state.new n q ≡ true
        → (plans.is_dead state.old n q ≡ true) ⊎ ((n ≡ place) × (sift.values_of parts.now node.now.links.items choice.now ≡ q))) }
    ensures seen { state.new.seen ≡ state.old.seen }
    ensures told { state.new.told ≡ state.old.told }
    ensures found { state.new.found ≡ state.old.found }
{
    if state.free == 0 {
        return Ok(());
    }
    if place >= state.dead.len() {
        return Ok(());
    }
    state.free -= 1;
    let links = values_of(alloc, parts, node.links.as_slice(), choice)?;
    add_seen(&mut state.dead, place, links)
}
