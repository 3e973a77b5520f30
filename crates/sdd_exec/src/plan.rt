//! The plan of a search part by part: which parts may be taken behind which others, and how their rows
//! are found.
ghost use Rattle.std.specs.Prelude.{◌≡◌, ◌<◌, ◌++◌, ◌∷◌, ℕ, [], List, true, false, length, map, IfOk, IfSome, IsTrue, slice_get, slice_index_or};
ghost use Rattle.std.specs.HashMap as hash;
ghost use Rattle.std.specs.Option.{option_map_or};
ghost use Rattle.sdd_lang.specs.All.{Value};
ghost use Rattle.sdd_exec.specs.Choices as joins;
ghost use Rattle.sdd_exec.specs.Exploring as plans;

use crate::index::{Index, index};
use crate::links::{links, outs};
use crate::order::with_part;
use crate::parts::Parts;
use crate::tie::{Tie, part_of, ties};
use sdd_lang::{Condition, NoMemory, Ref};
use std::alloc::Global;
use std::rc::Rc;

/// How many nodes a plan has at most. Six uses each of which is tied to each other one need 326.
const MOST_NODES: usize = 512;

/// From so many indexes on none is made for a part beside which another one may be taken.
const MANY_INDEXES: usize = 16;

/// A part that may be taken next.
#[derive(Drop)]
pub struct Next {
    pub part: usize,
    /// What ties it to those that were taken.
    pub ties: Vec<Tie>,
    /// Its rows by their values in the tied columns.
    pub rows: Rc<Index>,
    /// The place of the node that it leads to.
    pub node: usize,
}

/// Parts that were taken, in their order.
#[derive(Drop)]
pub struct Node {
    pub taken: Vec<usize>,
    /// The columns of these parts that conditions tie to other parts: they tell whether any row of the
    /// answer comes of a choice.
    pub links: Vec<Ref>,
    /// The columns that tell what can come of a choice of these parts: those that conditions tie to
    /// other parts, and then the listed ones.
    pub marks: Vec<Ref>,
    /// Whether these are all parts.
    pub is_whole: bool,
    /// Whether all listed columns are of these parts.
    pub is_listed: bool,
    pub nexts: Vec<Next>,
}

/// An index that was made.
#[derive(Drop)]
struct Made {
    part: usize,
    columns: Vec<u32>,
    rows: Rc<Index>,
}

/// The columns of ties.
fn columns_of(alloc: Global, ties: &[Tie]) -> Result<Vec<u32>, NoMemory>
    ensures { IfOk result (λ columns. columns.items ≡ map (λ t. t.column) ties.now) }
{
    let mut columns = Vec::with_capacity(alloc, ties.len())?;
    for tie in ties {
        columns.push(tie.column)?;
    }
    Ok(columns)
}

/// Whether an index is of a part and by these columns.
fn is_of(made: &Made, part: usize, columns: &[u32]) -> bool
    ensures { IsTrue result → (made.now.part ≡ part) × (made.now.columns.items ≡ columns.now) }
{
    made.part == part && made.columns.as_slice() == columns
}

/// The index of a part by these columns, where it was made.
fn made_for(
    made: &[Made],
    parts: &Parts,
    conds: &[Condition],
    part: usize,
    columns: &[u32],
) -> Result<Option<Rc<Index>>, NoMemory>
    requires { plans.AreMade parts.now conds.now made.now }
    ensures { IfOk result (λ found. IfSome found (λ rows. (ties : List Tie) → map (λ t. t.column) ties ≡ columns.now → (q : List Value) →
        option_map_or (λ v. v.items) (hash.get joins.same_row rows.value q) [] ≡ joins.places (joins.keyed part conds.now ties 0 (slice_index_or parts.now part [])) q)) }
{
    for one in made {
        if is_of(one, part, columns) {
            let rows = one.rows.clone()?;
            return Ok(Some(rows));
        }
    }
    Ok(None)
}

/// The index of a part by its ties, which are in these columns.
fn make_rows(
    alloc: Global,
    made: &mut Vec<Made>,
    parts: &Parts,
    conds: &[Condition],
    part: usize,
    ties: &[Tie],
    columns: Vec<u32>,
) -> Result<Rc<Index>, NoMemory>
    requires part { part < length parts.now }
    requires made { plans.AreMade parts.now conds.now made.now.items }
    requires columns { columns.items ≡ map (λ t. t.column) ties.now }
    ensures rows { IfOk result (λ rows. (q : List Value) →
        option_map_or (λ v. v.items) (hash.get joins.same_row rows.value q) [] ≡ joins.places (joins.keyed part conds.now ties.now 0 (slice_index_or parts.now part [])) q) }
    ensures made { IfOk result (λ _. plans.AreMade parts.now conds.now made.new.items) }
{
    let found = index(alloc, parts.rows(part), part, conds, ties)?;
    let shared = Rc::new(alloc, found)?;
    let copy = shared.clone()?;
    made.push(Made {
        part,
        columns,
        rows: copy,
    })?;
    Ok(shared)
}

/// The index of a part by its ties, which is made where it wasn't.
fn rows_by(
    alloc: Global,
    made: &mut Vec<Made>,
    parts: &Parts,
    conds: &[Condition],
    part: usize,
    ties: &[Tie],
) -> Result<Rc<Index>, NoMemory>
    requires part { part < length parts.now }
    requires made { plans.AreMade parts.now conds.now made.now.items }
    ensures rows { IfOk result (λ rows. (q : List Value) →
        option_map_or (λ v. v.items) (hash.get joins.same_row rows.value q) [] ≡ joins.places (joins.keyed part conds.now ties.now 0 (slice_index_or parts.now part [])) q) }
    ensures made { IfOk result (λ _. plans.AreMade parts.now conds.now made.new.items) }
{
    let columns = columns_of(alloc, ties)?;
    let found = made_for(made.as_slice(), parts, conds, part, columns.as_slice())?;
    match found {
        Some(rows) => Ok(rows),
        None => make_rows(alloc, made, parts, conds, part, ties, columns),
    }
}

/// How late a part is to be taken: tied ones first, of these those with a listed column, and then
/// those that leave the fewest linked columns.
fn lateness(
    alloc: Global,
    taken: &[usize],
    part: usize,
    conds: &[Condition],
    out: &[Ref],
) -> Result<(bool, bool, usize), NoMemory> {
    let untied = ties(alloc, taken, part, conds)?.is_empty();
    let unlisted = outs(alloc, &[part], out)?.is_empty();
    let group = with_part(alloc, taken, part)?;
    let linked = links(alloc, &group, conds)?.len();
    Ok((untied, unlisted, linked))
}

/// The part that is taken next where no other has far fewer rows.
fn first_next(
    alloc: Global,
    parts: usize,
    taken: &[usize],
    conds: &[Condition],
    out: &[Ref],
) -> Result<usize, NoMemory> {
    let mut best = 0;
    let mut least = (true, true, usize::MAX);
    for part in 0..parts {
        if !taken.contains(&part) {
            let late = lateness(alloc, taken, part, conds, out)?;
            if late < least {
                least = late;
                best = part;
            }
        }
    }
    Ok(best)
}

/// Whether a part with so many ties is to be one of those that may be taken next.
fn is_wanted(nexts: usize, ties: usize, indexes: usize) -> bool {
    nexts == 0 || (ties > 0 && indexes < MANY_INDEXES)
}

/// Adds a part that may be taken next, where it is tied or the only one.
fn add_next(
    alloc: Global,
    made: &mut Vec<Made>,
    lists: &mut Vec<Vec<usize>>,
    nexts: &mut Vec<Next>,
    parts: &Parts,
    conds: &[Condition],
    taken: &[usize],
    part: usize,
) -> Result<(), NoMemory>
    requires made { plans.AreMade parts.now conds.now made.now.items }
    requires nexts { plans.AreNexts parts.now conds.now taken.now nexts.now.items }
    ensures made { IfOk result (λ _. plans.AreMade parts.now conds.now made.new.items) }
    ensures nexts { IfOk result (λ _. plans.AreNexts parts.now conds.now taken.now nexts.new.items) }
{
    if part >= parts.count() {
        return Ok(());
    }
    if taken.contains(&part) {
        return Ok(());
    }
    let ties = ties(alloc, taken, part, conds)?;
    if !is_wanted(nexts.len(), ties.len(), made.len()) {
        return Ok(());
    }
    let node = lists.len();
    lists.push(with_part(alloc, taken, part)?)?;
    let rows = rows_by(alloc, made, parts, conds, part, &ties)?;
    nexts.push(Next {
        part,
        ties,
        rows,
        node,
    })?;
    Ok(())
}

/// The parts that may be taken behind these; the lists of parts to which they lead are added.
fn nexts_of(
    alloc: Global,
    made: &mut Vec<Made>,
    lists: &mut Vec<Vec<usize>>,
    parts: &Parts,
    conds: &[Condition],
    out: &[Ref],
    taken: &[usize],
) -> Result<Vec<Next>, NoMemory>
    requires { plans.AreMade parts.now conds.now made.now.items }
    ensures made { IfOk result (λ _. plans.AreMade parts.now conds.now made.new.items) }
    ensures nexts { IfOk result (λ nexts. plans.AreNexts parts.now conds.now taken.now nexts.items) }
{
    let first = first_next(alloc, parts.count(), taken, conds, out)?;
    let mut nexts = Vec::new(alloc);
    add_next(alloc, made, lists, &mut nexts, parts, conds, taken, first)?;
    for part in 0..parts.count() {
        if part != first {
            add_next(alloc, made, lists, &mut nexts, parts, conds, taken, part)?;
        }
    }
    Ok(nexts)
}

/// What tells what can come of a choice of these parts.
fn marks_of(
    alloc: Global,
    taken: &[usize],
    conds: &[Condition],
    out: &[Ref],
) -> Result<Vec<Ref>, NoMemory>
    ensures { IfOk result (λ marks. marks.items ≡ plans.marks_of conds.now out.now taken.now) }
{
    let mut marks = links(alloc, taken, conds)?;
    marks.extend_from_slice(&outs(alloc, taken, out)?)?;
    Ok(marks)
}

/// Whether all parts are taken.
fn is_whole(parts: usize, taken: &[usize]) -> bool
    ensures { IsTrue result → (p : ℕ) → p < parts → joins.is_taken taken.now p ≡ true }
{
    for part in 0..parts {
        if !taken.contains(&part) {
            return false;
        }
    }
    true
}

/// Whether all listed columns are of these parts.
fn is_listed(taken: &[usize], out: &[Ref]) -> bool
    ensures { result ≡ plans.are_taken taken.now out.now }
{
    out.iter().all(|at| taken.contains(&part_of(*at)))
}

/// The node of these parts.
fn node_of(
    alloc: Global,
    made: &mut Vec<Made>,
    lists: &mut Vec<Vec<usize>>,
    parts: &Parts,
    conds: &[Condition],
    out: &[Ref],
    taken: Vec<usize>,
) -> Result<Node, NoMemory>
    requires { plans.AreMade parts.now conds.now made.now.items }
    ensures made { IfOk result (λ _. plans.AreMade parts.now conds.now made.new.items) }
    ensures node { IfOk result (λ node. plans.IsNode parts.now conds.now out.now node) }
{
    let nexts = nexts_of(alloc, made, lists, parts, conds, out, &taken)?;
    let marks = marks_of(alloc, &taken, conds, out)?;
    let links = links(alloc, &taken, conds)?;
    Ok(Node {
        links,
        marks,
        is_whole: is_whole(parts.count(), &taken),
        is_listed: is_listed(&taken, out),
        taken,
        nexts,
    })
}

/// A copy of the list at a place.
fn list_at(
    alloc: Global,
    lists: &[Vec<usize>],
    place: usize,
) -> Result<Option<Vec<usize>>, NoMemory> {
    match lists.get(place) {
        Some(list) => {
            let mut copy = Vec::new(alloc);
            copy.extend_from_slice(list.as_slice())?;
            Ok(Some(copy))
        }
        None => Ok(None),
    }
}

/// The nodes that are reached from none taken, which is the first.
#[tactic(auto, using(crate::proofs::Planned::nodes_more))]
pub fn make_plan(
    alloc: Global,
    parts: &Parts,
    conds: &[Condition],
    out: &[Ref],
) -> Result<Vec<Node>, NoMemory>
    ensures { IfOk result (λ nodes. plans.AreNodes parts.now conds.now out.now nodes.items) }
{
    let mut made = Vec::new(alloc);
    let mut lists = Vec::new(alloc);
    lists.push(Vec::new(alloc))?;
    let mut nodes = Vec::new(alloc);
    for place in 0..MOST_NODES {
        match list_at(alloc, lists.as_slice(), place)? {
            Some(taken) => {
                let node = node_of(alloc, &mut made, &mut lists, parts, conds, out, taken)?;
                nodes.push(node)?;
            }
            None => return Ok(nodes),
        }
    }
    Ok(nodes)
}

/// Whether a list is another one with one more part.
fn is_with(longer: &[usize], taken: &[usize], part: usize) -> bool
    ensures { IsTrue result → longer.now ≡ taken.now ++ part ∷ [] }
{
    match longer.split_last() {
        Some((last, rest)) => *last == part && rest == taken,
        None => false,
    }
}

/// Whether the node that a part leads to is that of the parts with this one more.
pub fn is_led(nodes: &[Node], node: &Node, next: &Next) -> bool
    ensures led { IsTrue result → plans.IsLed nodes.now node.now next.now }
    ensures there { IsTrue result → option_map_or (λ node. true) (slice_get nodes.now next.now.node) false ≡ true }
{
    match nodes.get(next.node) {
        Some(then) => is_with(then.taken.as_slice(), node.taken.as_slice(), next.part),
        None => false,
    }
}
