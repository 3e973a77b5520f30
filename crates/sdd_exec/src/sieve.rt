//! A sieve of choices: of those that the other parts can't tell apart it keeps what the answer needs.
ghost use Rattle.std.specs.Prelude.{◌≡◌, ◌<◌, ◌++◌, ◌∷◌, [], List, false, length, map, cond, IfOk, IsTrue};
ghost use Rattle.std.specs.HashMap as hash;
ghost use Rattle.std.specs.Option.{option_map_or};
ghost use Rattle.std.specs.BTreeSet.{insert_key};
ghost use Rattle.sdd_lang.specs.All.{Value, row_cmp};
ghost use Rattle.sdd_exec.specs.Choices as joins;
ghost use Rattle.sdd_shipped.specs.Members as members;
ghost use Rattle.sdd_exec.specs.Sifting as sift;

use crate::choice::{Choice, choice_with_place};
use crate::found::Found;
use crate::links::values_of;
use crate::parts::Parts;
use crate::tie::Key;
use sdd_lang::{AnswerRow, NoMemory, Ref};
use std::alloc::Global;
use std::collections::HashMap;

/// What a sieve tells choices apart by: the columns that conditions tie to other parts, and the
/// listed columns; and how many rows of these it keeps beside equal links, less one.
#[derive(Drop)]
pub struct Mesh {
    pub links: Vec<Ref>,
    pub outs: Vec<Ref>,
    pub room: usize,
}

/// The choices that are kept, and what they have in the listed columns, by the linked ones.
#[derive(Drop)]
pub struct Sieve {
    pub kept: Vec<Choice>,
    pub found: HashMap<Key, Found>,
}

/// A sieve that keeps nothing.
pub fn no_choices(alloc: Global) -> Sieve
    ensures kept { result.kept.items ≡ [] }
    ensures found { (l : List Value) → sift.found_with result l ≡ [] }
{
    Sieve {
        kept: Vec::new(alloc),
        found: HashMap::new(alloc),
    }
}

/// Takes out what was found with these links.
fn take_found(alloc: Global, found: &mut HashMap<Key, Found>, links: &Key) -> Found
    ensures rows { result ≡ option_map_or (λ rows. rows) (hash.get joins.same_row found.old links.now) [] }
    ensures others { (q : List Value) → hash.get joins.same_row found.new q ≡ cond (joins.same_row links.now q) None (hash.get joins.same_row found.old q) }
{
    match found.remove(links) {
        Some(rows) => rows,
        None => Found::new(alloc),
    }
}

/// Adds a row to what was found; whether it is new.
fn add_row(alloc: Global, rows: &mut Found, row: AnswerRow) -> Result<bool, NoMemory>
    ensures rows { IfOk result (λ _. rows.new ≡ insert_key row_cmp rows.old row) }
    ensures there { IfOk result (λ new. new ≡ false → members.Has rows.old row) }
{
    let before = rows.len();
    rows.add(alloc, row)?;
    Ok(before < rows.len())
}

/// Adds what a choice has in the listed columns to what was found with its links; whether it is new.
fn add_found(
    alloc: Global,
    found: &mut HashMap<Key, Found>,
    links: Key,
    outs: AnswerRow,
) -> Result<bool, NoMemory>
    ensures rows { IfOk result (λ _. (q : List Value) →
        option_map_or (λ rows. rows) (hash.get joins.same_row found.new q) []
        ≡ cond (joins.same_row links q) (insert_key row_cmp (option_map_or (λ rows. rows) (hash.get joins.same_row found.old links) []) outs)
        (option_map_or (λ rows. rows) (hash.get joins.same_row found.old q) [])) }
    ensures there { IfOk result (λ new. new ≡ false → members.Has (option_map_or (λ rows. rows) (hash.get joins.same_row found.old links) []) outs) }
{
    let mut rows = take_found(alloc, found, &links);
    let new = add_row(alloc, &mut rows, outs)?;
    found.insert(links, rows)?;
    Ok(new)
}

/// Whether more was found with these links than there is room for.
fn is_full(sieve: &Sieve, links: &Key, room: usize) -> bool
    ensures { IsTrue result → (room < length (sift.found_with sieve.now links.now)) × joins.NoRepeats (sift.found_with sieve.now links.now) }
{
    match sieve.found.get(links) {
        Some(rows) => rows.is_over(room),
        None => false,
    }
}

/// Whether a sieve is full for a choice.
pub fn is_full_for(
    alloc: Global,
    sieve: &Sieve,
    parts: &Parts,
    mesh: &Mesh,
    choice: &[usize],
) -> Result<bool, NoMemory>
    requires { sift.IsSieve parts.now mesh.now sieve.now }
    ensures { let links = sift.values_of parts.now mesh.now.links.items choice.now in
        IfOk result (λ full. IsTrue full → sift.TooMany mesh.now.room (sift.HasLike parts.now mesh.now.links.items mesh.now.outs.items sieve.now.kept.items links)) }
{
    let links = values_of(alloc, parts, mesh.links.as_slice(), choice)?;
    Ok(is_full(sieve, &links, mesh.room))
}

/// Keeps a choice, where it is to be kept.
fn offer(
    alloc: Global,
    sieve: &mut Sieve,
    parts: &Parts,
    mesh: &Mesh,
    choice: Choice,
) -> Result<(), NoMemory>
    requires { sift.IsSieve parts.now mesh.now sieve.now }
    ensures { IfOk result (λ _. sift.Offered parts.now mesh.now sieve.old sieve.new (choice ∷ [])) }
{
    let links = values_of(alloc, parts, mesh.links.as_slice(), choice.as_slice())?;
    if is_full(sieve, &links, mesh.room) {
        return Ok(());
    }
    let outs = values_of(alloc, parts, mesh.outs.as_slice(), choice.as_slice())?;
    if add_found(alloc, &mut sieve.found, links, outs)? {
        sieve.kept.push(choice)?;
    }
    Ok(())
}

/// Keeps what is to be kept of a choice with each of these places of a part.
pub fn offer_each(
    alloc: Global,
    sieve: &mut Sieve,
    parts: &Parts,
    mesh: &Mesh,
    choice: &[usize],
    part: usize,
    places: &[usize],
) -> Result<(), NoMemory>
    requires { sift.IsSieve parts.now mesh.now sieve.now }
    ensures { IfOk result (λ _. sift.Offered parts.now mesh.now sieve.old sieve.new (map (joins.placed (length parts.now) choice.now part) places.now)) }
{
    for place in places {
        let next = choice_with_place(alloc, parts.count(), choice, part, *place)?;
        offer(alloc, sieve, parts, mesh, next)?;
    }
    Ok(())
}
