//! The join by sieves: the choices of the parts that were taken are sifted at each step.
ghost use Rattle.std.specs.Prelude.{◌≡◌, ◌<◌, ◌++◌, ◌∷◌, ℕ, false, true, length, map, List, [], Option, IfOk, slice_index, slice_index_or};
ghost use Rattle.std.specs.HashMap as hash;
ghost use Rattle.std.specs.Option.{option_map_or};
ghost use Rattle.sdd_lang.specs.All.{Value};
ghost use Rattle.sdd_exec.specs.Choices as joins;
ghost use Rattle.sdd_exec.specs.Sifting as sift;
ghost use Rattle.sdd_exec.specs.Splicing.{AreSound};

use crate::choice::{Choice, place_at};
use crate::index::{Index, group_by_key, places_of, untied_places};
use crate::links::{links, outs};
use crate::order::{best_part, with_part};
use crate::parts::Parts;
use crate::sieve::{Mesh, Sieve, is_full_for, no_choices, offer_each};
use crate::tie::{Key, Tie, key_for, key_of, part_of, ties};
use sdd_lang::{Condition, NoMemory, Ref};
use std::alloc::Global;

/// What the choices of a group are told apart by.
fn mesh_of(
    alloc: Global,
    group: &[usize],
    conds: &[Condition],
    out: &[Ref],
    room: usize,
) -> Result<Mesh, NoMemory>
    ensures links { IfOk result (λ mesh. mesh.links.items ≡ sift.links_of group.now conds.now) }
    ensures outs { IfOk result (λ mesh. mesh.outs.items ≡ sift.outs_of group.now out.now) }
    ensures room { IfOk result (λ mesh. mesh.room ≡ room) }
{
    Ok(Mesh {
        links: links(alloc, group, conds)?,
        outs: outs(alloc, group, out)?,
        room,
    })
}

/// The rows of one part that matter, as choices of it.
fn sifted_part(
    alloc: Global,
    parts: &Parts,
    conds: &[Condition],
    out: &[Ref],
    room: usize,
    part: usize,
) -> Result<Vec<Choice>, NoMemory>
    requires { part < length parts.now }
    ensures { IfOk result (λ thin. sift.IsSifted parts.now conds.now out.now room (part ∷ []) (sift.choices_of_part parts.now conds.now part) thin.items) }
{
    let group = with_part(alloc, &[], part)?;
    let mesh = mesh_of(alloc, &group, conds, out, room)?;
    let places = untied_places(alloc, parts.rows(part), part, conds)?;
    let mut sieve = no_choices(alloc);
    offer_each(alloc, &mut sieve, parts, &mesh, &[], part, &places)?;
    let Sieve { kept, found: _ } = sieve;
    Ok(kept)
}

/// The place that a choice has in a part, with its row's values in the tied columns.
fn pair_of(
    alloc: Global,
    parts: &Parts,
    ties: &[Tie],
    part: usize,
    choice: &[usize],
) -> Result<Option<(Key, usize)>, NoMemory>
    ensures { IfOk result (λ pair. pair ≡ sift.pair_of parts.now ties.now part choice.now) }
{
    let place = place_at(choice, part);
    match parts.row(part, place) {
        Some(row) => Ok(Some((key_of(alloc, ties, row)?, place))),
        None => Ok(None),
    }
}

/// The places that choices have in a part, each with its row's values in the tied columns.
#[tactic(auto, using(crate::proofs::Steps::tie_steps))]
fn pairs_of(
    alloc: Global,
    parts: &Parts,
    ties: &[Tie],
    part: usize,
    choices: &[Choice],
) -> Result<Vec<(Key, usize)>, NoMemory>
    ensures { IfOk result (λ pairs. pairs.items ≡ sift.pairs_of parts.now ties.now part choices.now) }
{
    let mut pairs = Vec::new(alloc);
    for choice in choices {
        if let Some(pair) = pair_of(alloc, parts, ties, part, choice.as_slice())? {
            pairs.push(pair)?;
        }
    }
    Ok(pairs)
}

/// Whether none of the linked columns is one of a part.
fn is_apart(mesh: &Mesh, part: usize) -> bool
    ensures { result ≡ sift.is_apart part mesh.now.links.items }
{
    mesh.links.iter().all(|at| part_of(*at) != part)
}

/// Keeps what is to be kept of a choice with the places of a part that the index has for it. Nothing
/// is where the sieve is full for all of them, which the choice tells where no link is of the part.
fn offer_choice(
    alloc: Global,
    sieve: &mut Sieve,
    parts: &Parts,
    mesh: &Mesh,
    choice: &[usize],
    part: usize,
    places: &[usize],
) -> Result<(), NoMemory>
    requires { sift.IsSieve parts.now mesh.now sieve.now }
    ensures { IfOk result (λ _. sift.Offered parts.now mesh.now sieve.old sieve.new (map (joins.placed (length parts.now) choice.now part) places.now)) }
{
    if !is_apart(mesh, part) {
        return offer_each(alloc, sieve, parts, mesh, choice, part, places);
    }
    if is_full_for(alloc, sieve, parts, mesh, choice)? {
        return Ok(());
    }
    offer_each(alloc, sieve, parts, mesh, choice, part, places)
}

/// Keeps what is to be kept of the choices with each place of a part that the index has for them.
fn offer_all(
    alloc: Global,
    sieve: &mut Sieve,
    parts: &Parts,
    mesh: &Mesh,
    kept: &[Choice],
    part: usize,
    ties: &[Tie],
    pairs: Vec<(Key, usize)>,
) -> Result<(), NoMemory>
    requires { sift.IsSieve parts.now mesh.now sieve.now }
    ensures { IfOk result (λ _. sift.Offered parts.now mesh.now sieve.old sieve.new (sift.extended_by parts.now part ties.now pairs.items kept.now)) }
{
    let index = group_by_key(alloc, pairs)?;
    for choice in kept {
        let key = key_for(alloc, ties, parts, choice.as_slice())?;
        let places = places_of(&index, &key);
        offer_choice(alloc, sieve, parts, mesh, choice.as_slice(), part, places)?;
    }
    Ok(())
}

/// The choices with the rows of one more part, sifted.
fn sifted_with(
    alloc: Global,
    parts: &Parts,
    conds: &[Condition],
    out: &[Ref],
    room: usize,
    taken: &[usize],
    kept: &[Choice],
    part: usize,
) -> Result<Vec<Choice>, NoMemory>
    requires part { part < length parts.now }
    requires new { joins.is_taken taken.now part ≡ false }
    requires sound { AreSound parts.now conds.now taken.now kept.now }
    requires enough { sift.AreEnough parts.now conds.now out.now room taken.now kept.now }
    ensures sound { IfOk result (λ next. AreSound parts.now conds.now (taken.now ++ part ∷ []) next.items) }
    ensures enough { IfOk result (λ next. sift.AreEnough parts.now conds.now out.now room (taken.now ++ part ∷ []) next.items) }
{
    let thin = sifted_part(alloc, parts, conds, out, room, part)?;
    let ties = ties(alloc, taken, part, conds)?;
    let pairs = pairs_of(alloc, parts, &ties, part, &thin)?;
    let group = with_part(alloc, taken, part)?;
    let mesh = mesh_of(alloc, &group, conds, out, room)?;
    let mut sieve = no_choices(alloc);
    offer_all(alloc, &mut sieve, parts, &mesh, kept, part, &ties, pairs)?;
    let Sieve { kept, found: _ } = sieve;
    Ok(kept)
}

/// What the join has reached: the parts that it took, and the choices of them that were kept.
#[derive(Drop)]
struct Reached {
    taken: Vec<usize>,
    kept: Vec<Choice>,
}

/// Nothing is taken, and one choice stands for all.
fn begin(alloc: Global) -> Result<Reached, NoMemory>
    ensures taken { IfOk result (λ reached. reached.taken.items ≡ []) }
    ensures kept { IfOk result (λ reached. reached.kept.items ≡ [] ∷ []) }
{
    let mut kept = Vec::new(alloc);
    kept.push(Choice::from_vec(Vec::new(alloc)))?;
    Ok(Reached {
        taken: Vec::new(alloc),
        kept,
    })
}

/// Takes one more part, where it isn't taken.
#[tactic(auto, using(crate::proofs::Complete::take_steps))]
fn take(
    alloc: Global,
    parts: &Parts,
    conds: &[Condition],
    out: &[Ref],
    room: usize,
    reached: Reached,
    part: usize,
) -> Result<Reached, NoMemory>
    requires part { part < length parts.now }
    requires sound { AreSound parts.now conds.now reached.taken.items reached.kept.items }
    requires enough { sift.AreEnough parts.now conds.now out.now room reached.taken.items reached.kept.items }
    ensures sound { IfOk result (λ next. AreSound parts.now conds.now next.taken.items next.kept.items) }
    ensures enough { IfOk result (λ next. sift.AreEnough parts.now conds.now out.now room next.taken.items next.kept.items) }
    ensures taken { IfOk result (λ next. joins.is_taken next.taken.items part ≡ true) }
    ensures still { IfOk result (λ next. (p : ℕ) → joins.is_taken reached.taken.items p ≡ true → joins.is_taken next.taken.items p ≡ true) }
{
    let Reached { mut taken, kept } = reached;
    if taken.contains(&part) {
        return Ok(Reached { taken, kept });
    }
    let kept = sifted_with(alloc, parts, conds, out, room, &taken, &kept, part)?;
    taken.push(part)?;
    Ok(Reached { taken, kept })
}

/// Choices of all parts that are enough to tell the answer.
pub fn sift(
    alloc: Global,
    parts: &Parts,
    conds: &[Condition],
    out: &[Ref],
    room: usize,
) -> Result<Vec<Choice>, NoMemory>
    ensures { IfOk result (λ kept. sift.TellsAnswer parts.now conds.now out.now room kept.items) }
{
    let mut reached = begin(alloc)?;
    for _step in 0..parts.count() {
        let part = best_part(alloc, parts.count(), &reached.taken, conds, out)?;
        reached = take(alloc, parts, conds, out, room, reached, part)?;
    }
    for part in 0..parts.count() {
        reached = take(alloc, parts, conds, out, room, reached, part)?;
    }
    let Reached { taken: _, kept } = reached;
    Ok(kept)
}
