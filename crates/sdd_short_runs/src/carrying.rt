//! Carrying out short runs.
ghost use Rattle.std.specs.Prelude.{◌≡◌, ◌↔◌, ◌&&◌, ◌++◌, All, IfOk, IsTrue, OnOk, not, true};
ghost use Rattle.std.specs.List.{flat_map, list_all, list_any};
ghost use Rattle.std.specs.List.Sorted.{IsStrictlySortedBy};
ghost use Rattle.std.specs.Map.{keys_of};
ghost use Rattle.std.specs.Ordering.{is_eq};
ghost use Rattle.sdd_lang.specs.All.{FitsTxn, after_changes, effect, item_cmp, item_of};
ghost use Rattle.sdd_robust_laws.specs.Runs.{change_one_item, succeeds};
ghost use Rattle.sdd_short_runs.specs.ShortRuns.{after_effects, effects_in_turn, lent_txns};

use sdd_base::is_same;
use sdd_changed::Changed;
use sdd_lang::{Catalogue, Change, Effect, NoMemory, Parcel, Reply, Txn, effect_over};
use sdd_plain::{Plain, relation_of};
use std::alloc::Global;

/// The effect of a transaction on the database with these changes.
#[tactic(auto, using(sdd_lang::proofs::Sources::effect_over_database))]
pub(crate) fn effect_after(
    alloc: Global,
    catalogue: &Catalogue,
    base: &Plain,
    changes: &[Change],
    txn: &Txn,
) -> Result<Effect, NoMemory>
    requires sorted { IsStrictlySortedBy item_cmp (keys_of base.now.value) }
    requires fits { FitsTxn catalogue.now txn.now }
    ensures { IfOk result (λ found. found ≡ effect catalogue.now (after_changes catalogue.now base.now.value changes.now) txn.now) }
{
    effect_over(
        alloc,
        catalogue,
        txn,
        &Changed::new(catalogue, base, changes),
    )
}

/// The changes of effects, one after the other.
pub(crate) fn changes_of(alloc: Global, effects: &[Effect]) -> Result<Vec<Change>, NoMemory>
    ensures { IfOk result (λ changes. changes.items ≡ flat_map (λ e. e.changes) effects.now) }
{
    let mut changes = Vec::new(alloc);
    'effects: for effect in effects {
        add_changes(&mut changes, effect.changes.as_slice())?;
    }
    Ok(changes)
}

/// Adds copies of changes.
pub(crate) fn add_changes(changes: &mut Vec<Change>, more: &[Change]) -> Result<(), NoMemory>
    ensures { OnOk result (changes.new.items ≡ changes.old.items ++ more.now) }
{
    'more: for change in more {
        changes.push(change.copy()?)?;
    }
    Ok(())
}

/// The effect of a transaction that begins when those with these effects have ended.
fn next_effect(
    alloc: Global,
    catalogue: &Catalogue,
    base: &Plain,
    effects: &[Effect],
    txn: &Txn,
) -> Result<Effect, NoMemory>
    requires sorted { IsStrictlySortedBy item_cmp (keys_of base.now.value) }
    requires fits { FitsTxn catalogue.now txn.now }
    ensures { IfOk result (λ found. found ≡ effect catalogue.now (after_effects catalogue.now base.now.value effects.now) txn.now) }
{
    let changes = changes_of(alloc, effects)?;
    let found = effect_after(alloc, catalogue, base, changes.as_slice(), txn)?;
    Ok(found)
}

/// The effects of transactions that run one after the other.
pub(crate) fn run_in_turn(
    alloc: Global,
    catalogue: &Catalogue,
    base: &Plain,
    txns: &[&Txn],
) -> Result<Vec<Effect>, NoMemory>
    requires sorted { IsStrictlySortedBy item_cmp (keys_of base.now.value) }
    requires fit { All (FitsTxn catalogue.now) (lent_txns txns.now) }
    ensures { IfOk result (λ effects. effects.items ≡ effects_in_turn catalogue.now base.now.value (lent_txns txns.now)) }
{
    let mut effects = Vec::new(alloc);
    'txns: for txn in txns {
        let effect = next_effect(alloc, catalogue, base, effects.as_slice(), *txn)?;
        effects.push(effect)?;
    }
    Ok(effects)
}

pub(crate) fn succeeds(reply: &Reply) -> bool
    ensures { result ≡ succeeds reply.now }
{
    match reply {
        Reply::Rows(_) => true,
        Reply::Overflow => false,
        Reply::TooMany => false,
    }
}

/// Whether both are changes of one item.
fn is_of_one_item(catalogue: &Catalogue, a: &Change, b: &Change) -> bool
    ensures { result ≡ is_eq (item_cmp (item_of catalogue.now a.now) (item_of catalogue.now b.now)) }
{
    let in_a = (relation_of(catalogue, a.frag), a.key);
    let in_b = (relation_of(catalogue, b.frag), b.key);
    in_a.cmp(&in_b).is_eq()
}

fn changes_item_of(catalogue: &Catalogue, change: &Change, others: &[Change]) -> bool
    ensures { result ≡ list_any (λ d. is_eq (item_cmp (item_of catalogue.now change.now) (item_of catalogue.now d))) others.now }
{
    others
        .iter()
        .any(|other| is_of_one_item(catalogue, change, other))
}

/// Whether both change one item.
fn change_one_item(catalogue: &Catalogue, a: &Effect, b: &Effect) -> bool
    ensures { result ≡ change_one_item catalogue.now a.now b.now }
{
    a.changes.as_slice().iter().any(|change| changes_item_of(
        catalogue,
        change,
        b.changes.as_slice(),
    ))
}

fn may_end_within(catalogue: &Catalogue, inner: &Effect, outer: &Effect) -> bool
    ensures { result ≡ (succeeds inner.now.reply && not (change_one_item catalogue.now inner.now outer.now)) }
{
    succeeds(&inner.reply) && !change_one_item(catalogue, inner, outer)
}

fn each_may_end(catalogue: &Catalogue, outer: &Effect, inner: &[Effect]) -> bool
    ensures { result ≡ list_all (λ e. succeeds e.reply && not (change_one_item catalogue.now e outer.now)) inner.now }
{
    inner
        .iter()
        .all(|effect| may_end_within(catalogue, effect, outer))
}

/// Whether all of them commit where one runs while the others run one after the other.
pub(crate) fn all_commit(catalogue: &Catalogue, outer: &Effect, inner: &[Effect]) -> bool
    ensures { result ≡ (succeeds outer.now.reply && list_all (λ e. succeeds e.reply && not (change_one_item catalogue.now e outer.now)) inner.now) }
{
    succeeds(&outer.reply) && each_may_end(catalogue, outer, inner)
}

/// Whether two replies are one, where the first is no failure.
pub(crate) fn is_same_reply(a: &Reply, b: &Reply) -> bool
    requires { succeeds a.now ≡ true }
    ensures { IsTrue result ↔ (a.now ≡ b.now) }
{
    match (a, b) {
        (Reply::Rows(x), Reply::Rows(y)) => is_same(x, y),
        _ => false,
    }
}
