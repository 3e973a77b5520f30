//! Whether some order of runs, one after the other, gives their replies and the last database.
ghost use Rattle.std.specs.Prelude.{◌≡◌, ◌<◌, ◌++◌, ℕ, Contains, IfNone, IfOk, IfSome, length, true};
ghost use Rattle.sdd_lang.specs.All.{effect};
ghost use Rattle.sdd_lang.specs.declared.effect.Effect.{Effect};
ghost use Rattle.sdd_lang.specs.declared.transaction.Txn.{Txn};
ghost use Rattle.sdd_short_runs.specs.Orders.{BeginsWith, HasOrder, HasReplyOrder, without};
ghost use Rattle.sdd_short_runs.specs.Tried.{IsTried, database_with, effect_at, last_database, txn_at};

use crate::carrying::{add_changes, effect_after, is_same_reply};
use sdd_changed::{Changed, are_same_where};
use sdd_lang::{Catalogue, Change, Effect, NoMemory, Txn};
use sdd_plain::Plain;
use std::alloc::Global;

/// A run: its transactions and their effects, by their numbers, and the changes that were made to the
/// first database.
#[derive(Drop)]
pub(crate) struct Run<'a> {
    pub catalogue: &'a Catalogue,
    pub base: &'a Plain,
    pub txns: &'a [&'a Txn],
    pub effects: &'a [Effect],
    pub changes: &'a [Change],
}

/// Whether the changes make of the first database what the run made of it.
fn is_last(alloc: Global, run: &Run, made: &[Change]) -> Result<bool, NoMemory>
    requires { IsTried run.now }
    ensures { IfOk result (λ same. last_database run.now ≡ database_with run.now made.now → same ≡ true) }
{
    let last = Changed::new(run.catalogue, run.base, run.changes);
    let other = Changed::new(run.catalogue, run.base, made);
    if !are_same_where(alloc, run.catalogue, &last, &other, run.changes)? {
        return Ok(false);
    }
    are_same_where(alloc, run.catalogue, &last, &other, made)
}

/// The numbers but one.
fn without(alloc: Global, numbers: &[usize], number: usize) -> Result<Vec<usize>, NoMemory>
    ensures { IfOk result (λ rest. rest.items ≡ without numbers.now number) }
{
    let mut rest = Vec::new(alloc);
    'numbers: for other in numbers {
        if *other != number {
            rest.push(*other)?;
        }
    }
    Ok(rest)
}

/// The changes, and behind them those of an effect.
fn with_effect(alloc: Global, made: &[Change], effect: Effect) -> Result<Vec<Change>, NoMemory>
    ensures { IfOk result (λ changes. changes.items ≡ made.now ++ effect.changes) }
{
    let mut changes = Vec::new(alloc);
    add_changes(&mut changes, made)?;
    'changes: for change in effect.changes.into_vec() {
        changes.push(change)?;
    }
    Ok(changes)
}

/// The effect of a run's transaction after changes.
fn effect_of(alloc: Global, run: &Run, made: &[Change], number: usize) -> Result<Effect, NoMemory>
    requires tried { IsTried run.now }
    requires there { number < length run.now.txns.now }
    ensures { IfOk result (λ found. (d : Txn) → found ≡ effect run.now.catalogue.now (database_with run.now made.now) (txn_at run.now d number)) }
{
    let txns = run.txns;
    let txn = txns[number];
    effect_after(alloc, run.catalogue, run.base, made, txn)
}

/// Whether the effect has the reply of the run of this number.
fn has_reply(run: &Run, number: usize, effect: &Effect) -> bool
    requires tried { IsTried run.now }
    requires there { number < length run.now.effects.now }
    ensures same { (d : Effect) → effect.now.reply ≡ (effect_at run.now d number).reply → result ≡ true }
    ensures is { (d : Effect) → result ≡ true → effect.now.reply ≡ (effect_at run.now d number).reply }
{
    is_same_reply(&run.effects[number].reply, &effect.reply)
}

/// What is left of an order once it has begun.
#[derive(Drop)]
struct Begun {
    left: Vec<usize>,
    made: Vec<Change>,
}

/// The order begins with this number; None where the reply is another one than the run's.
fn begin_with(
    alloc: Global,
    run: &Run,
    left: &[usize],
    made: &[Change],
    number: usize,
) -> Result<Option<Begun>, NoMemory>
    requires tried { IsTried run.now }
    requires there { number < length run.now.txns.now }
    ensures none { IfOk result (λ found. IfNone found ((t : Txn) (e : Effect)
        → BeginsWith run.now.catalogue.now (txn_at run.now t) (effect_at run.now e) (last_database run.now) (database_with run.now made.now) left.now number → ⊥)) }
    ensures left { IfOk result (λ found. IfSome found (λ b. b.left.items ≡ without left.now number)) }
    ensures order { IfOk result (λ found. IfSome found (λ b. (t : Txn) (e : Effect)
        → BeginsWith run.now.catalogue.now (txn_at run.now t) (effect_at run.now e) (last_database run.now) (database_with run.now made.now) left.now number
        → HasOrder run.now.catalogue.now (txn_at run.now t) (effect_at run.now e) (last_database run.now) (database_with run.now b.made.items) b.left.items)) }
    ensures replies { IfOk result (λ found. IfSome found (λ b. (t : Txn) (e : Effect) → Contains left.now number
        → HasReplyOrder run.now.catalogue.now (txn_at run.now t) (effect_at run.now e) (database_with run.now b.made.items) b.left.items
        → HasReplyOrder run.now.catalogue.now (txn_at run.now t) (effect_at run.now e) (database_with run.now made.now) left.now)) }
{
    let effect = effect_of(alloc, run, made, number)?;
    if !has_reply(run, number, &effect) {
        return Ok(None);
    }
    let left = without(alloc, left, number)?;
    let made = with_effect(alloc, made, effect)?;
    Ok(Some(Begun { left, made }))
}

/// Whether some order of those that are left, after these changes, gives their replies and ends in the
/// database of the run. Costs an effect for each beginning of an order that gives their replies.
pub(crate) fn has_order<'a>(
    alloc: Global,
    run: &Run<'a>,
    left: &[usize],
    made: &[Change],
) -> Result<bool, NoMemory>
    requires tried { IsTried run.now }
    requires there { (n : ℕ) → Contains left.now n → n < length run.now.txns.now }
    ensures order { IfOk result (λ found. (t : Txn) (e : Effect)
        → HasOrder run.now.catalogue.now (txn_at run.now t) (effect_at run.now e) (last_database run.now) (database_with run.now made.now) left.now
        → found ≡ true) }
    ensures replies { IfOk result (λ found. found ≡ true → (t : Txn) (e : Effect)
        → HasReplyOrder run.now.catalogue.now (txn_at run.now t) (effect_at run.now e) (database_with run.now made.now) left.now) }
{
    if left.is_empty() {
        return is_last(alloc, run, made);
    }
    'numbers: for number in left {
        match begin_with(alloc, run, left, made, *number)? {
            Some(begun) => {
                let found = has_order(alloc, run, begun.left.as_slice(), begun.made.as_slice())?;
                if found {
                    return Ok(true);
                }
            }
            None => {}
        }
    }
    Ok(false)
}
