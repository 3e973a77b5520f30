//! The first short run that is like no serial one.
ghost use Rattle.std.specs.Prelude.{◌≡◌, ◌+◌, ◌++◌, ◌<◌, ◌∷◌, [], ℕ, Contains, IfNone, IfOk, IfSome, List, false, length, map, slice_index_or, true};
ghost use Rattle.std.specs.List.{All, range_with_len};
ghost use Rattle.std.specs.List.Sorted.{IsStrictlySortedBy};
ghost use Rattle.std.specs.Map.{keys_of};
ghost use Rattle.sdd_lang.specs.All.{FitsStart, FitsTxn, IsDatabase, database_of, item_cmp};
ghost use Rattle.sdd_lang.specs.declared.effect.Effect.{Effect};
ghost use Rattle.sdd_lang.specs.declared.transaction.Txn.{Txn};
ghost use Rattle.sdd_robust.specs.Members.{lent};
ghost use Rattle.sdd_short_runs.specs.Found.{AreCommitted, IsExplained, IsExplainedPair, IsOf, all_commit};
ghost use Rattle.sdd_short_runs.specs.Orders.{HasOrder, HasReplyOrder};
ghost use Rattle.sdd_short_runs.specs.Pairs.{tried_pairs};
ghost use Rattle.sdd_short_runs.specs.ShortRuns.{IsShortCounterexample, after_effects, lent_txns, txn_of};

use crate::candidates::{Candidate, candidates_of};
use crate::carrying::{all_commit, changes_of, effect_after, run_in_turn};
use crate::near::Near;
use crate::orders::{Run, has_order};
use crate::pairs::inner_around;
use sdd_lang::{Catalogue, Effect, NoMemory, RelNo, Row, Txn, law_rows_make_database};
use sdd_plain::Plain;
use sdd_robust::{Changes, Member};
use std::alloc::Global;

/// Candidates of one length that are tried.
const MAX_TRIED: usize = 256;

/// Transactions that run while the first one does.
const MAX_INNER: usize = 3;

/// A short run: the outer transaction begins, the inner ones run one after the other, and the outer one
/// ends.
#[derive(Drop)]
pub struct ShortRun<'a> {
    pub outer: &'a Txn,
    pub inner: Vec<&'a Txn>,
}

/// The transactions of the run by their numbers: the inner ones, and behind them the outer one.
fn by_number<'a>(alloc: Global, short: &ShortRun<'a>) -> Result<Vec<&'a Txn>, NoMemory>
    ensures { IfOk result (λ txns. lent_txns txns.items ≡ lent_txns short.now.inner.items ++ short.now.outer.now ∷ []) }
{
    let mut txns = Vec::new(alloc);
    txns.extend_from_slice(short.inner.as_slice())?;
    txns.push(short.outer)?;
    Ok(txns)
}

/// The numbers from 0, so many.
#[tactic(auto, using(crate::proofs::Counterexamples::one_number_more))]
fn numbers(alloc: Global, count: usize) -> Result<Vec<usize>, NoMemory>
    ensures { IfOk result (λ numbers. numbers.items ≡ range_with_len 0 count) }
{
    let mut numbers = Vec::new(alloc);
    'numbers: for number in 0..count {
        numbers.push(number)?;
    }
    Ok(numbers)
}

/// The effects by the numbers of the runs; None where not all of them commit.
fn committed(
    alloc: Global,
    catalogue: &Catalogue,
    base: &Plain,
    short: &ShortRun,
) -> Result<Option<Vec<Effect>>, NoMemory>
    requires sorted { IsStrictlySortedBy item_cmp (keys_of base.now.value) }
    requires outer { FitsTxn catalogue.now short.now.outer.now }
    requires inner { All (FitsTxn catalogue.now) (lent_txns short.now.inner.items) }
    ensures effects { IfOk result (λ found. IfSome found (λ effects.
        AreCommitted catalogue.now base.now.value short.now.outer.now (lent_txns short.now.inner.items) effects.items)) }
    ensures none { IfOk result (λ found. IfNone found (all_commit catalogue.now base.now.value short.now.outer.now (lent_txns short.now.inner.items) ≡ false)) }
{
    let outer = effect_after(alloc, catalogue, base, &[], short.outer)?;
    let mut effects = run_in_turn(alloc, catalogue, base, short.inner.as_slice())?;
    if !all_commit(catalogue, &outer, effects.as_slice()) {
        return Ok(None);
    }
    effects.push(outer)?;
    Ok(Some(effects))
}

/// Whether all of them commit, and no order gives their replies and the rows at the end.
fn is_counterexample(
    alloc: Global,
    catalogue: &Catalogue,
    base: &Plain,
    short: &ShortRun,
) -> Result<bool, NoMemory>
    requires database { IsDatabase catalogue.now base.now.value }
    requires outer { FitsTxn catalogue.now short.now.outer.now }
    requires inner { All (FitsTxn catalogue.now) (lent_txns short.now.inner.items) }
    ensures found { IfOk result (λ found. found ≡ true → (work : List Txn) → IsOf work short.now.outer.now (lent_txns short.now.inner.items)
        → IsShortCounterexample catalogue.now work base.now.value short.now.outer.now (lent_txns short.now.inner.items)) }
    ensures explained { IfOk result (λ found. found ≡ false → IsExplained catalogue.now base.now.value short.now.outer.now (lent_txns short.now.inner.items)) }
{
    match committed(alloc, catalogue, base, short)? {
        Some(effects) => {
            let none = has_none(alloc, catalogue, base, short, effects.as_slice())?;
            Ok(none)
        }
        None => Ok(false),
    }
}

/// Whether no order of the run's transactions, which have these effects, gives their replies and the
/// rows at the end.
fn has_none(
    alloc: Global,
    catalogue: &Catalogue,
    base: &Plain,
    short: &ShortRun,
    effects: &[Effect],
) -> Result<bool, NoMemory>
    requires sorted { IsStrictlySortedBy item_cmp (keys_of base.now.value) }
    requires outer { FitsTxn catalogue.now short.now.outer.now }
    requires inner { All (FitsTxn catalogue.now) (lent_txns short.now.inner.items) }
    requires committed { AreCommitted catalogue.now base.now.value short.now.outer.now (lent_txns short.now.inner.items) effects.now }
    ensures none { IfOk result (λ none. none ≡ true → (e : Effect)
        → HasOrder catalogue.now (txn_of short.now.outer.now (lent_txns short.now.inner.items)) (λ n. slice_index_or effects.now n e)
        (after_effects catalogue.now base.now.value effects.now) base.now.value (range_with_len 0 (length effects.now)) → ⊥) }
    ensures order { IfOk result (λ none. none ≡ false → (e : Effect)
        → HasReplyOrder catalogue.now (txn_of short.now.outer.now (lent_txns short.now.inner.items)) (λ n. slice_index_or effects.now n e)
        base.now.value (range_with_len 0 (length effects.now))) }
{
    let changes = changes_of(alloc, effects)?;
    let txns = by_number(alloc, short)?;
    let left = numbers(alloc, effects.len())?;
    let run = Run {
        catalogue,
        base,
        txns: txns.as_slice(),
        effects,
        changes: changes.as_slice(),
    };
    let found = has_order(alloc, &run, left.as_slice(), &[])?;
    Ok(!found)
}

/// The transaction at a place, where there is one.
fn txn_at(txns: &[Txn], place: usize) -> Option<&Txn>
    ensures { IfSome result (λ txn. Contains txns.now txn.now) }
{
    txns.get(place)
}

/// The transactions of a candidate.
fn short_run<'a>(
    alloc: Global,
    txns: &'a [Txn],
    candidate: &Candidate,
) -> Result<Option<ShortRun<'a>>, NoMemory>
    ensures { IfOk result (λ found. IfSome found (λ s. IsOf txns.now s.outer.now (lent_txns s.inner.items))) }
{
    match txn_at(txns, candidate.pivot.place) {
        Some(outer) => match inner_of(alloc, txns, candidate.path.as_slice())? {
            Some(inner) => Ok(Some(ShortRun { outer, inner })),
            None => Ok(None),
        },
        None => Ok(None),
    }
}

/// The transactions of members; None where one isn't there.
#[tactic(auto, using(crate::proofs::Kept::within_more))]
fn inner_of<'a>(
    alloc: Global,
    txns: &'a [Txn],
    path: &[&Member],
) -> Result<Option<Vec<&'a Txn>>, NoMemory>
    ensures { IfOk result (λ found. IfSome found (λ inner. (t : Txn) → Contains (lent_txns inner.items) t → Contains txns.now t)) }
{
    let mut inner = Vec::with_capacity(alloc, path.len())?;
    'path: for member in path {
        match txn_at(txns, member.place) {
            Some(txn) => inner.push(txn)?,
            None => return Ok(None),
        }
    }
    Ok(Some(inner))
}

/// The first of the candidates that is a counterexample.
fn first_of<'a>(
    alloc: Global,
    catalogue: &Catalogue,
    base: &Plain,
    txns: &'a [Txn],
    candidates: &[Candidate],
) -> Result<Option<ShortRun<'a>>, NoMemory>
    requires database { IsDatabase catalogue.now base.now.value }
    requires fit { All (FitsTxn catalogue.now) txns.now }
    ensures { IfOk result (λ found. IfSome found (λ s. IsShortCounterexample catalogue.now txns.now base.now.value s.outer.now (lent_txns s.inner.items))) }
{
    'candidates: for candidate in candidates {
        match short_run(alloc, txns, candidate)? {
            Some(short) => {
                if is_counterexample(alloc, catalogue, base, &short)? {
                    return Ok(Some(short));
                }
            }
            None => {}
        }
    }
    Ok(None)
}

/// The short run of the transactions at these members' places; None where one isn't there.
fn short_run_of_pair<'a>(
    alloc: Global,
    txns: &'a [Txn],
    outer: &Member,
    inner: &Member,
) -> Result<Option<ShortRun<'a>>, NoMemory>
    ensures none { IfOk result (λ found. IfNone found (outer.now.place < length txns.now → inner.now.place < length txns.now → ⊥)) }
    ensures of { IfOk result (λ found. IfSome found (λ s. IsOf txns.now s.outer.now (lent_txns s.inner.items))) }
    ensures outer { IfOk result (λ found. IfSome found (λ s. (t : Txn) → s.outer.now ≡ slice_index_or txns.now outer.now.place t)) }
    ensures inner { IfOk result (λ found. IfSome found (λ s. (t : Txn) → lent_txns s.inner.items ≡ slice_index_or txns.now inner.now.place t ∷ [])) }
{
    if outer.place < txns.len() && inner.place < txns.len() {
        let second = &txns[inner.place];
        let mut inner = Vec::new(alloc);
        inner.push(second)?;
        return Ok(Some(ShortRun {
            outer: &txns[outer.place],
            inner,
        }));
    }
    Ok(None)
}

/// The short run of the two, where it is a counterexample.
fn try_pair<'a>(
    alloc: Global,
    catalogue: &Catalogue,
    base: &Plain,
    txns: &'a [Txn],
    outer: &Member,
    inner: &Member,
) -> Result<Option<ShortRun<'a>>, NoMemory>
    requires database { IsDatabase catalogue.now base.now.value }
    requires fit { All (FitsTxn catalogue.now) txns.now }
    ensures none { IfOk result (λ found. IfNone found (IsExplainedPair catalogue.now base.now.value txns.now (outer.now, inner.now))) }
    ensures found { IfOk result (λ found. IfSome found (λ s.
        IsShortCounterexample catalogue.now txns.now base.now.value s.outer.now (lent_txns s.inner.items))) }
{
    match short_run_of_pair(alloc, txns, outer, inner)? {
        Some(short) => {
            if is_counterexample(alloc, catalogue, base, &short)? {
                return Ok(Some(short));
            }
            Ok(None)
        }
        None => Ok(None),
    }
}

/// The first counterexample of an outer transaction and one of these inner ones.
fn first_around<'a>(
    alloc: Global,
    catalogue: &Catalogue,
    base: &Plain,
    txns: &'a [Txn],
    outer: &Member,
    inner: &[&Member],
) -> Result<Option<ShortRun<'a>>, NoMemory>
    requires database { IsDatabase catalogue.now base.now.value }
    requires fit { All (FitsTxn catalogue.now) txns.now }
    ensures none { IfOk result (λ found. IfNone found (
        All (IsExplainedPair catalogue.now base.now.value txns.now) (map (λ m. (outer.now, m)) (lent inner.now)))) }
    ensures found { IfOk result (λ found. IfSome found (λ s.
        IsShortCounterexample catalogue.now txns.now base.now.value s.outer.now (lent_txns s.inner.items))) }
{
    'inner: for member in inner {
        match try_pair(alloc, catalogue, base, txns, outer, *member)? {
            Some(short) => return Ok(Some(short)),
            None => {}
        }
    }
    Ok(None)
}

/// The first counterexample of one inner transaction. Costs for each transaction that may miss a change
/// time in its reads times all others, until so many pairs are found as are tried.
fn first_of_pairs<'a>(
    alloc: Global,
    catalogue: &Catalogue,
    base: &Plain,
    txns: &'a [Txn],
    changes: &Changes,
    all: &[Member],
) -> Result<Option<ShortRun<'a>>, NoMemory>
    requires database { IsDatabase catalogue.now base.now.value }
    requires fit { All (FitsTxn catalogue.now) txns.now }
    requires changes { changes.now ≡ all.now }
    ensures none { IfOk result (λ found. IfNone found (
        All (IsExplainedPair catalogue.now base.now.value txns.now) (tried_pairs all.now))) }
    ensures found { IfOk result (λ found. IfSome found (λ s.
        IsShortCounterexample catalogue.now txns.now base.now.value s.outer.now (lent_txns s.inner.items))) }
{
    let mut left = MAX_TRIED;
    'members: for outer in all {
        let inner = inner_around(alloc, changes, all, outer, left)?;
        match first_around(alloc, catalogue, base, txns, outer, inner.as_slice())? {
            Some(short) => return Ok(Some(short)),
            None => left = left.saturating_sub(inner.len()),
        }
    }
    Ok(None)
}

/// The first counterexample of so many inner transactions.
fn first_of_length<'a>(
    alloc: Global,
    catalogue: &Catalogue,
    base: &Plain,
    txns: &'a [Txn],
    near: &mut Near,
    length: usize,
) -> Result<Option<ShortRun<'a>>, NoMemory>
    requires database { IsDatabase catalogue.now base.now.value }
    requires fit { All (FitsTxn catalogue.now) txns.now }
    ensures { IfOk result (λ found. IfSome found (λ s. IsShortCounterexample catalogue.now txns.now base.now.value s.outer.now (lent_txns s.inner.items))) }
{
    let mut left = MAX_TRIED;
    'pivots: for pivot in 0..near.count() {
        if left > 0 {
            let candidates = candidates_of(alloc, near, pivot, length, left)?;
            match first_of(alloc, catalogue, base, txns, candidates.as_slice())? {
                Some(short) => return Ok(Some(short)),
                None => left = left.saturating_sub(candidates.len()),
            }
        }
    }
    Ok(None)
}

/// The first counterexample of two inner transactions or more.
fn first_longer<'a>(
    alloc: Global,
    catalogue: &Catalogue,
    base: &Plain,
    txns: &'a [Txn],
    near: &mut Near,
) -> Result<Option<ShortRun<'a>>, NoMemory>
    requires database { IsDatabase catalogue.now base.now.value }
    requires fit { All (FitsTxn catalogue.now) txns.now }
    ensures { IfOk result (λ found. IfSome found (λ s. IsShortCounterexample catalogue.now txns.now base.now.value s.outer.now (lent_txns s.inner.items))) }
{
    'lengths: for length in 2..MAX_INNER + 1 {
        match first_of_length(alloc, catalogue, base, txns, near, length)? {
            Some(short) => return Ok(Some(short)),
            None => {}
        }
    }
    Ok(None)
}

/// The first counterexample: of one inner transaction, or else of more.
fn first_near<'a>(
    alloc: Global,
    catalogue: &Catalogue,
    base: &Plain,
    txns: &'a [Txn],
    near: &mut Near,
    all: &[Member],
) -> Result<Option<ShortRun<'a>>, NoMemory>
    requires database { IsDatabase catalogue.now base.now.value }
    requires fit { All (FitsTxn catalogue.now) txns.now }
    requires changes { near.old.changes ≡ all.now }
    ensures found { IfOk result (λ found. IfSome found (λ s.
        IsShortCounterexample catalogue.now txns.now base.now.value s.outer.now (lent_txns s.inner.items))) }
    ensures none { IfOk result (λ found. IfNone found (
        All (IsExplainedPair catalogue.now base.now.value txns.now) (tried_pairs all.now))) }
{
    match first_of_pairs(alloc, catalogue, base, txns, &near.changes, all)? {
        Some(short) => Ok(Some(short)),
        None => first_longer(alloc, catalogue, base, txns, near),
    }
}

/// The first counterexample over these rows.
fn first_over<'a>(
    alloc: Global,
    catalogue: &Catalogue,
    base: &Plain,
    txns: &'a [Txn],
    all: &[Member],
) -> Result<Option<ShortRun<'a>>, NoMemory>
    requires database { IsDatabase catalogue.now base.now.value }
    requires fit { All (FitsTxn catalogue.now) txns.now }
    ensures found { IfOk result (λ found. IfSome found (λ s.
        IsShortCounterexample catalogue.now txns.now base.now.value s.outer.now (lent_txns s.inner.items))) }
    ensures none { IfOk result (λ found. IfNone found (
        All (IsExplainedPair catalogue.now base.now.value txns.now) (tried_pairs all.now))) }
{
    let mut near = Near::new(alloc, all)?;
    first_near(alloc, catalogue, base, txns, &mut near, all)
}

/// A short run that is like no serial one: the first that is found among those where a pivot may miss
/// the changes of the first inner one and the last one may miss its changes; of those with one inner
/// transaction 256 are tried, then as many with two and with three.
///
/// Costs for each transaction that may miss a change, until 256 pairs are found, and for each that
/// conflicts with a pivot, or with one of those beside it, time in its accesses times all others, once;
/// and for a pivot and one whose changes it may miss a step for each 64 transactions.
/// Takes memory for the database, for a bit for each two of which it is known whether they conflict, and
/// for a run that is tried for its rows. Carrying one out costs what its transactions cost on the
/// database; comparing it with all orders some sixty times as much at most.
pub fn find_counterexample<'a>(
    alloc: Global,
    catalogue: &Catalogue,
    rows: &[(RelNo, Row)],
    txns: &'a [Txn],
    all: &[Member],
) -> Result<Option<ShortRun<'a>>, NoMemory>
    requires rows { All (FitsStart catalogue.now) rows.now }
    requires fit { All (FitsTxn catalogue.now) txns.now }
    ensures found { IfOk result (λ found. IfSome found (λ s.
        IsShortCounterexample catalogue.now txns.now (database_of catalogue.now rows.now) s.outer.now (lent_txns s.inner.items))) }
    ensures none { IfOk result (λ found. IfNone found (
        All (IsExplainedPair catalogue.now (database_of catalogue.now rows.now) txns.now) (tried_pairs all.now))) }
{
    law_rows_make_database(catalogue, rows);
    let base = Plain::new(alloc, catalogue, rows)?;
    first_over(alloc, catalogue, &base, txns, all)
}
