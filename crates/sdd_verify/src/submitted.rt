//! The submitted transactions of a workload.
ghost use Rattle.std.specs.Prelude.{ℕ, ◌≡◌, ◌≤◌, ◌∷◌, ◌++◌, [], List, length, map, filter_map, IfOk};
ghost use Rattle.std.specs.BTreeMap.{get};
ghost use Rattle.std.specs.Cmp.Lexicographic.{slice_cmp};
ghost use Rattle.std.specs.Option.{option_copied};
ghost use Rattle.std.specs.Ordering.{nat_cmp};
ghost use Rattle.sdd_script.specs.All.{MAX_EVENTS};
ghost use Rattle.sdd_verify.specs.Submitted.{named, submitted, submitted_by, texts_of, txn_of};

use sdd_script::{Bytes, Event, NoMemory, Txn, TxnNo, Workload};
use std::alloc::Global;
use std::collections::BTreeMap;
use std::marker::Model;

/// Transactions in order of submission, each found by its name. Here the number of a transaction is
/// its place among them, counted from 1.
#[derive(Drop)]
pub struct Submitted<'a> {
    txns: Vec<&'a Txn>,
    numbers: BTreeMap<Bytes, TxnNo>,
}

impl<'a> Model for Submitted<'a> {
    ghost use Rattle.std.specs.Prelude.{ℕ, ◌≡◌, List, map};
    ghost use Rattle.std.specs.BTreeMap.{get};
    ghost use Rattle.std.specs.Cmp.Lexicographic.{slice_cmp};
    ghost use Rattle.std.specs.Ordering.{nat_cmp};
    ghost use Rattle.sdd_script.specs.All.{Txn as Transaction};
    ghost use Rattle.sdd_verify.specs.Submitted.{named};

    ghost Value = { List Transaction };

    ghost view = { λ s. map (λ t. t.now) s.txns.items };

    ghost invariant = { λ s. (name : List ℕ) → get (slice_cmp nat_cmp) s.numbers name ≡ named (map (λ t. t.now) s.txns.items) name };
}

/// The transaction that an event submits.
pub(crate) fn submitted_by<'a>(txns: &'a [Txn], event: &Event) -> Option<&'a Txn>
    ensures { option_copied result ≡ submitted_by txns.now event.now }
{
    match event {
        Event::Submit(number) => txns.get((number.0 as usize).saturating_sub(1)),
        _ => None,
    }
}

/// Adds the transaction that an event submits, where it submits one.
fn add_submitted<'a>(
    found: &mut Vec<&'a Txn>,
    txns: &'a [Txn],
    event: &Event,
) -> Result<(), NoMemory>
    ensures { IfOk result (λ _. map (λ t. t.now) found.new.items
        ≡ map (λ t. t.now) found.old.items ++ filter_map (submitted_by txns.now) (event.now ∷ [])) }
{
    match submitted_by(txns, event) {
        Some(txn) => {
            found.push(txn)?;
            Ok(())
        }
        None => Ok(()),
    }
}

/// The transactions that are submitted, in that order.
#[tactic(auto, using(crate::proofs::Submissions::submitted_more))]
fn submissions<'a>(alloc: Global, work: &'a Workload) -> Result<Vec<&'a Txn>, NoMemory>
    ensures { IfOk result (λ txns. map (λ t. t.now) txns.items ≡ submitted work.now) }
{
    let mut found = Vec::new(alloc);
    'events: for event in work.events.as_slice() {
        add_submitted(&mut found, work.txns.as_slice(), event)?;
    }
    Ok(found)
}

fn bytes_of(alloc: Global, bytes: &[u8]) -> Result<Bytes, NoMemory>
    ensures { IfOk result (λ made. made ≡ bytes.now) }
{
    Ok(Bytes::from_vec(Vec::from_slice(alloc, bytes)?))
}

/// The number of the first transaction of each name.
fn numbers_by_name(alloc: Global, txns: &[&Txn]) -> Result<BTreeMap<Bytes, TxnNo>, NoMemory>
    requires { length txns.now ≤ MAX_EVENTS }
    ensures { IfOk result (λ made. (name : List ℕ) → get (slice_cmp nat_cmp) made name ≡ named (map (λ t. t.now) txns.now) name) }
{
    let mut made = BTreeMap::new(alloc);
    'txns: for (i, txn) in txns.iter().enumerate() {
        let name = bytes_of(alloc, txn.name.as_str().as_bytes())?;
        if !made.contains_key(&name) {
            made.insert(name, TxnNo(i as u32 + 1))?;
        }
    }
    Ok(made)
}

impl<'a> Submitted<'a> {
    /// Costs a logarithmic step for each submitted transaction.
    pub(crate) fn of(alloc: Global, work: &'a Workload) -> Result<Self, NoMemory>
        requires { length work.now.events ≤ MAX_EVENTS }
        ensures { IfOk result (λ made. made ≡ submitted work.now) }
    {
        let txns = submissions(alloc, work)?;
        let numbers = numbers_by_name(alloc, txns.as_slice())?;
        Ok(Submitted { txns, numbers })
    }

    /// The number of the transaction of this name, or None exactly where there is none. Costs a
    /// logarithmic step.
    pub(crate) fn find_named(&self, alloc: Global, name: &[u8]) -> Result<Option<TxnNo>, NoMemory>
        ensures { IfOk result (λ found. found ≡ named self.now name.now) }
    {
        let _ = &self.txns;
        let name = bytes_of(alloc, name)?;
        Ok(self.numbers.get(&name).copied())
    }

    /// The transaction with this number. Takes no memory.
    pub(crate) fn txn(&self, number: TxnNo) -> Option<&'a Txn>
        ensures { option_copied result ≡ txn_of self.now number }
    {
        let place = (number.0 as usize).saturating_sub(1);
        self.txns.get(place).copied()
    }

    /// The transactions with these numbers.
    #[tactic(auto, using(crate::proofs::Submissions::texts_more))]
    pub(crate) fn texts(&self, alloc: Global, order: &[TxnNo]) -> Result<Vec<&'a Txn>, NoMemory>
        ensures { IfOk result (λ texts. map (λ t. t.now) texts.items ≡ texts_of self.now order.now) }
    {
        let mut texts = Vec::new(alloc);
        'order: for number in order {
            self.add_text(&mut texts, *number)?;
        }
        Ok(texts)
    }

    /// Adds the transaction with this number, where there is one.
    fn add_text(&self, texts: &mut Vec<&'a Txn>, number: TxnNo) -> Result<(), NoMemory>
        ensures { IfOk result (λ _. map (λ t. t.now) texts.new.items
            ≡ map (λ t. t.now) texts.old.items ++ texts_of self.now (number ∷ [])) }
    {
        match self.txn(number) {
            Some(txn) => {
                texts.push(txn)?;
                Ok(())
            }
            None => Ok(()),
        }
    }
}
