ghost use Rattle.std.specs.Prelude.{◌≡◌, [], ◌∷◌, ◌++◌, ◌<◌, ℕ, OnOk, OnErr, IfOk, IsTrue, MatchOption, map, fold, length, slice_index_or, is_some, None, true, false};
ghost use Rattle.std.specs.Option.{option_map};
ghost use Rattle.std.specs.List.{All};
ghost use Rattle.sdd_copy.specs.Contents.{Dated};
ghost use Rattle.sdd_copy.specs.Copies.{is_here, items_at, with_change, held_in, IsLive, Represent};
ghost use Rattle.sdd_items.specs.Items.{written, dated};

use crate::frag_copy::FragCopy;
use sdd_lang::{Change, Changes, FragNo, NoMemory, Ts};
use std::alloc::Global;
use std::marker::Model;

/// The copies of fragments at one module, by fragment number.
#[derive(Drop)]
pub struct Copies {
    copies: Vec<Option<FragCopy>>,
    live: bool,
}

impl Model for Copies {
    ghost use Rattle.std.specs.Prelude.{◌≡◌, true};
    ghost use Rattle.std.specs.List.{All};
    ghost use Rattle.sdd_lang.specs.All.{Kept};
    ghost use Rattle.sdd_copy.specs.Copies.{Held, held_in, IsLive};

    ghost Value = { Kept Held };

    ghost view = { λ c. record { live = c.live; value = held_in c.copies.items } };

    ghost invariant = { λ c. c.live ≡ true → All IsLive c.copies.items };
}

impl Copies {
    /// Copies without items: for each fragment, from number 0 on, the key column of its relation
    /// where there is to be a copy. Fragments count from 1, so the first has none.
    ///
    /// O(n) for n fragments.
    pub fn new(alloc: Global, keys: &[Option<u32>]) -> Result<Copies, NoMemory>
        ensures empty { IfOk result (λ copies.
            copies ≡ record { live = true; value = map (option_map (λ key. [])) keys.now }) }
        ensures represent { IfOk result (λ copies. Represent copies.value []) }
        ensures here { IfOk result (λ copies. (f : ℕ) →
            is_here copies.value f ≡ is_some (slice_index_or keys.now f None)) }
    {
        let mut copies = Vec::with_capacity(alloc, keys.len())?;
        for key in keys {
            copies.push(empty_copy(alloc, key)?)?;
        }
        Ok(Copies { copies, live: true })
    }

    /// False once a call ran out of memory; after that the copies are only dropped.
    pub fn live(&self) -> bool
        ensures { result ≡ self.now.live }
    {
        self.live
    }

    /// Applies a change of the transaction with timestamp `ts` to the copy of its fragment, by the
    /// write rule; where there is none, the change is left out.
    ///
    /// O(log n) for n items of the copy; the row is moved.
    pub fn write(&mut self, ts: Ts, change: Change) -> Result<(), NoMemory>
        requires { IsTrue self.old.live }
        ensures ok { OnOk result (
            self.new
            ≡ record { live = true; value = with_change self.old.value (ts.0, change) }) }
        ensures represent { OnOk result ((xs : Dated) → Represent self.old.value xs
            → Represent self.new.value (xs ++ (ts.0, change) ∷ [])) }
        ensures here { OnOk result ((f : ℕ) →
            is_here self.new.value f ≡ is_here self.old.value f) }
        ensures err { OnErr result (self.new.live ≡ false) }
    {
        self.live = false;
        write_to(&mut self.copies, ts, change)?;
        self.live = true;
        Ok(())
    }

    /// Applies the changes of the transaction with timestamp `ts`, each to the copy of its fragment,
    /// by the write rule; those of other fragments are left out.
    ///
    /// O(log n) a change for n items of the copy; the rows are moved.
    pub fn apply(&mut self, ts: Ts, changes: Changes) -> Result<(), NoMemory>
        requires { IsTrue self.old.live }
        ensures ok { OnOk result (
            self.new
            ≡ record { live = true; value = fold with_change self.old.value (dated ts.0 changes) }) }
        ensures represent { OnOk result ((xs : Dated) → Represent self.old.value xs
            → Represent self.new.value (xs ++ dated ts.0 changes)) }
        ensures here { OnOk result ((f : ℕ) →
            is_here self.new.value f ≡ is_here self.old.value f) }
        ensures err { OnErr result (self.new.live ≡ false) }
    {
        self.live = false;
        write_all(&mut self.copies, ts, changes)?;
        self.live = true;
        Ok(())
    }

    /// The copy of a fragment, or None exactly where there is none. Takes no memory.
    pub fn at(&self, frag: FragNo) -> Option<&FragCopy>
        requires { IsTrue self.now.live }
        ensures { MatchOption result (is_here self.now.value frag.0 ≡ false)
            (λ copy. (is_here self.now.value frag.0 ≡ true)
            × (copy.now ≡ record { live = true; value = items_at self.now.value frag.0 })) }
    {
        match self.copies.get(frag.0 as usize) {
            Some(Some(copy)) => Some(copy),
            _ => None,
        }
    }
}

/// A copy without items, where there is to be one.
fn empty_copy(alloc: Global, key: &Option<u32>) -> Result<Option<FragCopy>, NoMemory>
    ensures { IfOk result (λ copy. copy ≡ option_map (λ key. record { live = true; value = [] }) key.now) }
{
    match key {
        Some(key) => Ok(Some(FragCopy::new(alloc, &[], *key)?)),
        None => Ok(None),
    }
}

fn write_all(copies: &mut Vec<Option<FragCopy>>, ts: Ts, changes: Changes) -> Result<(), NoMemory>
    requires { All IsLive copies.old.items }
    ensures held { OnOk result (
        held_in copies.new.items ≡ fold with_change (held_in copies.old.items) (dated ts.0 changes)) }
    ensures live { OnOk result (All IsLive copies.new.items) }
{
    for change in changes.into_vec() {
        write_to(copies, ts, change)?;
    }
    Ok(())
}

fn write_to(copies: &mut Vec<Option<FragCopy>>, ts: Ts, change: Change) -> Result<(), NoMemory>
    requires { All IsLive copies.old.items }
    ensures held { OnOk result (
        held_in copies.new.items ≡ with_change (held_in copies.old.items) (ts.0, change)) }
    ensures live { OnOk result (All IsLive copies.new.items) }
{
    let at = change.frag.0 as usize;
    if at >= copies.len() {
        return Ok(());
    }
    write_one(&mut copies[at], ts, change)
}

fn write_one(copy: &mut Option<FragCopy>, ts: Ts, change: Change) -> Result<(), NoMemory>
    requires { IsLive copy.old }
    ensures held { OnOk result (
        option_map (λ k. k.value) copy.new
        ≡ option_map (λ items. written items (ts.0, change)) (option_map (λ k. k.value) copy.old)) }
    ensures live { OnOk result (IsLive copy.new) }
{
    match copy {
        None => Ok(()),
        Some(copy) => copy.write(ts, change),
    }
}
