//! Sets of places, as words of 64 bits.
ghost use Rattle.std.specs.Prelude.{ℕ, ◌≡◌, ◌+◌, ◌++◌, ◌-◌, ◌/◌, ◌<◌, ◌^◌, ◌≤◌, ◌⊎◌, ◌↔◌, Contains, IfOk, IsTrue, OnOk, bit_and, false, length, min, slice_index, true};
ghost use Rattle.std.specs.Int.{bit_at};
ghost use Rattle.sdd_robust.specs.PlaceSets.{Has, Lacks, TakesOut, common, places_of, word_places};

use sdd_lang::NoMemory;
use std::alloc::Global;
use std::collections::VecDeque;
use std::marker::Model;

/// A set of places. It has room for those below a number that is told when it is made.
#[derive(Drop)]
pub struct PlaceSet {
    words: Vec<u64>,
}

impl Model for PlaceSet {
    ghost use Rattle.std.specs.Prelude.{ℕ, ◌^◌, ◌≤◌, List, length};

    ghost Value = { List ℕ };

    ghost view = { λ s. s.words.items };

    ghost invariant = { λ s. length s.words.items ≤ 2 ^ 58 };
}

/// Adds the places of a word's bits, ascending, of which the first one is told.
fn queue_places(word: u64, first: usize, queue: &mut VecDeque<usize>) -> Result<(), NoMemory>
    requires { first + 64 ≤ 2 ^ 64 }
    ensures { OnOk result (queue.new.items ≡ queue.old.items ++ word_places word first) }
{
    let mut left = word;
    'bits: while left != 0 {
        let bit = left.trailing_zeros();
        left &= !(1u64 << bit);
        queue.push_back(first + bit as usize)?;
    }
    Ok(())
}

/// What is left of a word without the bits of the other one. Adds the places of those that both have.
fn take_word(
    word: u64,
    other: u64,
    first: usize,
    queue: &mut VecDeque<usize>,
) -> Result<u64, NoMemory>
    requires { first + 64 ≤ 2 ^ 64 }
    ensures rest { IfOk result (λ rest. (bit : ℕ) → bit < 64 → bit_at rest bit ≡ min (bit_at word bit) (1 - bit_at other bit)) }
    ensures queued { OnOk result (queue.new.items ≡ queue.old.items ++ word_places (bit_and word other) first) }
{
    let taken = word & other;
    if taken != 0 {
        queue_places(taken, first, queue)?;
    }
    Ok(word & !other)
}

/// Whether a bit of the word is 1.
fn has_one(word: u64) -> bool
    ensures none { result ≡ false → word ≡ 0 }
    ensures one { result ≡ true → (bit : ℕ) × (bit < 64) × (bit_at word bit ≡ 1) }
{
    if word != 0 {
        return true;
    }
    false
}

impl PlaceSet {
    /// None, with room for those below the number.
    pub fn new(alloc: Global, count: usize) -> Result<PlaceSet, NoMemory>
        ensures none { IfOk result (λ set. (place : ℕ) → Lacks set place) }
        ensures room { IfOk result (λ set. length set ≡ count / 64 + 1) }
    {
        let words = vec![in alloc; 0u64; count / 64 + 1]?;
        Ok(PlaceSet { words })
    }

    pub(crate) fn copy(&self, alloc: Global) -> Result<PlaceSet, NoMemory>
        ensures { IfOk result (λ set. set ≡ self.now) }
    {
        let mut words = Vec::with_capacity(alloc, self.words.len())?;
        words.extend_from_slice(self.words.as_slice())?;
        Ok(PlaceSet { words })
    }

    /// The word at a place among the words, 0 where there is none.
    fn word(&self, at: usize) -> u64
        ensures { result ≡ slice_index self.now at }
    {
        match self.words.get(at) {
            Some(word) => *word,
            None => 0,
        }
    }

    /// Whether the place is among them.
    pub fn has(&self, place: usize) -> bool
        ensures there { result ≡ true → Has self.now place }
        ensures not_there { result ≡ false → Lacks self.now place }
    {
        (self.word(place / 64) >> (place % 64)) & 1 == 1
    }

    /// Whether there is none.
    pub fn is_empty(&self) -> bool
        ensures none { result ≡ true → (place : ℕ) → Lacks self.now place }
        ensures one { result ≡ false → (place : ℕ) × Has self.now place }
    {
        'words: for at in 0..self.words.len() {
            if has_one(self.words[at]) {
                return false;
            }
        }
        true
    }

    /// Whether both have the same places, and room for as many.
    pub fn is_same(&self, other: &PlaceSet) -> bool
        ensures { IsTrue result ↔ self.now ≡ other.now }
    {
        self.words.as_slice() == other.words.as_slice()
    }

    /// Adds a place, if there is room for it.
    pub fn add(&mut self, place: usize)
        ensures added { place / 64 < length self.old → Has self.new place }
        ensures kept { (other : ℕ) → Has self.old other → Has self.new other }
        ensures no_other { (other : ℕ) → Lacks self.old other → Lacks self.new other ⊎ (other ≡ place) }
        ensures room { length self.new ≡ length self.old }
    {
        let at = place / 64;
        if at < self.words.len() {
            self.words[at] |= 1u64 << (place % 64);
        }
    }

    /// Adds a place for which there is room, where it is told so.
    pub(crate) fn add_where(&mut self, is_so: bool, place: usize)
        requires { place / 64 < length self.old }
        ensures added { is_so ≡ true → Has self.new place }
        ensures kept { (other : ℕ) → Has self.old other → Has self.new other }
        ensures no_other { (other : ℕ) → Lacks self.old other → Lacks self.new other ⊎ ((is_so ≡ true) × (other ≡ place)) }
        ensures room { length self.new ≡ length self.old }
    {
        if is_so {
            self.add(place);
        }
    }

    /// Adds those of another set for which there is room.
    pub fn add_all(&mut self, others: &PlaceSet)
        ensures added { (place : ℕ) → place / 64 < length self.old → Has others.now place → Has self.new place }
        ensures kept { (place : ℕ) → Has self.old place → Has self.new place }
        ensures no_other { (place : ℕ) → Lacks self.old place → Lacks others.now place → Lacks self.new place }
        ensures room { length self.new ≡ length self.old }
    {
        'words: for at in 0..self.words.len() {
            self.words[at] |= others.word(at);
        }
    }

    /// Takes a place out.
    pub(crate) fn remove(&mut self, place: usize)
        ensures gone { Lacks self.new place }
        ensures fewer { (other : ℕ) → Has self.new other → Has self.old other }
        ensures others { (other : ℕ) → Lacks self.new other → Lacks self.old other ⊎ (other ≡ place) }
        ensures room { length self.new ≡ length self.old }
    {
        let at = place / 64;
        if at < self.words.len() {
            self.words[at] &= !(1u64 << (place % 64));
        }
    }

    /// Takes those out that the other set has too, and puts them into the queue. Answers whether an end is
    /// among them; then it need not have taken the others.
    pub(crate) fn take(
        &mut self,
        others: &PlaceSet,
        ends: &PlaceSet,
        queue: &mut VecDeque<usize>,
    ) -> Result<bool, NoMemory>
        ensures { IfOk result (λ met. met ≡ false → TakesOut self.old others.now self.new queue.old.items queue.new.items) }
    {
        'words: for at in 0..self.words.len() {
            let word = self.words[at];
            let other = others.word(at);
            if word & other & ends.word(at) != 0 {
                return Ok(true);
            }
            self.words[at] = take_word(word, other, at * 64, queue)?;
        }
        Ok(false)
    }

    /// Those that both sets have, ascending.
    pub fn common(&self, alloc: Global, others: &PlaceSet) -> Result<Vec<usize>, NoMemory>
        ensures { IfOk result (λ found. found.items ≡ common self.now others.now) }
    {
        let mut found = VecDeque::new(alloc);
        'words: for at in 0..self.words.len() {
            queue_places(self.words[at] & others.word(at), at * 64, &mut found)?;
        }
        Ok(Vec::from(found))
    }

    /// All of them, ascending.
    pub fn list(&self, alloc: Global) -> Result<Vec<usize>, NoMemory>
        ensures { IfOk result (λ found. found.items ≡ places_of self.now) }
    {
        self.common(alloc, self)
    }
}
