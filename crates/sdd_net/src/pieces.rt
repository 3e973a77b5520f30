ghost use Rattle.std.specs.Prelude.{◌≡◌, ◌↔◌, ◌+◌, ◌<◌, ◌≤◌, [], ◌∷◌, ◌++◌, length, replicate, take, slice_get, slice_index_or, None, Some, IfOk, IfSome, IfNone, IsSome, OnOk, OnErr, OnSome};
ghost use Rattle.std.specs.List.{flat_map, remove};
ghost use Rattle.sdd_base.specs.Words.{is_empty};
ghost use Rattle.sdd_net.specs.Links.{without_at};

use sdd_base::{Event, NoMemory};
use std::alloc::Global;
use std::collections::VecDeque;
use std::marker::Model;

/// How many items a piece takes.
const PIECE_LEN: usize = 512;

/// A list that is kept in pieces of at most `PIECE_LEN` items, which contracts see as the list.
///
/// An item is found by the lengths of the pieces before its own, and taken out within its piece, so
/// that a long list isn't moved. A piece that is empty goes, but for the last one, which stays for
/// what is put next; pieces aren't joined.
#[derive(Drop)]
pub struct Pieces<T> {
    pieces: Vec<VecDeque<T>>,
}

impl<T> Model for Pieces<T> {
    ghost use Rattle.std.specs.Prelude.{List};
    ghost use Rattle.std.specs.List.{flat_map};

    ghost Value = { List T };

    ghost view = { λ p. flat_map (λ q. q.items) p.pieces.items };
}

impl<T: Drop> Pieces<T> {
    /// The empty list.
    pub fn new(alloc: Global) -> Self
        ensures { result ≡ [] }
    {
        Pieces {
            pieces: Vec::new(alloc),
        }
    }

    /// Whether there is no item. Takes constant time.
    pub fn is_empty(&self) -> bool
        ensures { result ≡ is_empty self.now }
    {
        match self.get(0) {
            Some(_) => false,
            None => true,
        }
    }

    /// Adds an event to a list as often as there are items.
    pub fn add_for_each(&self, events: &mut Vec<Event>, event: Event) -> Result<(), NoMemory>
        ensures { OnOk result (
            events.new.items ≡ events.old.items ++ replicate (length self.now) event) }
    {
        add_for_each(self.pieces.as_slice(), events, event)
    }

    /// Puts an item at the end, in constant time but for growth.
    ///
    /// Where memory is out the list is unchanged.
    pub fn push(&mut self, item: T) -> Result<(), NoMemory>
        ensures ok { OnOk result (self.new ≡ self.old ++ item ∷ []) }
    {
        let at = open_piece(&mut self.pieces)?;
        push_at(&mut self.pieces, at, item)
    }

    /// The item at a place, counted from 0.
    ///
    /// Costs a step for each piece before the item's.
    pub fn get(&self, place: usize) -> Option<&T>
        ensures some { IfSome result (λ item. slice_get self.now place ≡ Some item.now) }
        ensures none { IfNone result (length self.now ≤ place) }
    {
        let Some((at, within)) = find(self.pieces.as_slice(), place) else {
            return None;
        };
        self.pieces[at].get(within)
    }

    /// Takes the item at a place out, counted from 0, or gives None exactly where the place is past
    /// the end.
    ///
    /// Takes no memory. Costs a step for each piece before the item's, and at most `PIECE_LEN` more.
    pub fn remove(&mut self, place: usize) -> Option<T>
        ensures item { result ≡ slice_get self.old place }
        ensures some { OnSome result (self.new ≡ without_at self.old place) }
        ensures none { result ≡ None → self.new ≡ self.old }
    {
        let Some((at, within)) = find(self.pieces.as_slice(), place) else {
            return None;
        };
        let item = take_at(&mut self.pieces, at, within);
        drop_empty(&mut self.pieces, at);
        item
    }
}

/// The piece with the item at a place, and the item's place in it.
fn find<T>(pieces: &[VecDeque<T>], place: usize) -> Option<(usize, usize)>
    ensures piece { IfSome result (λ found. found.0 < length pieces.now) }
    ensures place { IfSome result (λ found.
        place ≡ length (flat_map (λ q. q.items) (take found.0 pieces.now)) + found.1) }
    ensures within { IfSome result (λ found.
        place < length (flat_map (λ q. q.items) (take (found.0 + 1) pieces.now))) }
    ensures none { IfNone result (length (flat_map (λ q. q.items) pieces.now) ≤ place) }
{
    let mut rest = place;
    for at in 0..pieces.len() {
        let held = pieces[at].len();
        if rest < held {
            return Some((at, rest));
        }
        rest -= held;
    }
    None
}

/// Adds an event to a list as often as the pieces have items.
fn add_for_each<T>(
    pieces: &[VecDeque<T>],
    events: &mut Vec<Event>,
    event: Event,
) -> Result<(), NoMemory>
    ensures { OnOk result (events.new.items
        ≡ events.old.items ++ replicate (length (flat_map (λ q. q.items) pieces.now)) event) }
{
    for at in 0..pieces.len() {
        add_times(events, event, pieces[at].len())?;
    }
    Ok(())
}

/// Adds an event to a list so many times.
pub fn add_times(events: &mut Vec<Event>, event: Event, count: usize) -> Result<(), NoMemory>
    ensures { OnOk result (events.new.items ≡ events.old.items ++ replicate count event) }
{
    for _ in 0..count {
        events.push(event)?;
    }
    Ok(())
}

/// The place of the last piece, or of a new one after it where that is full.
fn open_piece<T: Drop>(pieces: &mut Vec<VecDeque<T>>) -> Result<usize, NoMemory>
    ensures last { IfOk result (λ at. length pieces.new.items ≡ at + 1) }
    ensures same { flat_map (λ q. q.items) pieces.new.items ≡ flat_map (λ q. q.items) pieces.old.items }
{
    let count = pieces.len();
    if count > 0 && pieces[count - 1].len() < PIECE_LEN {
        return Ok(count - 1);
    }
    let piece = VecDeque::new(*pieces.allocator());
    pieces.push(piece)?;
    Ok(count)
}

/// Puts an item at the end of the last piece.
fn push_at<T: Drop>(pieces: &mut Vec<VecDeque<T>>, at: usize, item: T) -> Result<(), NoMemory>
    requires last { length pieces.old.items ≡ at + 1 }
    ensures ok { OnOk result (
        flat_map (λ q. q.items) pieces.new.items
        ≡ flat_map (λ q. q.items) pieces.old.items ++ item ∷ []) }
    ensures err { OnErr result (
        flat_map (λ q. q.items) pieces.new.items ≡ flat_map (λ q. q.items) pieces.old.items) }
{
    let piece = &mut pieces[at];
    piece.push_back(item)?;
    Ok(())
}

/// Takes the item at a place of a piece out.
fn take_at<T: Drop>(pieces: &mut Vec<VecDeque<T>>, at: usize, within: usize) -> Option<T>
    requires piece { at < length pieces.old.items }
    requires within { length (flat_map (λ q. q.items) (take at pieces.old.items)) + within
        < length (flat_map (λ q. q.items) (take (at + 1) pieces.old.items)) }
    ensures item { IfSome result (λ item.
        slice_get (flat_map (λ q. q.items) pieces.old.items)
        (length (flat_map (λ q. q.items) (take at pieces.old.items)) + within)
        ≡ Some item) }
    ensures some { IsSome result }
    ensures left { flat_map (λ q. q.items) pieces.new.items
        ≡ without_at (flat_map (λ q. q.items) pieces.old.items)
        (length (flat_map (λ q. q.items) (take at pieces.old.items)) + within) }
    ensures count { length pieces.new.items ≡ length pieces.old.items }
{
    let piece = &mut pieces[at];
    take_within(piece, within)
}

/// Takes the item at a place of one piece out. The first costs constant time.
fn take_within<T: Drop>(piece: &mut VecDeque<T>, within: usize) -> Option<T>
    ensures value { IfSome result (λ item. item ≡ slice_index_or piece.old.items within item) }
    ensures items { OnSome result (piece.new.items ≡ remove piece.old.items within) }
    ensures some { IsSome result ↔ (within < length piece.old.items) }
{
    if within == 0 {
        return piece.pop_front();
    }
    piece.remove(within)
}

/// Drops a piece that is empty, where it isn't the last.
fn drop_empty<T: Drop>(pieces: &mut Vec<VecDeque<T>>, at: usize)
    requires { at < length pieces.old.items }
    ensures { flat_map (λ q. q.items) pieces.new.items ≡ flat_map (λ q. q.items) pieces.old.items }
{
    if at + 1 == pieces.len() {
        return;
    }
    if pieces[at].is_empty() {
        pieces.remove(at);
    }
}
