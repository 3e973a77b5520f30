ghost use Rattle.std.specs.Prelude.{◌≡◌, ◌+◌, ◌<◌, ◌≤◌, ℕ, List, [], ◌∷◌, ◌++◌, length, map, slice_index_or, slice_set, IfOk, OnErr, OnOk, MatchOption, Some};
ghost use Rattle.sdd_base.specs.declared.site.Site.{Site};
ghost use Rattle.sdd_net.specs.Mailboxes.{empty_mailbox, kept_from, place_of, IsSender, Puts, TakesMessage, TakesFirst, IsLowest};

use sdd_base::{DmNo, MAX_DMS, MAX_TMS, NoMemory, Site, TmNo};
use std::alloc::Global;
use std::collections::VecDeque;
use std::marker::Model;

/// What is kept for one module.
#[derive(Drop)]
pub struct Mailbox<M> {
    pub down: bool,
    tms: u32,
    queues: Vec<VecDeque<M>>,
}

impl<M> Model for Mailbox<M> {
    ghost use Rattle.std.specs.Prelude.{map, length, suc, ◌+◌, ◌≤◌};
    ghost use Rattle.sdd_base.specs.declared.limits.TheConstants.{MAX_TMS, MAX_DMS};
    ghost use Rattle.sdd_net.specs.Mailboxes.{Mailbox};

    ghost Value = { Mailbox M };

    ghost view = { λ b. record { down = b.down; tms = b.tms; queues = map (λ q. q.items) b.queues.items } };

    ghost invariant = { λ b. (b.tms ≤ MAX_TMS) × (length b.queues.items ≤ suc (b.tms + MAX_DMS)) };
}

impl<M: Drop> Mailbox<M> {
    /// An empty mailbox of a module that is up, for messages of U and of so many transaction modules
    /// and data modules.
    pub fn new(alloc: Global, tms: u32, dms: u32) -> Result<Self, NoMemory>
        requires tms { tms ≤ MAX_TMS }
        requires dms { dms ≤ MAX_DMS }
        ensures { IfOk result (λ b. b ≡ empty_mailbox tms dms) }
    {
        let mut queues = Vec::new(alloc);
        for _ in 0..1 + tms as usize + dms as usize {
            queues.push(VecDeque::new(alloc))?;
        }
        Ok(Mailbox {
            down: false,
            tms,
            queues,
        })
    }

    /// Puts a message after those of its sender.
    pub fn put(&mut self, from: Site, msg: M) -> Result<(), NoMemory>
        requires { IsSender self.old from }
        ensures puts { OnOk result (Puts self.old self.new from msg) }
        ensures same { OnErr result (self.new ≡ self.old) }
    {
        push_at(&mut self.queues, place_of(self.tms, from), msg)
    }

    /// How many messages of a sender there are.
    pub fn count(&self, from: Site) -> usize
        requires { IsSender self.now from }
        ensures { result ≡ length (kept_from self.now from) }
    {
        count_at(&self.queues, place_of(self.tms, from))
    }

    /// Takes the first message of the lowest sender of whom there is one.
    pub fn take(&mut self) -> Option<(Site, M)>
        ensures { MatchOption result
            ((self.new ≡ self.old) × ((x : Site) → kept_from self.old x ≡ []))
            (λ (from, msg). TakesMessage self.old self.new from msg × IsLowest self.old from) }
    {
        let (place, msg) = pop_first(&mut self.queues)?;
        Some((site_at(self.tms, place), msg))
    }
}

/// The place of a site in the order of sites.
pub fn place_of(tms: u32, site: Site) -> usize
    ensures { (k : ℕ) → place_of tms site ≡ Some k → result ≡ k }
{
    match site {
        Site::U => 0,
        Site::T(tm) => tm.0 as usize,
        Site::D(dm) => tms as usize + dm.0 as usize,
    }
}

/// The site that has a place.
fn site_at(tms: u32, place: usize) -> Site
    requires tms { tms ≤ MAX_TMS }
    requires place { place ≤ tms + MAX_DMS }
    ensures { place_of tms result ≡ Some place }
{
    if place == 0 {
        return Site::U;
    }
    if place <= tms as usize {
        return Site::T(TmNo(place as u8));
    }
    Site::D(DmNo((place - tms as usize) as u8))
}

/// How many items one list has.
fn count_at<M>(queues: &Vec<VecDeque<M>>, place: usize) -> usize
    requires { place < length queues.now.items }
    ensures { result ≡ length (slice_index_or (map (λ q. q.items) queues.now.items) place []) }
{
    let queue = &queues[place];
    queue.len()
}

/// Puts an item after those of one list.
fn push_at<M: Drop>(queues: &mut Vec<VecDeque<M>>, place: usize, msg: M) -> Result<(), NoMemory>
    requires { place < length queues.old.items }
    ensures count { length queues.new.items ≡ length queues.old.items }
    ensures items { OnOk result (map (λ q. q.items) queues.new.items
        ≡ slice_set (map (λ q. q.items) queues.old.items) place
        (slice_index_or (map (λ q. q.items) queues.old.items) place [] ++ msg ∷ [])) }
    ensures same { OnErr result (map (λ q. q.items) queues.new.items
        ≡ map (λ q. q.items) queues.old.items) }
{
    let queue = &mut queues[place];
    queue.push_back(msg)?;
    Ok(())
}

/// Takes the first item of one list.
fn pop_at<M: Drop>(queues: &mut Vec<VecDeque<M>>, place: usize) -> Option<M>
    requires { place < length queues.old.items }
    ensures count { length queues.new.items ≡ length queues.old.items }
    ensures items { MatchOption result
        ((map (λ q. q.items) queues.new.items ≡ map (λ q. q.items) queues.old.items)
        × (slice_index_or (map (λ q. q.items) queues.old.items) place [] ≡ []))
        (λ msg. (rest : List M)
        × (slice_index_or (map (λ q. q.items) queues.old.items) place [] ≡ msg ∷ rest)
        × (map (λ q. q.items) queues.new.items
        ≡ slice_set (map (λ q. q.items) queues.old.items) place rest)) }
{
    let queue = &mut queues[place];
    queue.pop_front()
}

/// Takes the first item of the first list that isn't empty.
fn pop_first<M: Drop>(queues: &mut Vec<VecDeque<M>>) -> Option<(usize, M)>
    ensures count { length queues.new.items ≡ length queues.old.items }
    ensures items { MatchOption result
        ((map (λ q. q.items) queues.new.items ≡ map (λ q. q.items) queues.old.items)
        × ((j : ℕ) → slice_index_or (map (λ q. q.items) queues.old.items) j [] ≡ []))
        (λ (place, item). TakesFirst (map (λ q. q.items) queues.old.items)
        (map (λ q. q.items) queues.new.items) place item) }
{
    for place in 0..queues.len() {
        if let Some(item) = pop_at(queues, place) {
            return Some((place, item));
        }
    }
    None
}
