ghost use Rattle.std.specs.Prelude.{◌≡◌, filter_map, find, map, option_map, IfOk};
ghost use Rattle.std.specs.List.{list_all, list_any};
ghost use Rattle.sdd_counts.specs.Counts.{HasRoom, HaveRoom, counted, is_free, is_holding, is_kept_on_hold, no_counts};
ghost use Rattle.sdd_rules.specs.umod.Views.{tm_of};
ghost use Rattle.sdd_rules.specs.umod.Standing.{is_asked_to_hold, lacks_held, unheld_by};

use sdd_rules::{NoMemory, TmNo};
use std::alloc::Global;
use std::marker::Model;

/// A message between the module and a transaction module.
#[derive(Clone, Copy)]
pub enum Sign {
    Hold,
    Held,
    Release,
}

/// Of one transaction module: how many HOLDs and RELEASEs were sent to it, and how many HELDs came
/// from it.
#[derive(Drop)]
pub struct TmCount {
    tm: TmNo,
    holds: u64,
    helds: u64,
    releases: u64,
}

impl Model for TmCount {
    ghost use Rattle.sdd_rules.specs.umod.Views.{TmCounts};

    ghost Value = { TmCounts };

    ghost view = { λ k. record { tm = k.tm.0; holds = k.holds; helds = k.helds; releases = k.releases } };
}

impl TmCount {
    /// Of a transaction module with which nothing was exchanged yet.
    pub fn new(tm: TmNo) -> TmCount
        ensures { result ≡ no_counts tm.0 }
    {
        TmCount {
            tm,
            holds: 0,
            helds: 0,
            releases: 0,
        }
    }

    /// The transaction module.
    pub fn tm(&self) -> TmNo
        ensures { result.0 ≡ self.now.tm }
    {
        self.tm
    }

    /// Whether a RELEASE for one of so many Commits is still to be sent.
    pub fn is_kept_on_hold(&self, commits: u64) -> bool
        ensures { result ≡ is_kept_on_hold commits self.now }
    {
        self.releases < commits
    }

    /// Whether it was asked to hold for the transaction of this number.
    pub fn is_asked_to_hold(&self, turn: u64) -> bool
        ensures { result ≡ is_asked_to_hold turn self.now }
    {
        self.holds == turn
    }

    /// Whether its HELD for the transaction of this number is missing.
    pub fn lacks_held(&self, turn: u64) -> bool
        ensures { result ≡ lacks_held turn self.now }
    {
        self.helds != turn
    }

    /// The transaction module, where its HELD for the transaction of this number is missing.
    fn missing_tm(&self, turn: u64) -> Option<TmNo>
        ensures { result ≡ unheld_by turn self.now }
    {
        if self.lacks_held(turn) {
            Some(self.tm)
        } else {
            None
        }
    }

    /// Whether it holds for the transaction of this number, and has said so.
    pub fn is_holding(&self, turn: u64) -> bool
        ensures { result ≡ is_holding turn self.now }
    {
        self.holds == turn && self.helds == turn
    }

    /// Whether each HOLD was followed by a RELEASE.
    pub fn is_free(&self) -> bool
        ensures { result ≡ is_free self.now }
    {
        self.releases == self.holds
    }

    /// Counts a message to or from the transaction module with this number.
    fn count(&mut self, sign: Sign, tm: TmNo)
        requires { HasRoom self.old }
        ensures { self.new ≡ counted sign tm.0 self.old }
    {
        if tm.0 != self.tm.0 {
            return;
        }
        match sign {
            Sign::Hold => self.holds += 1,
            Sign::Held => self.helds += 1,
            Sign::Release => self.releases += 1,
        }
    }
}

/// Counts a message to or from the transaction module with this number.
pub fn count(counts: &mut [TmCount], sign: Sign, tm: TmNo)
    requires { HaveRoom counts.old }
    ensures { counts.new ≡ map (counted sign tm.0) counts.old }
{
    for one in counts.iter_mut() {
        one.count(sign, tm);
    }
}

/// The first transaction module for which a RELEASE for one of so many Commits is still to be sent.
pub fn first_on_hold(counts: &[TmCount], commits: u64) -> Option<TmNo>
    ensures { result ≡ option_map tm_of (find (is_kept_on_hold commits) counts.now) }
{
    match counts.iter().find(|one| one.is_kept_on_hold(commits)) {
        None => None,
        Some(one) => Some(one.tm()),
    }
}

/// The first transaction module whose HOLDs were each followed by a RELEASE.
pub fn first_free(counts: &[TmCount]) -> Option<TmNo>
    ensures { result ≡ option_map tm_of (find is_free counts.now) }
{
    match counts.iter().find(|one| one.is_free()) {
        None => None,
        Some(one) => Some(one.tm()),
    }
}

/// The first transaction module whose HELD for the transaction of this number is missing.
pub fn first_missing(counts: &[TmCount], turn: u64) -> Option<TmNo>
    ensures { result ≡ option_map tm_of (find (lacks_held turn) counts.now) }
{
    match counts.iter().find(|one| one.lacks_held(turn)) {
        None => None,
        Some(one) => Some(one.tm()),
    }
}

/// The transaction modules whose HELD for the transaction of this number is missing.
pub fn all_missing(alloc: Global, counts: &[TmCount], turn: u64) -> Result<Vec<TmNo>, NoMemory>
    ensures { IfOk result (λ tms. tms.items ≡ filter_map (unheld_by turn) counts.now) }
{
    Ok(
        counts
            .iter()
            .filter_map(|one| one.missing_tm(turn))
            .collect(alloc)?,
    )
}

/// Whether all hold for the transaction of this number, and have said so.
pub fn all_hold(counts: &[TmCount], turn: u64) -> bool
    ensures { result ≡ list_all (is_holding turn) counts.now }
{
    counts.iter().all(|one| one.is_holding(turn))
}

/// Whether a RELEASE for one of so many Commits is still to be sent to one.
pub fn any_on_hold(counts: &[TmCount], commits: u64) -> bool
    ensures { result ≡ list_any (is_kept_on_hold commits) counts.now }
{
    counts.iter().any(|one| one.is_kept_on_hold(commits))
}

/// Whether one was asked to hold for the transaction of this number.
pub fn any_asked_to_hold(counts: &[TmCount], turn: u64) -> bool
    ensures { result ≡ list_any (is_asked_to_hold turn) counts.now }
{
    counts.iter().any(|one| one.is_asked_to_hold(turn))
}
