ghost use Rattle.std.specs.Prelude.{◌≡◌, ◌+◌, ◌*◌, ◌-◌, ◌≤◌, [], true, IfOk, OnOk, None};
ghost use Rattle.sdd_backups.specs.Log.{Log};
ghost use Rattle.sdd_backups.specs.Standing.{value_by};
ghost use Rattle.sdd_backups.specs.Stretches.{every_from, first_from};
ghost use Rattle.sdd_backups.specs.Sends.{send};
ghost use Rattle.sdd_backups.specs.Steps.{FitsAct, arrival};
ghost use Rattle.sdd_backups.specs.State.{IsSized, Tracks, answered_in, arrival_in, has_finished, has_heard, has_stopped, has_told, heir_in, knows_in, may_send, messages_in, next_number_in, next_send_in, note_in, untold_in, value_in, taken_in, is_from_above};

use crate::act::Act;
use crate::links::Links;
use crate::message::Message;
use crate::note::Note;
use crate::table::Table;
use crate::value::Val;
use sdd_base::NoMemory;
use std::alloc::Global;

/// The most sites: the committer and its backups.
const SITES: usize = 9;

/// Pairs of sites.
const PAIRS: usize = 81;

/// What has happened so far, as far as later notes rest on it. Tables of pairs go by `pair`.
#[derive(Drop)]
pub struct State {
    /// The number of the last backup.
    pub backups: u32,
    /// How many writes there are.
    pub writes: u32,
    /// Which sites have stopped.
    pub stopped: Table<bool>,
    /// Which sites have finished.
    pub finished: Table<bool>,
    /// The value that a site took last, with the site from which it came.
    pub values: Table<Option<(u32, Val)>>,
    /// The number of the last write that a site made, 0 before the first.
    pub numbers: Table<u32>,
    /// Whether the first site knows that the second has stopped.
    pub known: Table<bool>,
    /// Whether the first site told the second its value.
    pub told: Table<bool>,
    /// Whether the first site heard that the second took its value.
    pub heard: Table<bool>,
    /// The messages on the link from the first site to the second.
    pub links: Links,
    /// The greatest number that was written, 0 before the first.
    pub most: u32,
}

/// The place of a pair of sites in a table.
pub fn pair(first: u32, second: u32) -> u32
    requires first { first ≤ 8 }
    requires second { second ≤ 8 }
    ensures { result ≡ 9 * first + second }
{
    9 * first + second
}

impl State {
    /// The state before the first event.
    pub fn new(alloc: Global, backups: u32, writes: u32) -> Result<State, NoMemory>
        requires { backups ≤ 8 }
        ensures sized { IfOk result IsSized }
        ensures backups { IfOk result (λ state. state.backups ≡ backups) }
        ensures writes { IfOk result (λ state. state.writes ≡ writes) }
        ensures nothing { IfOk result (λ state. Tracks state []) }
    {
        Ok(State {
            backups,
            writes,
            stopped: Table::new(alloc, SITES, false)?,
            finished: Table::new(alloc, SITES, false)?,
            values: Table::new(alloc, SITES, None)?,
            numbers: Table::new(alloc, SITES, 0)?,
            known: Table::new(alloc, PAIRS, false)?,
            told: Table::new(alloc, PAIRS, false)?,
            heard: Table::new(alloc, PAIRS, false)?,
            links: Links::new(alloc, PAIRS)?,
            most: 0,
        })
    }

    /// Whether the site has stopped.
    pub fn has_stopped(&self, site: u32) -> bool
        requires sized { IsSized self.now }
        requires site { site ≤ self.now.backups }
        ensures { result ≡ has_stopped self.now site }
    {
        self.stopped.at(site)
    }

    /// Whether the site has finished.
    pub fn has_finished(&self, site: u32) -> bool
        requires sized { IsSized self.now }
        requires site { site ≤ self.now.backups }
        ensures { result ≡ has_finished self.now site }
    {
        self.finished.at(site)
    }

    fn knows(&self, site: u32, other: u32) -> bool
        requires sized { IsSized self.now }
        requires site { site ≤ self.now.backups }
        requires other { other ≤ self.now.backups }
        ensures { result ≡ knows_in self.now site other }
    {
        self.known.at(pair(site, other))
    }

    fn has_told(&self, site: u32, other: u32) -> bool
        requires sized { IsSized self.now }
        requires site { site ≤ self.now.backups }
        requires other { other ≤ self.now.backups }
        ensures { result ≡ has_told self.now site other }
    {
        self.told.at(pair(site, other))
    }

    fn has_heard(&self, site: u32, other: u32) -> bool
        requires sized { IsSized self.now }
        requires site { site ≤ self.now.backups }
        requires other { other ≤ self.now.backups }
        ensures { result ≡ has_heard self.now site other }
    {
        self.heard.at(pair(site, other))
    }

    fn is_untold(&self, site: u32, other: u32) -> bool
        requires sized { IsSized self.now }
        requires site { site ≤ self.now.backups }
        requires other { other ≤ self.now.backups }
        ensures { result ≡ untold_in self.now site other }
    {
        !self.has_told(site, other) && !self.knows(site, other)
    }

    fn has_answer(&self, site: u32, other: u32) -> bool
        requires sized { IsSized self.now }
        requires site { site ≤ self.now.backups }
        requires other { other ≤ self.now.backups }
        ensures { result ≡ answered_in self.now site other }
    {
        self.has_heard(site, other) || self.knows(site, other)
    }

    /// Whether the site knows that every lower site has stopped. Costs time linear in the sites.
    fn is_heir(&self, site: u32) -> bool
        requires sized { IsSized self.now }
        requires site { site ≤ self.now.backups }
        ensures { result ≡ heir_in self.now site }
    {
        'lower: for other in 0..site {
            if !self.knows(site, other) {
                return false;
            }
        }
        true
    }

    /// The value of the site. Costs time linear in the sites.
    pub fn value(&self, site: u32) -> Val
        requires sized { IsSized self.now }
        requires site { site ≤ self.now.backups }
        ensures { result ≡ value_in self.now site }
    {
        match self.values.at(site) {
            Some((_, val)) => val,
            None => {
                if site == 0 {
                    Val::All
                } else if self.is_heir(site) {
                    Val::Nought
                } else {
                    Val::Unknown
                }
            }
        }
    }

    fn next_untold_site(&self, site: u32) -> Option<u32>
        requires sized { IsSized self.now }
        requires site { site ≤ self.now.backups }
        ensures { result ≡ first_from (untold_in self.now site) (site + 1) (self.now.backups - site) }
    {
        'higher: for other in site + 1..self.backups + 1 {
            if self.is_untold(site, other) {
                return Some(other);
            }
        }
        None
    }

    fn has_all_answers(&self, site: u32) -> bool
        requires sized { IsSized self.now }
        requires site { site ≤ self.now.backups }
        ensures { result
            ≡ every_from (answered_in self.now site) (site + 1) (self.now.backups - site) }
    {
        'higher: for other in site + 1..self.backups + 1 {
            if !self.has_answer(site, other) {
                return false;
            }
        }
        true
    }

    /// The next number to write, or None where all are written.
    fn next_number(&self, site: u32) -> Option<u32>
        requires sized { IsSized self.now }
        requires site { site ≤ self.now.backups }
        ensures { result ≡ next_number_in self.now site }
    {
        let last = self.numbers.at(site);
        if last < self.writes {
            Some(last + 1)
        } else {
            None
        }
    }

    /// Whether the site may send: it leads and hasn't finished.
    fn may_send(&self, site: u32) -> bool
        requires sized { IsSized self.now }
        requires site { site ≤ self.now.backups }
        ensures { result ≡ may_send self.now site }
    {
        !self.has_stopped(site) && self.is_heir(site) && !self.has_finished(site)
    }

    /// What a leader sends whom all have answered.
    fn last_sends(&self, site: u32) -> Note
        requires sized { IsSized self.now }
        requires site { site ≤ self.now.backups }
        ensures { result
            ≡ send site true None true (value_in self.now site) (next_number_in self.now site) }
    {
        match self.value(site) {
            Val::All => match self.next_number(site) {
                Some(number) => Note::Write(site, number),
                None => Note::Finish(site, Val::All),
            },
            Val::Nought => Note::Finish(site, Val::Nought),
            Val::Unknown => Note::Finish(site, Val::Unknown),
        }
    }

    fn next_send(&self, site: u32) -> Note
        requires sized { IsSized self.now }
        requires site { site ≤ self.now.backups }
        ensures { result ≡ next_send_in self.now site }
    {
        if !self.may_send(site) {
            return Note::Nothing;
        }
        match self.next_untold_site(site) {
            Some(other) => Note::Tell(site, other, self.value(site)),
            None => {
                if self.has_all_answers(site) {
                    self.last_sends(site)
                } else {
                    Note::Nothing
                }
            }
        }
    }

    fn took_from_above(&self, site: u32, from: u32) -> bool
        requires sized { IsSized self.now }
        requires site { site ≤ self.now.backups }
        ensures { result ≡ is_from_above (taken_in self.now site) from }
    {
        match self.values.at(site) {
            Some((last, _)) => from < last,
            None => false,
        }
    }

    fn arrival(&self, from: u32, to: u32) -> Note
        requires sized { IsSized self.now }
        requires from { from ≤ self.now.backups }
        requires to { to ≤ self.now.backups }
        ensures { result ≡ arrival_in self.now from to }
    {
        match self.links.first(pair(from, to)) {
            None => Note::Nothing,
            Some(message) => {
                if self.has_stopped(to) {
                    return Note::Dropped;
                }
                match message {
                    Message::Gone => Note::Gone(to, from),
                    Message::Ok => Note::Ok(to, from),
                    Message::Value(val) => {
                        if self.took_from_above(to, from) {
                            Note::Ignored(to)
                        } else {
                            Note::Value { at: to, from, val }
                        }
                    }
                }
            }
        }
    }

    /// The note of an event. Costs time linear in the sites.
    pub fn note(&self, act: &Act) -> Note
        requires sized { IsSized self.now }
        requires fits { FitsAct self.now.backups act.now }
        ensures { result ≡ note_in self.now act.now }
    {
        match *act {
            Act::Step(site) => self.next_send(site),
            Act::Deliver(from, to) => self.arrival(from, to),
            Act::Stop(site) => {
                if self.has_stopped(site) {
                    Note::Nothing
                } else {
                    Note::Stop(site)
                }
            }
        }
    }
}
