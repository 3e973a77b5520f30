ghost use Rattle.std.specs.Prelude.{◌≡◌, ◌<◌, ◌+◌, ◌^◌, ◌++◌, ◌∷◌, [], ℕ, filter_map, map, option_map, IfOk, OnOk, IsTrue, Some, None};
ghost use Rattle.std.specs.List.{list_any};
ghost use Rattle.sdd_attempt.specs.All.{AreTried, ServesAt, commit_next};
ghost use Rattle.sdd_counts.specs.rules.All.{Bases, IsDatabase, Log, Setting, T, bound_of, nothing_noted, numbers_to, time_at, with_due_act};
ghost use Rattle.sdd_attempt.specs.wire.declared.msg.Msg.TheVariants as messages;
ghost use Rattle.sdd_counts.specs.rules.declared.standing.Standing.TheVariants.{Queued};
ghost use Rattle.sdd_counts.specs.rules.umod.Fits.{fits, FitsSubmit};
ghost use Rattle.sdd_umod.specs.Handing.{IsEarly, with_counted_message, held_from, state_handed, state_given};
ghost use Rattle.sdd_umod.specs.Represents.{IsKept, IsAmid};
ghost use Rattle.sdd_counts.specs.rules.umod.Standing.{first_underway, is_awaiting_helds, missing_site, unheld_by, standing_in};
ghost use Rattle.sdd_umod.specs.Steps.{act_of, hold_step, may_start, release_step, state_done, step_of};
ghost use Rattle.sdd_counts.specs.rules.umod.Views.{turn};
ghost use Rattle.sdd_umod.specs.Works.{first_state, Works};
ghost use Rattle.sdd_umod.specs.declared.step.Step.TheVariants.{Commit, Hold, Release, Start};
ghost use Rattle.sdd_counts.specs.Counts.{HaveRoom, counted, is_kept_on_hold, no_counts};
ghost use Rattle.sdd_counts.specs.declared.tm_count.Sign.TheVariants as signs;

use crate::step::Step;
use sdd_attempt::{
    Catalogue, ClassNo, Clock, Draft, Line, LineStep, Msg, NoMemory, Site, Standing, TmNo, Ts, Txn,
    TxnNo,
};
use sdd_counts::{
    Serving, Sign, TmCount, all_hold, all_missing, any_asked_to_hold, any_on_hold, count,
    first_free, first_missing, first_on_hold,
};
use std::alloc::Global;
use std::marker::Model;

/// The parts of the module: the line of class 0, the clock, what was served last, and each
/// transaction module, ascending.
#[derive(Drop)]
pub(crate) struct Parts<'a> {
    alloc: Global,
    catalogue: &'a Catalogue,
    line: Line<'a>,
    clock: Clock,
    serving: Serving,
    counts: Vec<TmCount>,
}

impl<'a> Model for Parts<'a> {
    ghost use Rattle.sdd_counts.specs.rules.umod.State.{State};
    ghost use Rattle.std.specs.Prelude.{◌≡◌};

    ghost Value = { State };

    ghost view = { λ p. record { line = p.line; clock = p.clock; served = p.serving; counts = p.counts.items } };

    ghost invariant = { λ p. p.line.catalogue ≡ p.catalogue.now };
}

impl<'a> Parts<'a> {
    /// Before the first message.
    pub(crate) fn new(alloc: Global, catalogue: &'a Catalogue) -> Result<Parts<'a>, NoMemory>
        ensures { IfOk result (λ parts. parts ≡ first_state catalogue.now) }
    {
        let counts = first_counts(alloc, catalogue)?;
        Ok(Parts {
            alloc,
            catalogue,
            line: Line::new(alloc, catalogue, ClassNo(0)),
            clock: Clock::new(0),
            serving: Serving::new(),
            counts,
        })
    }

    /// Nothing is recorded or sent yet.
    pub(crate) fn draft(&self) -> Draft
        ensures { result ≡ nothing_noted }
    {
        Draft::new(self.alloc)
    }

    /// The line of class 0.
    pub(crate) fn line(&self) -> &Line<'a>
        ensures { result.now ≡ self.now.line }
    {
        &self.line
    }

    /// The bound of the clock.
    pub(crate) fn bound(&self) -> Ts
        ensures { result.0 ≡ bound_of self.now.clock }
    {
        self.clock.bound()
    }

    /// The timestamp of the last Commit.
    pub(crate) fn last_commit(&self) -> Ts
        ensures { result.0 ≡ self.now.served.ts }
    {
        self.serving.ts()
    }

    /// Whether a RELEASE for the last Commit is still to be sent.
    pub(crate) fn is_releasing(&self) -> bool
        ensures { result ≡ list_any (is_kept_on_hold self.now.served.commits) self.now.counts }
    {
        any_on_hold(self.counts.as_slice(), self.serving.commits())
    }

    /// The transaction modules whose HELD for the next transaction is missing.
    pub(crate) fn missing_tms(&self) -> Result<Vec<TmNo>, NoMemory>
        ensures { IfOk result (λ tms. tms.items
            ≡ filter_map (unheld_by (turn self.now.served)) self.now.counts) }
    {
        all_missing(self.alloc, self.counts.as_slice(), self.serving.turn())
    }

    /// How the module has a transaction.
    pub(crate) fn standing(&self, number: TxnNo) -> Standing
        ensures { result ≡ standing_in self.now number.0 }
    {
        let standing = self.line.standing(number);
        if !self.is_awaiting_helds() {
            return standing;
        }
        match standing {
            Standing::Queued(class, place) => self.without_first(class, place),
            standing => standing,
        }
    }

    /// How it has the transaction at this place, from 1, where the first is being served.
    fn without_first(&self, class: ClassNo, place: u64) -> Standing
        ensures { result ≡ first_underway (missing_site self.now) (Queued class place) }
    {
        if place == 1 {
            return Standing::Underway(class, None, self.missing_site());
        }
        Standing::Queued(class, place.saturating_sub(1))
    }

    /// Whether the next transaction is being served and hasn't started.
    pub(crate) fn is_awaiting_helds(&self) -> bool
        ensures { result ≡ is_awaiting_helds self.now }
    {
        self.line.is_idle() && any_asked_to_hold(self.counts.as_slice(), self.serving.turn())
    }

    /// The first site whose HELD is missing.
    fn missing_site(&self) -> Site
        ensures { result ≡ missing_site self.now }
    {
        match first_missing(self.counts.as_slice(), self.serving.turn()) {
            None => Site::U,
            Some(tm) => Site::T(tm),
        }
    }

    /// What the module does next by itself.
    fn step(&self) -> Option<Step>
        ensures step { result ≡ step_of self.now }
        ensures idle { result ≡ Some Start → self.now.line.active ≡ None }
    {
        match self.line.step() {
            Some(LineStep::Sends) => return Some(Step::Send),
            Some(LineStep::Commits) => return Some(Step::Commit),
            None => {}
        }
        if let Some(tm) = self.next_release() {
            return Some(Step::Release(tm));
        }
        if self.may_start() {
            return Some(Step::Start);
        }
        match self.next_hold() {
            None => None,
            Some(tm) => Some(Step::Hold(tm)),
        }
    }

    /// The transaction module to which a RELEASE goes next.
    fn next_release(&self) -> Option<TmNo>
        ensures { option_map Release result ≡ release_step self.now }
    {
        if !self.serving.is_applied(self.catalogue.dms()) {
            return None;
        }
        first_on_hold(self.counts.as_slice(), self.serving.commits())
    }

    /// Whether the first transaction of the queue starts.
    fn may_start(&self) -> bool
        ensures start { result ≡ may_start self.now }
        ensures idle { IsTrue result → self.now.line.active ≡ None }
    {
        self.line.is_untried() && all_hold(self.counts.as_slice(), self.serving.turn())
    }

    /// The transaction module to which a HOLD goes next.
    fn next_hold(&self) -> Option<TmNo>
        ensures { option_map Hold result ≡ hold_step self.now }
    {
        if self.line.is_empty() {
            return None;
        }
        first_free(self.counts.as_slice())
    }

    /// Does what the module does next by itself.
    fn perform(&mut self, step: Step, draft: &mut Draft) -> Result<(), NoMemory>
        requires class { self.old.line.class ≡ 0 }
        requires idle { step ≡ Start → self.old.line.active ≡ None }
        requires time { self.old.clock.ticks + 1 < 2 ^ 57 }
        requires tries { AreTried self.old.clock.ticks self.old.line.queue }
        requires commits { self.old.served.commits + 1 < 2 ^ 60 }
        requires counts { HaveRoom self.old.counts }
        ensures state { OnOk result ((bases : Bases) → self.new ≡ state_done bases step self.old) }
        ensures draft { OnOk result ((bases : Bases)
            → ((ts : ℕ) → IsDatabase self.old.line.catalogue (bases ts))
            → (step ≡ Commit → ServesAt self.old.line.catalogue bases self.old.line.active)
            → draft.new ≡ with_due_act (act_of bases self.old step) draft.old) }
    {
        match step {
            Step::Send => self.line.send(draft),
            Step::Commit => self.commit(draft),
            Step::Release(tm) => self.release(tm, draft),
            Step::Start => self.line.start_undeclared(&mut self.clock, draft),
            Step::Hold(tm) => self.hold(tm, draft),
        }
    }

    /// Commits the attempt that is under way.
    fn commit(&mut self, draft: &mut Draft) -> Result<(), NoMemory>
        requires { self.old.served.commits + 1 < 2 ^ 60 }
        ensures state { OnOk result ((bases : Bases) → self.new ≡ state_done bases Commit self.old) }
        ensures draft { OnOk result ((bases : Bases)
            → ((ts : ℕ) → IsDatabase self.old.line.catalogue (bases ts))
            → ServesAt self.old.line.catalogue bases self.old.line.active
            → draft.new ≡ with_due_act (commit_next bases self.old.line) draft.old) }
    {
        let ts = match self.line.active_ts() {
            None => Ts(0),
            Some(ts) => ts,
        };
        self.line.commit(draft)?;
        self.serving.commit(ts);
        Ok(())
    }

    /// Sends a RELEASE with the timestamp of the last Commit.
    fn release(&mut self, tm: TmNo, draft: &mut Draft) -> Result<(), NoMemory>
        requires { HaveRoom self.old.counts }
        ensures state { OnOk result (self.new
            ≡ record self.old { counts = map (counted signs.Release tm.0) self.old.counts }) }
        ensures draft { OnOk result (draft.new ≡ record draft.old {
          out = draft.old.out ++ (T tm, messages.Release (time_at self.old.served.ts)) ∷ [];
        }) }
    {
        count(self.counts.as_mut_slice(), Sign::Release, tm);
        let ts = self.serving.ts();
        draft.send(Site::T(tm), Msg::Release { ts })
    }

    /// Sends a HOLD.
    fn hold(&mut self, tm: TmNo, draft: &mut Draft) -> Result<(), NoMemory>
        requires { HaveRoom self.old.counts }
        ensures state { OnOk result (self.new
            ≡ record self.old { counts = map (counted signs.Hold tm.0) self.old.counts }) }
        ensures draft { OnOk result (draft.new
            ≡ record draft.old { out = draft.old.out ++ (T tm, messages.Hold) ∷ [] }) }
    {
        count(self.counts.as_mut_slice(), Sign::Hold, tm);
        draft.send(Site::T(tm), Msg::Hold)
    }

    /// Does what the module does by itself, until there is nothing more.
    pub(crate) fn settle(&mut self, draft: &mut Draft) -> Result<(), NoMemory>
        requires { (s : Setting) × (bases : Bases) × (log : Log) × IsAmid s bases self.old log }
        ensures works { OnOk result (Works self.old self.new draft.old draft.new) }
        ensures settled { OnOk result (step_of self.new ≡ None) }
    {
        while let Some(step) = self.step() {
            self.perform(step, draft)?;
        }
        Ok(())
    }

    /// Takes a message.
    pub(crate) fn hand(&mut self, from: Site, msg: Msg) -> Result<(), NoMemory>
        requires { (s : Setting) × (bases : Bases) × (log : Log)
            × IsKept s log self.old × fits s bases log from msg }
        ensures { OnOk result (self.new ≡ state_handed from msg self.old) }
    {
        self.count_message(from, &msg);
        self.line.hand(from, msg)
    }

    /// Pushes the clock by a message, and counts it.
    fn count_message(&mut self, from: Site, msg: &Msg)
        requires early { IsEarly msg.now }
        requires counts { HaveRoom self.old.counts }
        ensures { self.new ≡ with_counted_message from msg.now self.old }
    {
        match msg {
            Msg::Held { time } => {
                self.clock.push(*time);
                self.count_held(from);
            }
            Msg::Done { ts } => self.serving.done(*ts),
            _ => {}
        }
    }

    /// Counts a HELD.
    fn count_held(&mut self, from: Site)
        requires { HaveRoom self.old.counts }
        ensures { self.new ≡ record self.old { counts = held_from from self.old.counts } }
    {
        match from {
            Site::T(tm) => count(self.counts.as_mut_slice(), Sign::Held, tm),
            _ => {}
        }
    }

    /// Puts a transaction at the end of the queue.
    pub(crate) fn submit(&mut self, number: TxnNo, txn: &Txn) -> Result<(), NoMemory>
        requires { (s : Setting) × (bases : Bases) × (log : Log)
            × IsKept s log self.old × FitsSubmit s bases log number.0 txn.now }
        ensures { OnOk result (self.new ≡ state_given number.0 txn.now self.old) }
    {
        self.line.submit(number, txn)
    }
}

/// The transaction modules, ascending, with which nothing was exchanged yet.
fn first_counts(alloc: Global, catalogue: &Catalogue) -> Result<Vec<TmCount>, NoMemory>
    ensures { IfOk result (λ counts. counts.items ≡ map no_counts (numbers_to catalogue.now.tms)) }
{
    catalogue.law_is_sound();
    let mut counts = Vec::new(alloc);
    for tm in 1..catalogue.tms() + 1 {
        counts.push(TmCount::new(TmNo(tm as u8)))?;
    }
    Ok(counts)
}
