ghost use Rattle.std.specs.Prelude.{◌≡◌, ◌≢◌, ◌≤◌, ◌<◌, ◌+◌, ◌^◌, ◌++◌, ◌∷◌, ℕ, [], map, length, false, IfOk, OnOk, IsTrue, Some, None};
ghost use Rattle.std.specs.List.{list_any, find};
ghost use Rattle.sdd_attempt.specs.All.{AreTried, IsAwaited, ServesAt, clock_done};
ghost use Rattle.sdd_asks.specs.rules.All.{Bases, FitsTxn, IsDatabase, Queued, contains, standing_of, with_due_act};
ghost use Rattle.sdd_tm.specs.Handing.{class_handed};
ghost use Rattle.sdd_asks.specs.Asks.{without_first};
ghost use Rattle.sdd_tm.specs.Steps.{is_idle, can_answer, answer_to, class_step, act_of, class_done};
ghost use Rattle.sdd_tm.specs.Works.{first_class, classes_of};
ghost use Rattle.sdd_tm.specs.declared.step.Step.TheVariants.{Commit, Start};

use crate::step::Step;
use sdd_asks::{Asked, answer_time, answers, take_first};
use sdd_attempt::{
    Catalogue, ClassNo, Clock, Draft, Line, LineStep, Msg, NoMemory, Site, Standing, Table, TmNo,
    Txn, TxnNo,
};
use std::alloc::Global;
use std::collections::VecDeque;
use std::marker::Model;

/// One class of a transaction module: the line of its transactions, and the open ASKs for it in
/// the order in which they came.
#[derive(Drop)]
pub struct ClassRun<'a> {
    line: Line<'a>,
    asks: VecDeque<Asked>,
}

impl<'a> Model for ClassRun<'a> {
    ghost use Rattle.sdd_asks.specs.rules.tm.State.{ClassState};

    ghost Value = { ClassState };

    ghost view = { λ k. record { line = k.line; asks = k.asks.items } };
}

impl<'a> ClassRun<'a> {
    /// A class without transactions.
    pub(crate) fn new(alloc: Global, catalogue: &'a Catalogue, class: ClassNo) -> ClassRun<'a>
        requires { class.0 ≤ length catalogue.now.classes }
        ensures { result ≡ first_class catalogue.now class.0 }
    {
        ClassRun {
            line: Line::new(alloc, catalogue, class),
            asks: VecDeque::new(alloc),
        }
    }

    /// The line of its transactions, lent.
    pub fn line(&self) -> &Line<'a>
        ensures { result.now ≡ self.now.line }
    {
        &self.line
    }

    /// The open ASKs for it, in the order in which they came.
    pub fn asks(&self) -> &VecDeque<Asked>
        ensures { result.now.items ≡ self.now.asks }
    {
        &self.asks
    }

    /// The class's number.
    pub(crate) fn class(&self) -> ClassNo
        ensures { result.0 ≡ self.now.line.class }
    {
        self.line.class()
    }

    /// Whether no attempt is active.
    pub(crate) fn is_idle(&self) -> bool
        ensures { result ≡ is_idle self.now }
    {
        self.line.is_idle()
    }

    /// How the class has a transaction.
    pub(crate) fn standing(&self, number: TxnNo) -> Standing
        ensures { result ≡ standing_of self.now.line number.0 }
    {
        self.line.standing(number)
    }

    /// What the class does next.
    pub(crate) fn step(&self, on_hold: bool) -> Option<Step>
        ensures { result ≡ class_step on_hold self.now }
    {
        match self.line.step() {
            Some(LineStep::Sends) => return Some(Step::Send),
            Some(LineStep::Commits) => return Some(Step::Commit),
            None => {}
        }
        if self.can_answer() {
            return Some(Step::Answer);
        }
        if !on_hold && self.line.is_waiting() {
            return Some(Step::Start);
        }
        None
    }

    /// Whether there is an ASK that can be answered.
    fn can_answer(&self) -> bool
        ensures { result ≡ list_any (can_answer self.now.line.active) self.now.asks }
    {
        let active = self.line.active_ts();
        self.asks.iter().any(|ask| answers(active, ask))
    }

    /// Does what the class does next.
    pub(crate) fn perform(
        &mut self,
        step: Step,
        table: &Table,
        clock: &mut Clock,
        draft: &mut Draft,
    ) -> Result<(), NoMemory>
        requires declared { 1 ≤ self.old.line.class }
        requires idle { step ≡ Start → self.old.line.active ≡ None }
        requires time { clock.old.ticks + 1 < 2 ^ 57 }
        requires tries { AreTried clock.old.ticks self.old.line.queue }
        ensures class { OnOk result ((bases : Bases)
            → self.new ≡ class_done bases table.now clock.old step self.old) }
        ensures clock { OnOk result ((bases : Bases)
            → clock.new ≡ clock_done (act_of bases table.now clock.old self.old step) clock.old) }
        ensures draft { OnOk result ((bases : Bases)
            → ((ts : ℕ) → IsDatabase self.old.line.catalogue (bases ts))
            → (step ≡ Commit → ServesAt self.old.line.catalogue bases self.old.line.active)
            → draft.new ≡ with_due_act (act_of bases table.now clock.old self.old step) draft.old) }
    {
        match step {
            Step::Send => self.line.send(draft),
            Step::Commit => self.line.commit(draft),
            Step::Answer => self.answer(clock, draft),
            Step::Start => self.line.start(table, clock, draft),
        }
    }

    /// Answers the first ASK that can be answered.
    fn answer(&mut self, clock: &Clock, draft: &mut Draft) -> Result<(), NoMemory>
        ensures class { OnOk result (self.new ≡ record self.old {
          asks = without_first (can_answer self.old.line.active) self.old.asks;
        }) }
        ensures draft { OnOk result (draft.new ≡ with_due_act (answer_to clock.now self.old.line
            (find (can_answer self.old.line.active) self.old.asks)) draft.old) }
    {
        let active = self.line.active_ts();
        let class = self.line.class();
        let time = answer_time(clock, active);
        match take_first(&mut self.asks, active) {
            None => Ok(()),
            Some(ask) => draft.send(ask.from, Msg::Null { class, time }),
        }
    }

    /// Takes a message.
    pub(crate) fn hand(&mut self, from: Site, msg: Msg) -> Result<(), NoMemory>
        requires { IsAwaited self.old.line.class from msg self.old.line.active }
        ensures { OnOk result (self.new ≡ class_handed from msg self.old) }
    {
        match msg {
            Msg::Ask { class, time } => {
                if class.0 == self.line.class().0 {
                    self.asks.push_back(Asked { from, time })?;
                }
                self.line.hand(from, Msg::Ask { class, time })
            }
            msg => self.line.hand(from, msg),
        }
    }

    /// Puts a transaction at the end of the queue.
    pub(crate) fn submit(&mut self, number: TxnNo, text: &Txn) -> Result<(), NoMemory>
        requires fits { FitsTxn self.old.line.catalogue text.now }
        requires fresh { contains (map (λ (q : Queued). q.number) self.old.line.queue) number.0 ≡ false }
        ensures { OnOk result (self.new ≡ record self.old {
          line = record self.old.line {
            queue = self.old.line.queue
                ++ (record { number = number.0; text = text.now; tries = 0 }) ∷ [];
          };
        }) }
    {
        self.line.submit(number, text)
    }
}

/// The classes of a module, ascending, without transactions.
pub(crate) fn first_classes<'a>(
    alloc: Global,
    catalogue: &'a Catalogue,
    tm: TmNo,
) -> Result<Vec<ClassRun<'a>>, NoMemory>
    ensures { IfOk result (λ runs.
        runs.items ≡ map (first_class catalogue.now) (classes_of catalogue.now tm.0)) }
{
    catalogue.law_is_sound();
    let mut runs = Vec::new(alloc);
    for number in 1..catalogue.classes() + 1 {
        let class = ClassNo(number);
        if catalogue.class(class).tm.0 == tm.0 {
            runs.push(ClassRun::new(alloc, catalogue, class))?;
        }
    }
    Ok(runs)
}
