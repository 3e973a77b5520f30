ghost use Rattle.std.specs.Prelude.{◌≡◌, ◌<◌, ◌≤◌, ◌+◌, ◌++◌, ◌∷◌, ◌^◌, ◌==◌, ◌&&◌, ℕ, [], is_none, length, map, not, option_map, position, unwrap_or, IfOk, IsTrue, OnOk, None, false};
ghost use Rattle.sdd_module.specs.All.{Bases, FitsTxn, IsDatabase, contains, head_of, is_empty, with_due_act};
ghost use Rattle.sdd_rules.specs.All.{active_handed, standing_of};
ghost use Rattle.sdd_attempt.specs.Lines.{AreTried, IsAwaited, ServesAt, awaited_by, clock_done, commit_next, head_is_untried, lacked_by, line_done, line_step, no_line, send_next, start_next, tries_of_first};
ghost use Rattle.sdd_rules.specs.attempt.Queues.{txn_of};
ghost use Rattle.sdd_running.specs.Reads.{IsDeclared};
ghost use Rattle.sdd_rules.specs.attempt.Standings.{standing_at};

use crate::commit::commit_attempt;
use sdd_module::{
    Catalogue, ClassNo, Clock, DmNo, Draft, Msg, NoMemory, Parcel, Site, Table, Ts, Txn, TxnNo,
};
use sdd_rules::Standing;
use sdd_running::{Answer, LineStep, Queued, Running, start_attempt};
use std::alloc::Global;
use std::collections::VecDeque;
use std::marker::Model;

/// The transactions of one class at a site that are submitted and not committed, in order, and the
/// attempt that is under way, which is that of the first one.
///
/// Once out of memory a line is only dropped.
#[derive(Drop)]
pub struct Line<'a> {
    alloc: Global,
    catalogue: &'a Catalogue,
    class: ClassNo,
    queue: VecDeque<Queued>,
    running: Option<Running>,
}

impl<'a> Model for Line<'a> {
    ghost use Rattle.sdd_attempt.specs.Lines as lines;
    ghost use Rattle.sdd_rules.specs.attempt.Line as class_lines;

    ghost Value = { class_lines.Line };

    ghost view = { λ l. lines.line_of l.catalogue.now l.class.0 l.queue.items l.running };

    ghost invariant = { λ l. lines.IsLine l.catalogue.now l.class.0 l.queue.items l.running };
}

impl<'a> Line<'a> {
    /// The line of a class, where class 0 is that of undeclared transactions. Takes no memory.
    pub fn new(alloc: Global, catalogue: &'a Catalogue, class: ClassNo) -> Line<'a>
        requires { class.0 ≤ length catalogue.now.classes }
        ensures { result ≡ no_line catalogue.now class.0 }
    {
        Line {
            alloc,
            catalogue,
            class,
            queue: VecDeque::new(alloc),
            running: None,
        }
    }

    /// The class.
    pub fn class(&self) -> ClassNo
        ensures { result.0 ≡ self.now.class }
    {
        self.class
    }

    /// Whether no attempt is under way.
    pub fn is_idle(&self) -> bool
        ensures { result ≡ is_none self.now.active }
    {
        self.running.is_none()
    }

    /// Whether no transaction is in the queue.
    pub fn is_empty(&self) -> bool
        ensures { result ≡ is_empty self.now.queue }
    {
        self.queue.is_empty()
    }

    /// Whether a transaction is in the queue and none of the class is under way.
    pub fn is_waiting(&self) -> bool
        ensures { result ≡ (is_none self.now.active && not (is_empty self.now.queue)) }
    {
        self.is_idle() && !self.is_empty()
    }

    /// Whether the first transaction in the queue has never started.
    pub fn is_untried(&self) -> bool
        ensures untried { result ≡ head_is_untried self.now.queue }
        ensures idle { IsTrue result → self.now.active ≡ None }
    {
        match self.queue.front() {
            None => false,
            Some(queued) => queued.tries == 0,
        }
    }

    /// The timestamp of the attempt that is under way.
    pub fn active_ts(&self) -> Option<Ts>
        ensures { option_map (λ t. t.0) result ≡ option_map (λ a. a.ts) self.now.active }
    {
        match &self.running {
            None => None,
            Some(running) => Some(running.ts),
        }
    }

    /// The transactions in the queue, in order.
    pub fn queued_txns(&self) -> Result<Vec<TxnNo>, NoMemory>
        ensures { IfOk result (λ numbers. numbers.items ≡ map txn_of self.now.queue) }
    {
        numbers_of(self.alloc, &self.queue)
    }

    /// The first transaction in the queue.
    pub fn first(&self) -> Option<TxnNo>
        ensures { option_map (λ n. n.0) result ≡ option_map (λ q. q.number) (head_of self.now.queue) }
    {
        match self.queue.front() {
            None => None,
            Some(queued) => Some(queued.number),
        }
    }

    /// How often the first transaction in the queue started; 0 where there is none.
    pub fn tries(&self) -> u64
        ensures { result ≡ tries_of_first self.now.queue }
    {
        match self.queue.front() {
            None => 0,
            Some(queued) => queued.tries,
        }
    }

    /// What the attempt that is under way awaits; nothing where it is over, or none is under way.
    pub fn awaits(&self) -> Option<Answer>
        ensures { result ≡ awaited_by self.now.active }
    {
        match &self.running {
            None => None,
            Some(running) => running.exchange.awaits(),
        }
    }

    /// The data modules whose answer to the attempt is missing; none where none is under way.
    pub fn missing_dms(&self) -> &[DmNo]
        ensures { map (λ n. n.0) result.now ≡ lacked_by self.now.active }
    {
        match &self.running {
            None => &[],
            Some(running) => running.exchange.missing_dms(),
        }
    }

    /// What the attempt that is under way does next by itself.
    pub fn step(&self) -> Option<LineStep>
        ensures { result ≡ line_step self.now.active }
    {
        match &self.running {
            None => None,
            Some(running) => running.step(),
        }
    }

    /// How the site has the transaction, as far as this class goes. Costs time in the queue.
    pub fn standing(&self, number: TxnNo) -> Standing
        ensures { result ≡ standing_of self.now number.0 }
    {
        match place_of(&self.queue, number) {
            None => Standing::Absent,
            Some(place) => self.standing_at(place),
        }
    }

    /// How the site has the transaction at this place in the queue, from 0.
    fn standing_at(&self, place: usize) -> Standing
        requires { place < length self.now.queue }
        ensures { result ≡ standing_at self.now.class self.now.active place }
    {
        match &self.running {
            None => Standing::Queued(self.class, place as u64 + 1),
            Some(running) => {
                if place == 0 {
                    return running.standing(self.class);
                }
                Standing::Queued(self.class, place as u64)
            }
        }
    }

    /// Puts a transaction at the end of the queue. Costs a copy of it.
    pub fn submit(&mut self, number: TxnNo, text: &Txn) -> Result<(), NoMemory>
        requires fits { FitsTxn self.old.catalogue text.now }
        requires fresh { contains (map (λ q. q.number) self.old.queue) number.0 ≡ false }
        ensures line { OnOk result (
            self.new
            ≡ record self.old {
              queue = self.old.queue ++ (record { number = number.0; text = text.now; tries = 0 }) ∷ [];
            }) }
        ensures catalogue { self.new.catalogue ≡ self.old.catalogue }
        ensures class { self.new.class ≡ self.old.class }
    {
        let text = text.copy()?;
        self.queue.push_back(Queued {
            number,
            text,
            tries: 0,
        })?;
        Ok(())
    }

    /// Takes a message: an answer to the attempt that is under way, or a REJECT of it, after which
    /// none is under way. Any other message changes nothing.
    ///
    /// Costs what the message carries, and with the last missing answer also what the attempt
    /// sends next.
    pub fn hand(&mut self, from: Site, msg: Msg) -> Result<(), NoMemory>
        requires { IsAwaited self.old.class from msg self.old.active }
        ensures line { OnOk result (
            self.new
            ≡ record self.old { active = active_handed self.old.class from msg self.old.active }) }
        ensures catalogue { self.new.catalogue ≡ self.old.catalogue }
        ensures class { self.new.class ≡ self.old.class }
    {
        let class = self.class;
        match &mut self.running {
            None => Ok(()),
            Some(running) => match running.hand(class, from, msg) {
                Ok(true) => Ok(()),
                Ok(false) => {
                    set_running(&mut self.running, None);
                    Ok(())
                }
                Err(error) => {
                    set_running(&mut self.running, None);
                    Err(error)
                }
            },
        }
    }

    /// Sends the next message of the attempt that is under way.
    pub fn send(&mut self, draft: &mut Draft) -> Result<(), NoMemory>
        ensures line { OnOk result (self.new ≡ line_done (send_next self.old.active) self.old) }
        ensures draft { OnOk result (draft.new ≡ with_due_act (send_next self.old.active) draft.old) }
        ensures catalogue { self.new.catalogue ≡ self.old.catalogue }
        ensures class { self.new.class ≡ self.old.class }
    {
        match &mut self.running {
            None => Ok(()),
            Some(running) => running.send(draft),
        }
    }

    /// Commits the attempt that is under way: its transaction leaves the queue. What it commits is
    /// its effect on each database that the rows serve that came for it.
    ///
    /// Costs what that effect costs, and for the WRITEs the modules times the changes.
    pub fn commit(&mut self, draft: &mut Draft) -> Result<(), NoMemory>
        ensures line { OnOk result (
            (bases : Bases) → self.new ≡ line_done (commit_next bases self.old) self.old) }
        ensures draft { OnOk result (
            (bases : Bases) → ((ts : ℕ) → IsDatabase self.old.catalogue (bases ts))
            → ServesAt self.old.catalogue bases self.old.active
            → draft.new ≡ with_due_act (commit_next bases self.old) draft.old) }
        ensures catalogue { self.new.catalogue ≡ self.old.catalogue }
        ensures class { self.new.class ≡ self.old.class }
    {
        match self.running.take() {
            None => return Ok(()),
            Some(running) => match self.queue.pop_front() {
                None => return Ok(()),
                Some(queued) => {
                    return commit_attempt(
                        self.alloc,
                        self.catalogue,
                        self.class,
                        &queued,
                        running,
                        draft,
                    );
                }
            },
        }
    }

    /// Starts the next attempt of the first transaction in the queue, in a declared class, by the
    /// protocol table in force.
    ///
    /// Costs what the transaction's uses cost, and the modules that it reads times their conditions.
    pub fn start(
        &mut self,
        table: &Table,
        clock: &mut Clock,
        draft: &mut Draft,
    ) -> Result<(), NoMemory>
        requires declared { 1 ≤ self.old.class }
        requires idle { self.old.active ≡ None }
        requires time { clock.old.ticks + 1 < 2 ^ 57 }
        requires tries { AreTried clock.old.ticks self.old.queue }
        ensures line { OnOk result (
            self.new ≡ line_done (start_next table.now clock.old self.old) self.old) }
        ensures draft { OnOk result (
            draft.new ≡ with_due_act (start_next table.now clock.old self.old) draft.old) }
        ensures clock { OnOk result (
            clock.new ≡ clock_done (start_next table.now clock.old self.old) clock.old) }
        ensures catalogue { self.new.catalogue ≡ self.old.catalogue }
        ensures class { self.new.class ≡ self.old.class }
    {
        let _ = &self.class;
        self.begin(Some(table), clock, draft)
    }

    /// The same for undeclared transactions.
    pub fn start_undeclared(&mut self, clock: &mut Clock, draft: &mut Draft) -> Result<(), NoMemory>
        requires undeclared { self.old.class ≡ 0 }
        requires idle { self.old.active ≡ None }
        requires time { clock.old.ticks + 1 < 2 ^ 57 }
        requires tries { AreTried clock.old.ticks self.old.queue }
        ensures line { OnOk result (
            self.new ≡ line_done (start_next [] clock.old self.old) self.old) }
        ensures draft { OnOk result (
            draft.new ≡ with_due_act (start_next [] clock.old self.old) draft.old) }
        ensures clock { OnOk result (
            clock.new ≡ clock_done (start_next [] clock.old self.old) clock.old) }
        ensures catalogue { self.new.catalogue ≡ self.old.catalogue }
        ensures class { self.new.class ≡ self.old.class }
    {
        self.begin(None, clock, draft)
    }

    fn begin(
        &mut self,
        table: Option<&Table>,
        clock: &mut Clock,
        draft: &mut Draft,
    ) -> Result<(), NoMemory>
        requires declared { IsDeclared self.old.catalogue self.old.class (option_map (λ t. t.now) table) }
        requires idle { self.old.active ≡ None }
        requires time { clock.old.ticks + 1 < 2 ^ 57 }
        requires tries { AreTried clock.old.ticks self.old.queue }
        ensures line { OnOk result (
            self.new ≡ line_done (start_next (unwrap_or (option_map (λ t. t.now) table.entry) []) clock.old self.old) self.old) }
        ensures draft { OnOk result (
            draft.new ≡ with_due_act (start_next (unwrap_or (option_map (λ t. t.now) table.entry) []) clock.old self.old) draft.old) }
        ensures clock { OnOk result (
            clock.new ≡ clock_done (start_next (unwrap_or (option_map (λ t. t.now) table.entry) []) clock.old self.old) clock.old) }
        ensures catalogue { self.new.catalogue ≡ self.old.catalogue }
        ensures class { self.new.class ≡ self.old.class }
    {
        self.catalogue.law_is_sound();
        match self.queue.front_mut() {
            None => Ok(()),
            Some(queued) => {
                let running = start_attempt(
                    self.alloc,
                    self.catalogue,
                    table,
                    self.class,
                    queued,
                    clock,
                    draft,
                )?;
                queued.add_try();
                set_running(&mut self.running, Some(running));
                Ok(())
            }
        }
    }
}

/// Puts an attempt, or none, in the place of the one that is under way, which is dropped here, so
/// that no caller's proof has to say how.
fn set_running(place: &mut Option<Running>, running: Option<Running>)
    ensures { place.new ≡ running }
{
    *place = running;
}

/// The transactions in a queue, in order.
fn numbers_of(alloc: Global, queue: &VecDeque<Queued>) -> Result<Vec<TxnNo>, NoMemory>
    ensures { IfOk result (λ numbers. numbers.items ≡ map txn_of queue.now.items) }
{
    let mut numbers = Vec::new(alloc);
    'queue: for queued in queue.iter() {
        numbers.push(queued.txn())?;
    }
    Ok(numbers)
}

/// The place of a transaction in a queue, from 0.
fn place_of(queue: &VecDeque<Queued>, number: TxnNo) -> Option<usize>
    ensures { result ≡ position (λ q. q.number == number.0) queue.now.items }
{
    queue.iter().position(|queued| queued.number == number)
}
