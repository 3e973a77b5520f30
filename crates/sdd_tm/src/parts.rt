ghost use Rattle.std.specs.Prelude.{◌≡◌, ◌≤◌, ◌<◌, ◌+◌, ◌/◌, ◌^◌, ℕ, map, length, slice_get, ◌==◌, IfOk, IfSome, OnOk, Some, None};
ghost use Rattle.std.specs.List.{list_all};
ghost use Rattle.sdd_attempt.specs.All.{AreTried, IsAwaited, ServesAt};
ghost use Rattle.sdd_asks.specs.rules.All.{Bases, IsDatabase, Log, Setting, bound_of, nothing_noted, pushed, standing_among, ticked, with_due_act};
ghost use Rattle.sdd_asks.specs.rules.tm.Fits.{fits, FitsSubmit};
ghost use Rattle.sdd_tm.specs.Handing.{push_of, with_hold_message, class_handed, state_handed, state_given, class_named, place_of, one_place, every_place, all_places, touched};
ghost use Rattle.sdd_asks.specs.rules.tm.State.{ClassState};
ghost use Rattle.sdd_tm.specs.Represents.{AreApart, AreSettled, IsKept, IsAmid, IsCalm};
ghost use Rattle.sdd_tm.specs.Steps.{is_idle, step_at, act_of, state_done, held_of, after_held};
ghost use Rattle.sdd_tm.specs.Works.{Works, first_state};
ghost use Rattle.sdd_tm.specs.declared.step.Step.TheVariants.{Commit, Start};

use crate::class_run::{ClassRun, first_classes};
use crate::message::{class_named, push_of};
use crate::places::Places;
use crate::step::Step;
use sdd_attempt::{
    Catalogue, ClassNo, Clock, Draft, Msg, NoMemory, Site, Standing, Table, TmNo, Ts, Txn, TxnNo,
};
use std::alloc::Global;
use std::marker::Model;

/// The parts of a transaction module: the classes in force with their protocol table, the clock,
/// whether it is on hold and owes a HELD for that, and its classes, ascending.
#[derive(Drop)]
pub(crate) struct Parts<'a> {
    alloc: Global,
    catalogue: &'a Catalogue,
    table: &'a Table,
    clock: Clock,
    on_hold: bool,
    owes_held: bool,
    classes: Vec<ClassRun<'a>>,
}

impl<'a> Model for Parts<'a> {
    ghost use Rattle.sdd_asks.specs.rules.tm.State.{State};

    ghost Value = { State };

    ghost view = { λ p. record {
      era = record { catalogue = p.catalogue.now; table = p.table.now };
      clock = p.clock;
      on_hold = p.on_hold;
      owes_held = p.owes_held;
      classes = p.classes.items;
    } };
}

impl<'a> Parts<'a> {
    /// Before the first message.
    pub(crate) fn new(
        alloc: Global,
        whole: &'a Catalogue,
        catalogue: &'a Catalogue,
        table: &'a Table,
        tm: TmNo,
    ) -> Result<Parts<'a>, NoMemory>
        ensures { IfOk result (λ parts. parts
            ≡ first_state whole.now (record { catalogue = catalogue.now; table = table.now }) tm.0) }
    {
        Ok(Parts {
            alloc,
            catalogue,
            table,
            clock: Clock::new(tm.0),
            on_hold: false,
            owes_held: false,
            classes: first_classes(alloc, whole, tm)?,
        })
    }

    /// Nothing is recorded or sent yet.
    pub(crate) fn draft(&self) -> Draft
        ensures { result ≡ nothing_noted }
    {
        Draft::new(self.alloc)
    }

    /// Whether the module is on hold.
    pub(crate) fn is_on_hold(&self) -> bool
        ensures { result ≡ self.now.on_hold }
    {
        self.on_hold
    }

    /// Whether it owes a HELD for that.
    pub(crate) fn owes_held(&self) -> bool
        ensures { result ≡ self.now.owes_held }
    {
        self.owes_held
    }

    /// Its classes, ascending.
    pub(crate) fn classes(&self) -> &[ClassRun<'a>]
        ensures { result.now ≡ self.now.classes }
    {
        self.classes.as_slice()
    }

    /// How the module has a transaction.
    pub(crate) fn standing(&self, number: TxnNo) -> Standing
        ensures { result
            ≡ standing_among (map (λ (k : ClassState). k.line) self.now.classes) number.0 }
    {
        standing_among(self.classes.as_slice(), number)
    }

    /// What the class at a place does next.
    fn step(&self, place: u32) -> Option<Step>
        ensures { result ≡ step_at self.now.on_hold (slice_get self.now.classes place) }
    {
        match self.classes.get(place as usize) {
            None => None,
            Some(run) => run.step(self.on_hold),
        }
    }

    /// Does what the class at a place does next.
    fn perform(&mut self, place: u32, step: Step, draft: &mut Draft) -> Result<(), NoMemory>
        requires there { place < length self.old.classes }
        requires time { self.old.clock.ticks + 1 < 2 ^ 57 }
        requires declared { (k : ClassState) → slice_get self.old.classes place ≡ Some k
            → 1 ≤ k.line.class }
        requires idle { (k : ClassState) → slice_get self.old.classes place ≡ Some k
            → step ≡ Start → k.line.active ≡ None }
        requires tries { (k : ClassState) → slice_get self.old.classes place ≡ Some k
            → AreTried self.old.clock.ticks k.line.queue }
        ensures state { OnOk result ((bases : Bases) (k : ClassState)
            → slice_get self.old.classes place ≡ Some k
            → self.new ≡ state_done bases place k step self.old) }
        ensures draft { OnOk result ((bases : Bases) (k : ClassState)
            → slice_get self.old.classes place ≡ Some k
            → ((ts : ℕ) → IsDatabase k.line.catalogue (bases ts))
            → (step ≡ Commit → ServesAt k.line.catalogue bases k.line.active)
            → draft.new
            ≡ with_due_act (act_of bases self.old.era.table self.old.clock k step) draft.old) }
    {
        let table = self.table;
        let run = &mut self.classes[place as usize];
        run.perform(step, table, &mut self.clock, draft)
    }

    /// Lets the classes at these places do what they do by themselves.
    pub(crate) fn settle(&mut self, places: Places, draft: &mut Draft) -> Result<(), NoMemory>
        requires few { length self.old.classes < 2 ^ 32 }
        requires end { places.end ≤ length self.old.classes }
        requires calm { IsCalm places.from places.end self.old }
        requires amid { (s : Setting) × (bases : Bases) × (log : Log)
            × IsAmid s bases self.old log }
        ensures works { OnOk result (Works self.old self.new draft.old draft.new) }
        ensures settled { OnOk result (AreSettled self.new) }
    {
        let mut place = places.from;
        while place < places.end {
            match self.step(place) {
                Some(step) => self.perform(place, step, draft)?,
                None => place += 1,
            }
        }
        Ok(())
    }

    /// Sends HELD, where it is due.
    pub(crate) fn tell_held(&mut self, draft: &mut Draft) -> Result<(), NoMemory>
        ensures state { OnOk result (self.new ≡ after_held self.old) }
        ensures draft { OnOk result (draft.new ≡ with_due_act (held_of self.old) draft.old) }
    {
        if !self.on_hold || !self.owes_held || !self.are_idle() {
            return Ok(());
        }
        self.owes_held = false;
        draft.send(
            Site::U,
            Msg::Held {
                time: self.clock.bound(),
            },
        )
    }

    fn are_idle(&self) -> bool
        ensures { result ≡ list_all is_idle self.now.classes }
    {
        self.classes.iter().all(|run| run.is_idle())
    }

    /// Takes a message, and returns which classes may have something to do after it.
    pub(crate) fn hand(&mut self, from: Site, msg: Msg) -> Result<Places, NoMemory>
        requires { (s : Setting) × (bases : Bases) × (log : Log)
            × IsKept s log self.old × fits s bases log from msg }
        ensures state { OnOk result (self.new ≡ state_handed from msg self.old) }
        ensures places { IfOk result (λ places. places ≡ touched self.old.classes msg) }
    {
        self.apply_hold(&msg);
        match class_named(&msg) {
            None => Ok(self.all_places(&msg)),
            Some(class) => self.hand_class(class, from, msg),
        }
    }

    /// Pushes the clock by a message, and sets or ends the hold.
    fn apply_hold(&mut self, msg: &Msg)
        requires { push_of msg.now / 64 < 2 ^ 57 }
        ensures { self.new ≡ with_hold_message msg.now self.old }
    {
        self.clock.push(push_of(msg));
        match msg {
            Msg::Hold => {
                self.on_hold = true;
                self.owes_held = true;
            }
            Msg::Release { .. } => self.on_hold = false,
            _ => {}
        }
    }

    /// Takes a message that names a class.
    fn hand_class(&mut self, class: ClassNo, from: Site, msg: Msg) -> Result<Places, NoMemory>
        requires few { length self.old.classes < 2 ^ 32 }
        requires apart { AreApart self.old.classes }
        requires named { class_named msg ≡ Some class }
        requires awaited { (place : ℕ) (k : ClassState) → slice_get self.old.classes place ≡ Some k
            → IsAwaited k.line.class from msg k.line.active }
        ensures state { OnOk result (self.new
            ≡ record self.old { classes = map (class_handed from msg) self.old.classes }) }
        ensures places { IfOk result (λ places.
            places ≡ one_place (place_of self.old.classes class.0)) }
    {
        match self.place_of(class) {
            None => Ok(Places { from: 0, end: 0 }),
            Some(place) => {
                let run = &mut self.classes[place as usize];
                run.hand(from, msg)?;
                Ok(Places {
                    from: place,
                    end: place + 1,
                })
            }
        }
    }

    /// The place of a class. Costs a look at each class of the module.
    fn place_of(&self, class: ClassNo) -> Option<u32>
        requires { length self.now.classes < 2 ^ 32 }
        ensures { result ≡ place_of self.now.classes class.0 }
    {
        match place_among(self.classes.as_slice(), class) {
            None => None,
            Some(place) => Some(place as u32),
        }
    }

    /// All classes.
    pub(crate) fn every_place(&self) -> Places
        requires { length self.now.classes < 2 ^ 32 }
        ensures { result ≡ every_place (length self.now.classes) }
    {
        Places {
            from: 0,
            end: self.classes.len() as u32,
        }
    }

    /// All classes, where a message lets them start.
    fn all_places(&self, msg: &Msg) -> Places
        requires { length self.now.classes < 2 ^ 32 }
        ensures { result ≡ all_places (length self.now.classes) msg.now }
    {
        match msg {
            Msg::Release { .. } => self.every_place(),
            _ => Places { from: 0, end: 0 },
        }
    }

    /// Puts a transaction at the end of the queue of a class, and returns the place of that class.
    pub(crate) fn submit(
        &mut self,
        number: TxnNo,
        txn: &Txn,
        class: ClassNo,
    ) -> Result<Places, NoMemory>
        requires { (s : Setting) × (bases : Bases) × (log : Log)
            × IsKept s log self.old × FitsSubmit s bases log number.0 txn.now }
        ensures state { OnOk result (
            self.new ≡ state_given class.0 number.0 txn.now self.old) }
        ensures places { IfOk result (λ places. places
            ≡ one_place (place_of self.old.classes class.0)) }
    {
        match self.place_of(class) {
            None => Ok(Places { from: 0, end: 0 }),
            Some(place) => {
                let run = &mut self.classes[place as usize];
                run.submit(number, txn)?;
                Ok(Places {
                    from: place,
                    end: place + 1,
                })
            }
        }
    }

    /// Puts other classes in force at a time that pushes the clock.
    pub(crate) fn redeclare(&mut self, catalogue: &'a Catalogue, table: &'a Table, t: Ts)
        requires { t.0 / 64 < 2 ^ 57 }
        ensures { self.new ≡ record self.old {
          era = record { catalogue = catalogue.now; table = table.now };
          clock = pushed self.old.clock t.0;
        } }
    {
        self.clock.push(t);
        self.catalogue = catalogue;
        self.table = table;
    }

    /// The bound of the clock.
    pub(crate) fn bound(&self) -> Ts
        ensures { result.0 ≡ bound_of self.now.clock }
    {
        self.clock.bound()
    }

    /// Lets time pass.
    pub(crate) fn tick(&mut self, n: u32)
        requires { self.old.clock.ticks + n < 2 ^ 57 }
        ensures { self.new ≡ record self.old { clock = ticked self.old.clock n } }
    {
        self.clock.tick(n);
    }
}

fn place_among(runs: &[ClassRun<'_>], class: ClassNo) -> Option<usize>
    ensures place { result ≡ place_of runs.now class.0 }
    ensures within { IfSome result (λ place. place < length runs.now) }
{
    runs.iter().position(|run| is_of(run, class))
}

fn is_of(run: &ClassRun<'_>, class: ClassNo) -> bool
    ensures { result ≡ (run.now.line.class == class.0) }
{
    run.class().0 == class.0
}

fn standing_among(runs: &[ClassRun<'_>], number: TxnNo) -> Standing
    ensures { result
        ≡ standing_among (map (λ (k : ClassState). k.line) runs.now) number.0 }
{
    for run in runs.iter() {
        match run.standing(number) {
            Standing::Absent => {}
            standing => return standing,
        }
    }
    Standing::Absent
}
