ghost use Rattle.std.specs.Prelude.{◌≡◌, ◌∷◌, [], ◌+◌, ◌/◌, ◌<◌, ◌^◌, List, map, IfOk, OnErr, IsTrue};
ghost use Rattle.sdd_asks.specs.rules.All.{Bases, Does, FitsSite, Log, Rec as Record, Redeclared, Setting, Submits, T, Ticked, bound_of, class_for, clock, current_era, standing_among};
ghost use Rattle.sdd_attempt.specs.history.declared.record.Rec.TheVariants.{Submit};
ghost use Rattle.sdd_eras.specs.EraOf.{IsEraOf};
ghost use Rattle.sdd_asks.specs.rules.tm.Due.{next};
ghost use Rattle.sdd_asks.specs.rules.tm.Fits.{fits, FitsSubmit};
ghost use Rattle.sdd_asks.specs.rules.tm.State.{ClassState};
ghost use Rattle.sdd_tm.specs.Represents.{Queues, Represents};

use crate::class_run::ClassRun;
use crate::parts::Parts;
use sdd_attempt::{
    Catalogue, ClassNo, Module, Msg, NoMemory, Outcome, Rec, Site, Standing, Table, TmNo, Ts, Txn,
    TxnNo,
};
use std::alloc::Global;
use std::marker::Model;

/// A transaction module.
#[derive(Drop)]
pub struct TxnModule<'a> {
    parts: Parts<'a>,
    live: bool,
}

impl<'a> Model for TxnModule<'a> {
    ghost use Rattle.sdd_asks.specs.rules.All.{Kept};
    ghost use Rattle.sdd_asks.specs.rules.tm.State.{State};

    ghost Value = { Kept State };

    ghost view = { λ m. record { live = m.live; value = m.parts } };
}

impl<'a> TxnModule<'a> {
    /// A module before its first message, where this catalogue, which has the first classes of the
    /// whole one, and its protocol table are in force. Costs a look at each class.
    pub fn new(
        alloc: Global,
        whole: &'a Catalogue,
        catalogue: &'a Catalogue,
        table: &'a Table,
        tm: TmNo,
    ) -> Result<TxnModule<'a>, NoMemory>
        requires { IsEraOf whole.now catalogue.now }
        ensures { IfOk result (λ new. (setting : Setting)
            → setting.catalogue ≡ whole.now → setting.site ≡ T tm
            → Represents new setting
            (Redeclared (record { catalogue = catalogue.now; table = table.now }) 0 ∷ [])) }
    {
        whole.law_is_sound();
        Ok(TxnModule {
            parts: Parts::new(alloc, whole, catalogue, table, tm)?,
            live: true,
        })
    }

    /// Whether an undeclared transaction keeps it from starting others. Takes no memory.
    pub fn is_on_hold(&self) -> bool
        ensures { result ≡ self.now.value.on_hold }
    {
        self.parts.is_on_hold()
    }

    /// Whether it hasn't answered a HOLD yet. Takes no memory.
    pub fn owes_held(&self) -> bool
        ensures { result ≡ self.now.value.owes_held }
    {
        self.parts.owes_held()
    }

    /// Its classes, ascending, lent. Takes no memory.
    pub fn classes(&self) -> &[ClassRun<'a>]
        ensures { result.now ≡ self.now.value.classes }
    {
        self.parts.classes()
    }

    /// How the module has a transaction. Costs a look at each transaction that waits; takes no
    /// memory.
    pub fn standing(&self, number: TxnNo) -> Standing
        requires { IsTrue self.now.live }
        ensures { result ≡ standing_among
            (map (λ (k : ClassState). k.line) self.now.value.classes) number.0 }
    {
        self.parts.standing(number)
    }

    /// Takes a new transaction, whose class by the list in force is given, and then makes each act
    /// that is due, one after the other, until none is: it returns what these send and record,
    /// after the record of the submission. Out of memory it takes nothing more.
    pub fn submit_in_class(
        &mut self,
        number: TxnNo,
        txn: &Txn,
        class: ClassNo,
    ) -> Result<Outcome, NoMemory>
        requires lives { IsTrue self.old.live }
        requires represents { (setting : Setting) × (bases : Bases) × (log : Log)
            × Represents self.old setting log × FitsSubmit setting bases log number.0 txn.now
            × (class.0 ≡ class_for (current_era setting log).catalogue txn.now) }
        ensures law { IfOk result (λ outcome. (setting : Setting) (bases : Bases) (log : Log)
            → Represents self.old setting log → FitsSubmit setting bases log number.0 txn.now
            → (recs : List Record) × (outcome.recs ≡ Submit number ∷ recs)
            × Does (next setting bases) (Submits number.0 txn.now ∷ log) recs outcome.out
            (Represents self.new setting)) }
        ensures lives_on { IfOk result (λ _. IsTrue self.new.live) }
        ensures dies { OnErr result (¬ IsTrue self.new.live) }
    {
        self.live = false;
        let mut draft = self.parts.draft();
        draft.record(Rec::Submit(number))?;
        let places = self.parts.submit(number, txn, class)?;
        self.parts.settle(places, &mut draft)?;
        self.parts.tell_held(&mut draft)?;
        self.live = true;
        Ok(draft.finish())
    }

    /// Takes a new transaction, whose class by the list in force is given, while the module is down:
    /// it waits in its class, and nothing else is done. It returns the record of the submission. Out
    /// of memory it takes nothing more.
    pub fn queue_in_class(
        &mut self,
        number: TxnNo,
        txn: &Txn,
        class: ClassNo,
    ) -> Result<Outcome, NoMemory>
        requires lives { IsTrue self.old.live }
        requires queues { (setting : Setting) × (bases : Bases) × (log : Log)
            × Queues self.old setting log × FitsSubmit setting bases log number.0 txn.now
            × (class.0 ≡ class_for (current_era setting log).catalogue txn.now) }
        ensures law { IfOk result (λ outcome. (setting : Setting) (bases : Bases) (log : Log)
            → Queues self.old setting log → FitsSubmit setting bases log number.0 txn.now
            → (outcome.recs ≡ Submit number ∷ []) × (outcome.out ≡ [])
            × Queues self.new setting (Submits number.0 txn.now ∷ log)) }
        ensures lives_on { IfOk result (λ _. IsTrue self.new.live) }
        ensures dies { OnErr result (¬ IsTrue self.new.live) }
    {
        self.live = false;
        let mut draft = self.parts.draft();
        draft.record(Rec::Submit(number))?;
        self.parts.submit(number, txn, class)?;
        self.live = true;
        Ok(draft.finish())
    }

    /// The module came up: makes each act that is due, one after the other, until none is, and
    /// returns what these send and record. Out of memory it takes nothing more.
    pub fn resume(&mut self) -> Result<Outcome, NoMemory>
        requires lives { IsTrue self.old.live }
        requires queues { (setting : Setting) × (bases : Bases) × (log : Log)
            × Queues self.old setting log × FitsSite setting bases log }
        ensures law { IfOk result (λ outcome. (setting : Setting) (bases : Bases) (log : Log)
            → Queues self.old setting log → FitsSite setting bases log
            → Does (next setting bases) log outcome.recs outcome.out (Represents self.new setting)) }
        ensures lives_on { IfOk result (λ _. IsTrue self.new.live) }
        ensures dies { OnErr result (¬ IsTrue self.new.live) }
    {
        self.live = false;
        let mut draft = self.parts.draft();
        let places = self.parts.every_place();
        self.parts.settle(places, &mut draft)?;
        self.parts.tell_held(&mut draft)?;
        self.live = true;
        Ok(draft.finish())
    }

    /// Lets time pass, whether the module is down or not. Takes no memory.
    pub fn tick(&mut self, n: u32)
        requires lives { IsTrue self.old.live }
        requires queues { (setting : Setting) × (bases : Bases) × (log : Log)
            × Queues self.old setting log × FitsSite setting bases log }
        ensures law { (setting : Setting) (log : Log)
            → Represents self.old setting log → Represents self.new setting (Ticked n ∷ log) }
        ensures queues { (setting : Setting) (log : Log)
            → Queues self.old setting log → Queues self.new setting (Ticked n ∷ log) }
        ensures lives_on { IsTrue self.new.live }
    {
        self.parts.tick(n);
    }

    /// The bound of its clock.
    pub fn bound(&self) -> Ts
        requires { IsTrue self.now.live }
        ensures { (setting : Setting) (log : Log)
            → Queues self.now setting log → result.0 ≡ bound_of (clock setting.site log) }
    {
        self.parts.bound()
    }

    /// Puts other classes of the whole catalogue in force, with their protocol table, at a time that
    /// pushes the clock. Takes no memory.
    pub fn redeclare(&mut self, catalogue: &'a Catalogue, table: &'a Table, t: Ts)
        requires lives { IsTrue self.old.live }
        requires early { t.0 / 64 < 2 ^ 57 }
        ensures law { (setting : Setting) (log : Log)
            → Represents self.old setting log → IsEraOf setting.catalogue catalogue.now
            → Represents self.new setting
            (Redeclared (record { catalogue = catalogue.now; table = table.now }) t.0 ∷ log) }
        ensures queues { (setting : Setting) (log : Log)
            → Queues self.old setting log → IsEraOf setting.catalogue catalogue.now
            → Queues self.new setting
            (Redeclared (record { catalogue = catalogue.now; table = table.now }) t.0 ∷ log) }
        ensures lives_on { IsTrue self.new.live }
    {
        self.parts.redeclare(catalogue, table, t);
    }
}

impl<'a> Module for TxnModule<'a> {
    ghost represents = { Represents };

    ghost next = { next };

    ghost fits = { fits };

    ghost is_live = { λ m. m.live };

    fn live(&self) -> bool {
        self.live
    }

    fn take(&mut self, from: Site, msg: Msg) -> Result<Outcome, NoMemory> {
        self.live = false;
        let mut draft = self.parts.draft();
        let places = self.parts.hand(from, msg)?;
        self.parts.settle(places, &mut draft)?;
        self.parts.tell_held(&mut draft)?;
        self.live = true;
        Ok(draft.finish())
    }
}
