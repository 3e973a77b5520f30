ghost use Rattle.std.specs.Prelude.{◌≡◌, ◌∷◌, [], List, filter_map, IfOk, OnErr, IsTrue};
ghost use Rattle.std.specs.List.{list_any};
ghost use Rattle.sdd_counts.specs.rules.All.{Bases, Does, Log, Rec as Record, Setting, Submits, U, bound_of};
ghost use Rattle.sdd_attempt.specs.history.declared.record.Rec.TheVariants.{Submit};
ghost use Rattle.sdd_counts.specs.rules.umod.Due.{next};
ghost use Rattle.sdd_counts.specs.rules.umod.Fits.{fits, FitsSubmit};
ghost use Rattle.sdd_counts.specs.rules.umod.Standing.{is_awaiting_helds, standing_in, unheld_by};
ghost use Rattle.sdd_umod.specs.Represents.{Represents};
ghost use Rattle.sdd_counts.specs.Counts.{is_kept_on_hold};
ghost use Rattle.sdd_counts.specs.rules.umod.Views.{turn};

use crate::parts::Parts;
use sdd_attempt::{
    Catalogue, Line, Module, Msg, NoMemory, Outcome, Rec, Site, Standing, TmNo, Ts, Txn, TxnNo,
};
use std::alloc::Global;
use std::marker::Model;

/// The module for undeclared transactions. Each act of a call costs a look at each transaction
/// module, of which there are few.
#[derive(Drop)]
pub struct UModule<'a> {
    parts: Parts<'a>,
    live: bool,
}

impl<'a> Model for UModule<'a> {
    ghost use Rattle.sdd_counts.specs.rules.All.{Kept};
    ghost use Rattle.sdd_counts.specs.rules.umod.State.{State};

    ghost Value = { Kept State };

    ghost view = { λ m. record { live = m.live; value = m.parts } };
}

impl<'a> UModule<'a> {
    /// A module before its first message. Costs a look at each transaction module.
    pub fn new(alloc: Global, catalogue: &'a Catalogue) -> Result<UModule<'a>, NoMemory>
        ensures { IfOk result (λ new. (setting : Setting)
            → setting.catalogue ≡ catalogue.now → setting.site ≡ U → Represents new setting []) }
    {
        catalogue.law_is_sound();
        Ok(UModule {
            parts: Parts::new(alloc, catalogue)?,
            live: true,
        })
    }

    /// The line of undeclared transactions, lent. Takes no memory.
    pub fn line(&self) -> &Line<'a>
        ensures { result.now ≡ self.now.value.line }
    {
        self.parts.line()
    }

    /// The bound of its clock.
    pub fn bound(&self) -> Ts
        ensures { result.0 ≡ bound_of self.now.value.clock }
    {
        self.parts.bound()
    }

    /// The timestamp of the last attempt that committed, 0 before the first.
    pub fn last_commit(&self) -> Ts
        ensures { result.0 ≡ self.now.value.served.ts }
    {
        self.parts.last_commit()
    }

    /// Whether a RELEASE for the last Commit is still to be sent. Costs a look at each transaction
    /// module; takes no memory.
    pub fn is_releasing(&self) -> bool
        ensures { result
            ≡ list_any (is_kept_on_hold self.now.value.served.commits) self.now.value.counts }
    {
        self.parts.is_releasing()
    }

    /// Whether the next transaction is being served and hasn't started. Costs a look at each
    /// transaction module; takes no memory.
    pub fn is_awaiting_helds(&self) -> bool
        ensures { result ≡ is_awaiting_helds self.now.value }
    {
        self.parts.is_awaiting_helds()
    }

    /// The transaction modules whose HELD for the next transaction is missing.
    pub fn missing_tms(&self) -> Result<Vec<TmNo>, NoMemory>
        ensures { IfOk result (λ tms. tms.items
            ≡ filter_map (unheld_by (turn self.now.value.served)) self.now.value.counts) }
    {
        self.parts.missing_tms()
    }

    /// How the module has a transaction. Costs a look at each transaction that waits and at each
    /// transaction module; takes no memory.
    pub fn standing(&self, number: TxnNo) -> Standing
        requires { IsTrue self.now.live }
        ensures { result ≡ standing_in self.now.value number.0 }
    {
        self.parts.standing(number)
    }

    /// Takes a new transaction, and then makes each act that is due, one after the other, until
    /// none is: it returns what these send and record, after the record of the submission. Out
    /// of memory it takes nothing more.
    pub fn submit(&mut self, number: TxnNo, txn: &Txn) -> Result<Outcome, NoMemory>
        requires lives { IsTrue self.old.live }
        requires represents { (setting : Setting) × (bases : Bases) × (log : Log)
            × Represents self.old setting log × FitsSubmit setting bases log number.0 txn.now }
        ensures law { IfOk result (λ outcome. (setting : Setting) (bases : Bases) (log : Log)
            → Represents self.old setting log → FitsSubmit setting bases log number.0 txn.now
            → (recs : List Record) × (outcome.recs ≡ Submit number ∷ recs)
            × Does (next setting bases) (Submits number.0 txn.now ∷ log) recs outcome.out
            (Represents self.new setting)) }
        ensures lives_on { IfOk result (λ _. IsTrue self.new.live) }
        ensures dies { OnErr result (¬ IsTrue self.new.live) }
    {
        self.live = false;
        let mut draft = self.parts.draft();
        draft.record(Rec::Submit(number))?;
        self.parts.submit(number, txn)?;
        self.parts.settle(&mut draft)?;
        self.live = true;
        Ok(draft.finish())
    }
}

impl<'a> Module for UModule<'a> {
    ghost represents = { Represents };

    ghost next = { next };

    ghost fits = { fits };

    ghost is_live = { λ m. m.live };

    fn live(&self) -> bool {
        self.live
    }

    fn take(&mut self, from: Site, msg: Msg) -> Result<Outcome, NoMemory> {
        self.live = false;
        let mut draft = self.parts.draft();
        self.parts.hand(from, msg)?;
        self.parts.settle(&mut draft)?;
        self.live = true;
        Ok(draft.finish())
    }
}
