ghost use Rattle.std.specs.Prelude.{◌≡◌, ◌≢◌, ◌≤◌, ◌∷◌, [], ℕ, Bool, List, length, false, true, IsTrue, IfOk, slice_get};
ghost use Rattle.std.specs.Option.{option_copied};
ghost use Rattle.sdd_needs.specs.All.{Bases, D, FitsEra, FitsSite, Handed, Input, IsAwaited, IsEraOf, Log, Rec, Redeclared, Setting, Site, Submits, T, Ticked, Txn as Transaction, U, bound_of, class_for, clock, current_era, dated, fits, fits_submit, fits_tick, greatest_bound, has_copy, is_here, number_of, same_site};
ghost use Rattle.sdd_needs.specs.history.declared.record.Rec.TheVariants.{Submit as Submission};
ghost use Rattle.sdd_needs.specs.site_module.SiteLog.{Does};
ghost use Rattle.sdd_needs.specs.site_module.SiteLog as site;
ghost use Rattle.sdd_needs.specs.copy.Copies as copies;
ghost use Rattle.sdd_needs.specs.tm.Due as tm;
ghost use Rattle.sdd_needs.specs.tm.Fits as tm_fits;
ghost use Rattle.sdd_tm.specs.Represents as tm_represents;
ghost use Rattle.sdd_sites.specs.AtSites.{Lives, At, IsClassAt};
ghost use Rattle.sdd_sites.specs.Beginnings.{IsBegun};
ghost use Rattle.sdd_sites.specs.DueAt.{next_of};
ghost use Rattle.sdd_sites.specs.Modules.{AllRepresent, AreRedeclared, LivesD, LivesT, LivesU, Represent, StayAtOthers};
ghost use Rattle.sdd_sites.specs.Standings.{standing_at_t, standing_of};

use crate::making::txn_modules;
use sdd_attempt::Standing;
use sdd_base::{ClassNo, Cond, DmNo, NoMemory, Site, TmNo, Ts, TxnNo};
use sdd_catalog::Catalogue;
use sdd_copy::Copies;
use sdd_dm::DataModule;
use sdd_lang::Txn;
use sdd_module::Module;
use sdd_protocol::Table;
use sdd_tm::TxnModule;
use sdd_umod::UModule;
use sdd_wire::{Msg, Outcome};
use std::alloc::Global;

/// One of the modules takes a message.
fn take_in<M: Module>(
    modules: &mut Vec<M>,
    at: usize,
    from: Site,
    msg: Msg,
) -> Result<Outcome, NoMemory>
    requires { (setting : Setting) × (bases : Bases) × (log : site.Log)
        × At (Lives M.is_live M.represents) (slice_get modules.old.items at) setting log
        × M.fits setting bases log from msg }
    ensures law { IfOk result (λ outcome. (setting : Setting) (bases : Bases) (log : site.Log)
        → At (Lives M.is_live M.represents) (slice_get modules.old.items at) setting log
        → M.fits setting bases log from msg
        → Does (M.next setting bases) (Handed from msg ∷ log) outcome.recs outcome.out
        (At (Lives M.is_live M.represents) (slice_get modules.new.items at) setting)) }
    ensures others { (k : ℕ) → k ≢ at
        → slice_get modules.new.items k ≡ slice_get modules.old.items k }
{
    let module = &mut modules[at];
    module.take(from, msg)
}

/// A transaction is submitted to one of the modules.
fn submit_in(
    modules: &mut Vec<TxnModule<'_>>,
    at: usize,
    number: TxnNo,
    txn: &Txn,
    class: ClassNo,
) -> Result<Outcome, NoMemory>
    requires { (setting : Setting) × (bases : Bases) × (log : site.Log)
        × At (Lives (λ t. t.live) tm_represents.Represents) (slice_get modules.old.items at) setting log
        × tm_fits.FitsSubmit setting bases log number.0 txn.now
        × (class.0 ≡ class_for (current_era setting log).catalogue txn.now) }
    ensures law { IfOk result (λ outcome. (setting : Setting) (bases : Bases) (log : site.Log)
        → At (Lives (λ t. t.live) tm_represents.Represents) (slice_get modules.old.items at) setting log
        → tm_fits.FitsSubmit setting bases log number.0 txn.now
        → (recs : List Rec) × (outcome.recs ≡ Submission number ∷ recs)
        × Does (tm.next setting bases) (Submits number.0 txn.now ∷ log) recs outcome.out
        (At (Lives (λ t. t.live) tm_represents.Represents) (slice_get modules.new.items at) setting)) }
    ensures others { (k : ℕ) → k ≢ at
        → slice_get modules.new.items k ≡ slice_get modules.old.items k }
{
    let module = &mut modules[at];
    module.submit_in_class(number, txn, class)
}

/// A transaction is submitted to one of the modules, which is down: it waits in its class.
fn queue_in(
    modules: &mut Vec<TxnModule<'_>>,
    at: usize,
    number: TxnNo,
    txn: &Txn,
    class: ClassNo,
) -> Result<Outcome, NoMemory>
    requires { (setting : Setting) × (bases : Bases) × (log : site.Log)
        × At (LivesT false) (slice_get modules.old.items at) setting log
        × tm_fits.FitsSubmit setting bases log number.0 txn.now
        × (class.0 ≡ class_for (current_era setting log).catalogue txn.now) }
    ensures law { IfOk result (λ outcome. (setting : Setting) (bases : Bases) (log : site.Log)
        → At (LivesT false) (slice_get modules.old.items at) setting log
        → tm_fits.FitsSubmit setting bases log number.0 txn.now
        → (outcome.recs ≡ Submission number ∷ []) × (outcome.out ≡ [])
        × At (LivesT false) (slice_get modules.new.items at) setting (Submits number.0 txn.now ∷ log)) }
    ensures others { (k : ℕ) → k ≢ at
        → slice_get modules.new.items k ≡ slice_get modules.old.items k }
{
    let module = &mut modules[at];
    module.queue_in_class(number, txn, class)
}

/// How one of the modules has a transaction.
fn standing_in(modules: &Vec<TxnModule<'_>>, at: usize, number: TxnNo) -> Standing
    requires { (part : Bool) × (setting : Setting) × (log : site.Log)
        × At (LivesT part) (slice_get modules.now.items at) setting log }
    ensures { (part : Bool) (setting : Setting) (log : site.Log)
        → At (LivesT part) (slice_get modules.now.items at) setting log
        → result ≡ standing_at_t setting log number.0 }
{
    let module = &modules[at];
    module.standing(number)
}

/// The modules of all sites: that of U, the transaction modules and the data modules.
#[derive(Drop)]
pub struct Sites<'a> {
    u: UModule<'a>,
    tms: Vec<TxnModule<'a>>,
    dms: Vec<DataModule>,
}

impl<'a> Sites<'a> {
    /// The modules of all sites before the first event. The data modules are given, one for each D
    /// of the whole catalogue in order, as `DataModule::new` made it, each perhaps of rows of its
    /// own; these classes of the whole catalogue and their protocol table are in force first. Costs
    /// the number of classes and of transaction modules; its one error is out of memory.
    pub fn new(
        alloc: Global,
        whole: &'a Catalogue,
        catalogue: &'a Catalogue,
        table: &'a Table,
        modules: Vec<DataModule>,
    ) -> Result<Sites<'a>, NoMemory>
        requires { IsEraOf whole.now catalogue.now }
        ensures { IfOk result (λ sites. (g : Input) (txns : List Transaction)
            → IsBegun g whole.now catalogue.now table.now txns modules.items → AllRepresent sites g []) }
    {
        let tms = txn_modules(alloc, whole, catalogue, table)?;
        let u = UModule::new(alloc, whole)?;
        Ok(Sites {
            u,
            tms,
            dms: modules,
        })
    }

    /// Hands a message to the module of a site, which then does all that is due.
    pub fn take(&mut self, at: Site, from: Site, msg: Msg) -> Result<Outcome, NoMemory>
        requires { (setting : Setting) × (bases : Bases) × (log : site.Log)
            × Represent self.old true at setting log × fits at setting bases log from msg }
        ensures law { IfOk result (λ outcome. (setting : Setting) (bases : Bases) (log : site.Log)
            → Represent self.old true at setting log → fits at setting bases log from msg
            → Does (next_of at setting bases) (Handed from msg ∷ log) outcome.recs outcome.out
            (Represent self.new true at setting)) }
        ensures others { IfOk result (λ _. StayAtOthers self.old self.new at) }
    {
        match at {
            Site::U => self.u.take(from, msg),
            Site::T(n) => take_in(&mut self.tms, n.0 as usize - 1, from, msg),
            Site::D(n) => take_in(&mut self.dms, n.0 as usize - 1, from, msg),
        }
    }

    /// Gives a transaction of a class to the module of a site, which records it and then does all
    /// that is due.
    pub fn submit(
        &mut self,
        at: Site,
        class: ClassNo,
        number: TxnNo,
        txn: &Txn,
    ) -> Result<Outcome, NoMemory>
        requires { (setting : Setting) × (bases : Bases) × (log : site.Log)
            × Represent self.old true at setting log × fits_submit at setting bases log number.0 txn.now
            × IsClassAt at setting log class.0 txn.now }
        ensures law { IfOk result (λ outcome. (setting : Setting) (bases : Bases) (log : site.Log)
            → Represent self.old true at setting log → fits_submit at setting bases log number.0 txn.now
            → (recs : List Rec) × (outcome.recs ≡ Submission number ∷ recs)
            × Does (next_of at setting bases) (Submits number.0 txn.now ∷ log) recs outcome.out
            (Represent self.new true at setting)) }
        ensures others { IfOk result (λ _. StayAtOthers self.old self.new at) }
    {
        match at {
            Site::U => self.u.submit(number, txn),
            Site::T(n) => submit_in(&mut self.tms, n.0 as usize - 1, number, txn, class),
            Site::D(_) => unreachable!(),
        }
    }

    /// Gives a transaction of a class to the module of a site that is down, which records it: it
    /// waits in its class. U is never down.
    pub fn queue(
        &mut self,
        at: Site,
        class: ClassNo,
        number: TxnNo,
        txn: &Txn,
    ) -> Result<Outcome, NoMemory>
        requires { (setting : Setting) × (bases : Bases) × (log : site.Log)
            × (same_site at U ≡ false) × Represent self.old false at setting log
            × fits_submit at setting bases log number.0 txn.now
            × IsClassAt at setting log class.0 txn.now }
        ensures law { IfOk result (λ outcome. (setting : Setting) (bases : Bases) (log : site.Log)
            → Represent self.old false at setting log
            → fits_submit at setting bases log number.0 txn.now
            → (outcome.recs ≡ Submission number ∷ []) × (outcome.out ≡ [])
            × Represent self.new false at setting (Submits number.0 txn.now ∷ log)) }
        ensures others { IfOk result (λ _. StayAtOthers self.old self.new at) }
    {
        match at {
            Site::T(n) => queue_in(&mut self.tms, n.0 as usize - 1, number, txn, class),
            _ => unreachable!(),
        }
    }

    /// A transaction module that came up does all that is due.
    pub fn resume(&mut self, tm: TmNo) -> Result<Outcome, NoMemory>
        requires { (setting : Setting) × (bases : Bases) × (log : site.Log)
            × Represent self.old false (T tm) setting log × FitsSite setting bases log }
        ensures law { IfOk result (λ outcome. (setting : Setting) (bases : Bases) (log : site.Log)
            → Represent self.old false (T tm) setting log → FitsSite setting bases log
            → Does (next_of (T tm) setting bases) log outcome.recs outcome.out
            (Represent self.new true (T tm) setting)) }
        ensures others { IfOk result (λ _. StayAtOthers self.old self.new (T tm)) }
    {
        let module = &mut self.tms[tm.0 as usize - 1];
        module.resume()
    }

    /// Lets the clock of a transaction module go on. Takes no memory.
    pub fn tick(&mut self, tm: TmNo, n: u32)
        requires { (part : Bool) × (setting : Setting) × (log : site.Log)
            × Represent self.old part (T tm) setting log × fits_tick (T tm) setting log n }
        ensures law { (part : Bool) (setting : Setting) (log : site.Log)
            → Represent self.old part (T tm) setting log → fits_tick (T tm) setting log n
            → Represent self.new part (T tm) setting (Ticked n ∷ log) }
        ensures others { StayAtOthers self.old self.new (T tm) }
    {
        let module = &mut self.tms[tm.0 as usize - 1];
        module.tick(n);
    }

    /// The bound of a transaction module's clock.
    fn bound(&self, tm: TmNo) -> Ts
        requires { (part : Bool) × (setting : Setting) × (log : site.Log)
            × Represent self.now part (T tm) setting log }
        ensures { (part : Bool) (setting : Setting) (log : site.Log)
            → Represent self.now part (T tm) setting log
            → result.0 ≡ bound_of (clock setting.site log) }
    {
        let module = &self.tms[tm.0 as usize - 1];
        module.bound()
    }

    /// Puts other classes of the whole catalogue in force at a transaction module, at a time that
    /// pushes its clock.
    fn redeclare(&mut self, tm: TmNo, catalogue: &'a Catalogue, table: &'a Table, t: Ts)
        requires { (part : Bool) × (setting : Setting) × (log : site.Log)
            × Represent self.old part (T tm) setting log
            × FitsEra setting.catalogue (record { catalogue = catalogue.now; table = table.now }) t.0 }
        ensures law { (part : Bool) (setting : Setting) (log : site.Log)
            → Represent self.old part (T tm) setting log
            → FitsEra setting.catalogue (record { catalogue = catalogue.now; table = table.now }) t.0
            → Represent self.new part (T tm) setting
            (Redeclared (record { catalogue = catalogue.now; table = table.now }) t.0 ∷ log) }
        ensures others { StayAtOthers self.old self.new (T tm) }
    {
        let module = &mut self.tms[tm.0 as usize - 1];
        module.redeclare(catalogue, table, t);
    }

    /// The greatest bound of the clocks of all transaction modules, of which a catalogue has the
    /// number. Takes no memory.
    pub fn greatest_bound(&self, catalogue: &Catalogue) -> Ts
        requires { (g : Input) × (log : Log) × (catalogue.now.tms ≡ g.catalogue.tms)
            × AllRepresent self.now g log }
        ensures { (g : Input) (log : Log) → catalogue.now.tms ≡ g.catalogue.tms
            → AllRepresent self.now g log → result.0 ≡ greatest_bound g log }
    {
        catalogue.law_is_sound();
        let mut greatest: u64 = 0;
        for number in 1..catalogue.tms() + 1 {
            greatest = greatest.max(self.bound(TmNo(number as u8)).0);
        }
        Ts(greatest)
    }

    /// Puts other classes of the whole catalogue in force at all transaction modules, at a time that
    /// pushes their clocks. Takes no memory.
    pub fn put_in_force(&mut self, catalogue: &'a Catalogue, table: &'a Table, t: Ts)
        requires { (g : Input) × (log : Log) × AllRepresent self.old g log
            × FitsEra g.catalogue (record { catalogue = catalogue.now; table = table.now }) t.0 }
        ensures { (g : Input) (log : Log) → AllRepresent self.old g log
            → FitsEra g.catalogue (record { catalogue = catalogue.now; table = table.now }) t.0
            → AreRedeclared self.new g log (record { catalogue = catalogue.now; table = table.now }) t.0 }
    {
        catalogue.law_is_sound();
        for number in 1..catalogue.tms() + 1 {
            self.redeclare(TmNo(number as u8), catalogue, table, t);
        }
    }

    /// The module of U, lent. Takes no memory.
    pub fn u_module(&self) -> &UModule<'a>
        ensures { (setting : Setting) (log : site.Log) → Represent self.now true U setting log
            → LivesU result.now setting log }
    {
        &self.u
    }

    /// A transaction module, lent. Takes no memory.
    pub fn txn_module(&self, tm: TmNo) -> &TxnModule<'a>
        requires { (part : Bool) × (setting : Setting) × (log : site.Log)
            × Represent self.now part (T tm) setting log }
        ensures { (part : Bool) (setting : Setting) (log : site.Log)
            → Represent self.now part (T tm) setting log → LivesT part result.now setting log }
    {
        &self.tms[tm.0 as usize - 1]
    }

    /// A data module, lent. Takes no memory.
    pub fn data_module(&self, dm: DmNo) -> &DataModule
        requires { (setting : Setting) × (log : site.Log) × Represent self.now true (D dm) setting log }
        ensures { (setting : Setting) (log : site.Log) → Represent self.now true (D dm) setting log
            → LivesD result.now setting log }
    {
        &self.dms[dm.0 as usize - 1]
    }

    /// How the module of a site has a transaction. Takes no memory.
    pub fn standing(&self, at: Site, number: TxnNo) -> Standing
        requires { (part : Bool) × (setting : Setting) × (log : site.Log)
            × Represent self.now part at setting log }
        ensures { (part : Bool) (setting : Setting) (log : site.Log)
            → Represent self.now part at setting log
            → result ≡ standing_of at setting log number.0 }
    {
        match at {
            Site::U => self.u.standing(number),
            Site::T(n) => standing_in(&self.tms, n.0 as usize - 1, number),
            Site::D(_) => Standing::Absent,
        }
    }

    /// The copies of a data module, lent: they hold what the changes in its log leave.
    /// Takes no memory.
    pub fn copies(&self, dm: DmNo) -> &Copies
        requires { (setting : Setting) × (log : site.Log) × Represent self.now true (D dm) setting log }
        ensures live { (setting : Setting) (log : site.Log) → Represent self.now true (D dm) setting log
            → IsTrue result.now.live }
        ensures represent { (setting : Setting) (log : site.Log) → Represent self.now true (D dm) setting log
            → copies.Represent result.now.value (dated setting log) }
        ensures here { (setting : Setting) (log : site.Log) → Represent self.now true (D dm) setting log
            → (f : ℕ) → has_copy setting.catalogue (number_of setting.site) f ≡ true
            → is_here result.now.value f ≡ true }
    {
        let module = &self.dms[dm.0 as usize - 1];
        module.copies()
    }

    /// Of the READ of a class with this timestamp, where it waits at a data module, the first
    /// condition whose class hasn't passed its time. Takes no memory.
    pub fn waits(&self, dm: DmNo, class: ClassNo, ts: Ts) -> Option<&Cond>
        requires { (setting : Setting) × (log : site.Log) × Represent self.now true (D dm) setting log }
        ensures { (setting : Setting) (log : site.Log) → Represent self.now true (D dm) setting log
            → class.0 ≤ length setting.catalogue.classes
            → IsAwaited setting log class.0 ts.0 (option_copied result) }
    {
        let module = &self.dms[dm.0 as usize - 1];
        module.waits(class, ts)
    }
}
