ghost use Rattle.std.specs.Prelude.{◌≡◌, ◌≤◌, [], ℕ, List, length, true, IfOk, IsTrue};
ghost use Rattle.std.specs.Option.{option_copied};
ghost use Rattle.sdd_sites.specs.needs.All.{Call, D, Input, IsAwaited, IsEraOf, IsGood, IsLinkOf, IsModuleOf, IsSiteOf, Log, Msg, Represent, Site, T, U, all_links, calls_of, dated, handed, has_copy, history, is_down, is_here, local_of, marks, nth_era, number_of, quiet, redeclares, setting_of, takes_part};
ghost use Rattle.sdd_sites.specs.Beginnings.{IsBegun};
ghost use Rattle.sdd_sites.specs.Carries.{Carries};
ghost use Rattle.sdd_sites.specs.Modules.{AllRepresent, LivesD, LivesT, LivesU};
ghost use Rattle.sdd_sites.specs.Standings.{standing_of};
ghost use Rattle.sdd_world.specs.Represents.{Calm, IsSoundNetwork, Represents};

use crate::world::World;
use sdd_base::{ClassNo, Cond, DmNo, Event, Listed, NoMemory, Site, TmNo, Ts, TxnNo};
use sdd_catalog::Catalogue;
use sdd_history::History;
use sdd_lang::Txn;
use sdd_net::{Net, Spool};
use sdd_sites::{Copies, DataModule, Mail, Sites, Standing, Table, TxnModule, UModule};
use sdd_wire::Spelling;
use std::alloc::Global;

impl<'a> World<'a> {
    /// A world before its first event, of data modules that `DataModule::new` made for the whole
    /// catalogue, one for each D in order, each perhaps of rows of its own. The whole catalogue has
    /// the classes of all lists that are ever put in force; of these the catalogue beside it, with
    /// its protocol table, is in force first.
    ///
    /// # Errors
    ///
    /// Only where memory runs out.
    pub fn new(
        alloc: Global,
        whole: &'a Catalogue,
        catalogue: &'a Catalogue,
        table: &'a Table,
        txns: Listed<Txn>,
        modules: Vec<DataModule>,
    ) -> Result<World<'a>, NoMemory>
        requires { IsEraOf whole.now catalogue.now }
        ensures { IfOk result (λ world. (g : Input) → IsGood g → IsSoundNetwork g
            → IsBegun g whole.now catalogue.now table.now txns modules.items → Represents world g []) }
    {
        whole.law_is_sound();
        let net = Mail::new(alloc, whole.tms(), whole.dms())?;
        let spool = Spool::new(alloc, whole.tms(), whole.dms())?;
        let sites = Sites::new(alloc, whole, catalogue, table, modules)?;
        Ok(World {
            whole,
            catalogue,
            txns,
            given: Vec::new(alloc),
            history: History::new(alloc),
            marks: 0,
            sites,
            net,
            spool,
        })
    }

    /// The catalogue with the classes of all lists that are ever put in force, lent. Takes no memory.
    pub fn whole(&self) -> &'a Catalogue
        ensures { (g : Input) (log : Log) → Calm self.now g log → result.now ≡ g.catalogue }
    {
        self.whole
    }

    /// The catalogue with the classes in force, lent. Takes no memory.
    pub fn catalogue(&self) -> &'a Catalogue
        ensures { (g : Input) (log : Log) → Calm self.now g log
            → result.now ≡ (nth_era g (redeclares log)).catalogue }
    {
        self.catalogue
    }

    /// The transactions, lent. Takes no memory.
    pub fn transactions(&self) -> &[Txn]
        ensures { (g : Input) (log : Log) → Calm self.now g log → result.now ≡ g.txns }
    {
        self.txns.as_slice()
    }

    /// How many events were carried out. Takes no memory.
    pub fn events(&self) -> u32
        ensures { (g : Input) (log : Log) → Calm self.now g log → result ≡ marks log }
    {
        self.marks
    }

    /// The module of U, lent. Takes no memory.
    pub fn u_module(&self) -> &UModule<'a>
        ensures { (g : Input) (log : Log) → Represents self.now g log
            → LivesU result.now (setting_of g U) (local_of g U log) }
    {
        self.sites.u_module()
    }

    /// A transaction module, lent. Takes no memory.
    pub fn txn_module(&self, tm: TmNo) -> &TxnModule<'a>
        requires { (g : Input) × (log : Log) × IsSiteOf g (T tm) × Represents self.now g log }
        ensures { (g : Input) (log : Log) → IsSiteOf g (T tm) → Represents self.now g log
            → LivesT (takes_part (T tm) log) result.now (setting_of g (T tm)) (local_of g (T tm) log) }
    {
        self.sites.txn_module(tm)
    }

    /// A data module, lent. Takes no memory.
    pub fn data_module(&self, dm: DmNo) -> &DataModule
        requires { (g : Input) × (log : Log) × IsSiteOf g (D dm) × Represents self.now g log }
        ensures { (g : Input) (log : Log) → IsSiteOf g (D dm) → Represents self.now g log
            → LivesD result.now (setting_of g (D dm)) (local_of g (D dm) log) }
    {
        self.sites.data_module(dm)
    }

    /// The modules of all sites, lent. Takes no memory.
    pub fn sites(&self) -> &Sites<'a>
        ensures { (g : Input) (log : Log) → Calm self.now g log → AllRepresent result.now g log }
    {
        &self.sites
    }

    /// The network, lent. Takes no memory.
    pub fn mail(&self) -> &Mail
        ensures { (g : Input) (log : Log) → Calm self.now g log
            → Carries result.now g.catalogue.tms g.catalogue.dms (calls_of log) }
    {
        &self.net
    }

    /// Whether a module is down, a transaction module or a data module. Takes no memory.
    pub fn is_down(&self, at: Site) -> bool
        requires { (g : Input) × (log : Log) × IsModuleOf g at × Calm self.now g log }
        ensures { (g : Input) (log : Log) → IsModuleOf g at → Calm self.now g log
            → result ≡ is_down at log }
    {
        self.spool.is_down(at)
    }

    /// The messages from 1 to this number of a link are handed to the site where it ends. Takes no
    /// memory.
    pub fn count_handed(&self, from: Site, to: Site) -> u32
        requires { (g : Input) × (log : Log) × IsLinkOf g from to × Calm self.now g log }
        ensures { (g : Input) (log : Log) → IsLinkOf g from to → Calm self.now g log
            → result ≡ handed from to log }
    {
        let delivered = self.net.direction(from, to).receiver.count();
        match to {
            Site::U => delivered,
            _ => (delivered as usize).saturating_sub(self.spool.count_kept(to, from)) as u32,
        }
    }

    /// The net of spellings, lent. Takes no memory.
    pub fn net(&self) -> &Net<Spelling>
        requires { (g : Input) × (log : Log) × Represents self.now g log }
        ensures { (g : Input) (log : Log) → Represents self.now g log
            → Carries result.now g.catalogue.tms g.catalogue.dms (calls_of log) }
    {
        self.net.net()
    }

    /// Whether no packet is in flight and every message is acknowledged. Takes no memory.
    pub(crate) fn quiet(&self) -> bool
        requires { (tms : ℕ) × (dms : ℕ) × (calls : List (Call Msg)) × Carries self.now.net tms dms calls }
        ensures { (g : Input) (log : Log)
            → Carries self.now.net g.catalogue.tms g.catalogue.dms (calls_of log)
            → result ≡ quiet (all_links g) (calls_of log) }
    {
        self.net.quiet()
    }

    /// The records, each with the number of its event. Takes no memory.
    pub fn history(&self) -> &History
        ensures { (g : Input) (log : Log) → Calm self.now g log → result.now ≡ history log }
    {
        &self.history
    }

    /// The events that were given. Takes no memory.
    pub fn given(&self) -> &[Event]
        ensures { (g : Input) (log : Log) → Represents self.now g log → result.now ≡ g.events }
    {
        self.given.as_slice()
    }

    /// How a site has a transaction. Takes no memory.
    pub fn standing(&self, at: Site, number: TxnNo) -> Standing
        requires { (g : Input) × (log : Log) × IsSiteOf g at
            × Represents self.now g log }
        ensures { (g : Input) (log : Log) → IsSiteOf g at
            → Represents self.now g log
            → result ≡ standing_of at (setting_of g at) (local_of g at log) number.0 }
    {
        self.sites.standing(at, number)
    }

    /// The copies of a data module, lent: they hold what the changes that were applied there leave.
    /// Takes no memory.
    pub fn copies(&self, dm: DmNo) -> &Copies
        requires { (g : Input) × (log : Log) × IsSiteOf g (D dm)
            × Represents self.now g log }
        ensures live { (g : Input) (log : Log) → IsSiteOf g (D dm)
            → Represents self.now g log
            → IsTrue result.now.live }
        ensures represent { (g : Input) (log : Log) → IsSiteOf g (D dm)
            → Represents self.now g log
            → Represent result.now.value
            (dated (setting_of g (D dm)) (local_of g (D dm) log)) }
        ensures here { (g : Input) (log : Log) → IsSiteOf g (D dm)
            → Represents self.now g log
            → (f : ℕ) → has_copy g.catalogue (number_of (D dm)) f ≡ true
            → is_here result.now.value f ≡ true }
    {
        self.sites.copies(dm)
    }

    /// Of the READ of a class with this timestamp, where it waits at a data module, the first
    /// condition whose class hasn't passed its time. Takes no memory.
    pub fn waits(&self, dm: DmNo, class: ClassNo, ts: Ts) -> Option<&Cond>
        requires { (g : Input) × (log : Log) × IsSiteOf g (D dm)
            × Represents self.now g log }
        ensures { (g : Input) (log : Log) → IsSiteOf g (D dm)
            → Represents self.now g log
            → class.0 ≤ length g.catalogue.classes
            → IsAwaited (setting_of g (D dm)) (local_of g (D dm) log) class.0 ts.0
            (option_copied result) }
    {
        self.sites.waits(dm, class, ts)
    }
}
