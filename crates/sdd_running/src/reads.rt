ghost use Rattle.std.specs.Prelude.{◌≡◌, ◌<◌, ◌≤◌, ◌^◌, ◌++◌, ◌∷◌, [], nat_lt, not, suc, All, option_to_list, filter, filter_map, fold, length, map, option_map, position, unwrap_or, IfOk, OnOk};
ghost use Rattle.std.specs.Ordering.{nat_cmp};
ghost use Rattle.std.specs.BTreeSet.{insert_key};
ghost use Rattle.sdd_module.specs.All.{FitsTxn, ascending, class_no, fragments_in, is_read_at, numbers_to, reads_at, time_at, txn_no, uses_of};
ghost use Rattle.sdd_rules.specs.attempt.Acts.{AreThere, conditions_at, p2_of};
ghost use Rattle.sdd_rules.specs.All.{module_read, modules_of, read_to, use_there};
ghost use Rattle.sdd_running.specs.Reads.{IsDeclared, reads_of, reads_to};
ghost use Rattle.sdd_module.specs.history.declared.record.Rec.TheVariants as recs;

use crate::queued::Queued;
use sdd_exchange::Modules;
use sdd_module::{
    Catalogue, ClassNo, Conds, DmNo, Draft, FragNo, Frags, Msg, NoMemory, Parcel, Rec, Site, Table,
    Ts, Use, Uses, read_set, undeclared_conds, uses,
};
use std::alloc::Global;
use std::marker::Model;

/// An attempt that begins: what its READs have in common.
#[derive(Drop)]
pub(crate) struct Beginning<'a> {
    alloc: Global,
    catalogue: &'a Catalogue,
    /// None for an undeclared transaction.
    table: Option<&'a Table>,
    class: ClassNo,
    queued: &'a Queued,
    uses: Vec<Use>,
    /// The fragments of the uses, ascending.
    frags: Vec<FragNo>,
    own: Ts,
    p2: Ts,
}

impl<'a> Model for Beginning<'a> {
    ghost use Rattle.std.specs.Prelude.{[], option_map, unwrap_or};
    ghost use Rattle.sdd_running.specs.Reads as beginnings;

    ghost Value = { beginnings.Beginning };

    ghost view = { λ b.
        record {
          catalogue = b.catalogue.now;
          table = unwrap_or (option_map (λ t. t.now) b.table) [];
          class = b.class.0;
          queued = b.queued.now;
          uses = b.uses.items;
          own = b.own.0;
          p2 = b.p2.0;
        } };

    ghost invariant = { λ b.
        beginnings.IsBeginning b.catalogue.now (option_map (λ t. t.now) b.table) b.class.0 b.queued.now.tries b.uses.items b.frags.items };
}

impl<'a> Beginning<'a> {
    /// The next attempt of a transaction in the queue of the class.
    pub(crate) fn of(
        alloc: Global,
        catalogue: &'a Catalogue,
        table: Option<&'a Table>,
        class: ClassNo,
        queued: &'a Queued,
        own: Ts,
        p2: Ts,
    ) -> Result<Beginning<'a>, NoMemory>
        requires fits { FitsTxn catalogue.now queued.now.text }
        requires declared { IsDeclared catalogue.now class.0 (option_map (λ t. t.now) table) }
        requires tries { suc queued.now.tries < 2 ^ 64 }
        ensures { IfOk result (λ b.
            b ≡ record {
              catalogue = catalogue.now;
              table = unwrap_or (option_map (λ t. t.now) table.entry) [];
              class = class.0;
              queued = queued.now;
              uses = uses_of catalogue.now queued.now.text;
              own = own.0;
              p2 = p2.0;
            }) }
    {
        let uses = uses(alloc, catalogue, &queued.text)?;
        let frags = read_set(alloc, catalogue, &queued.text)?;
        Ok(Beginning {
            alloc,
            catalogue,
            table,
            class,
            queued,
            uses,
            frags,
            own,
            p2,
        })
    }

    /// Sends the READs, ascending by module, and gives the modules with what they read. Costs time
    /// and memory in the modules times what the conditions and the uses cost.
    pub(crate) fn send_reads(&self, draft: &mut Draft) -> Result<Modules, NoMemory>
        ensures draft { OnOk result (
            draft.new ≡ record draft.old { out = draft.old.out ++ reads_of self.now }) }
        ensures modules { IfOk result (λ modules.
            modules ≡ filter_map module_read (reads_of self.now)) }
    {
        let dms = self.modules()?;
        send_reads_to(self, &dms, draft)
    }

    /// The record of its Start.
    pub(crate) fn into_record(self) -> Rec
        ensures { result
            ≡ recs.Start (txn_no self.entry.queued.number) (suc self.entry.queued.tries)
            (class_no self.entry.class) (time_at self.entry.own)
            (p2_of self.entry.class self.entry.p2) self.entry.uses }
    {
        let queued = self.queued;
        Rec::Start {
            txn: queued.number,
            attempt: queued.tries + 1,
            class: self.class,
            ts: self.own,
            p2: if self.class.0 == 0 {
                None
            } else {
                Some(self.p2)
            },
            uses: Uses::from_vec(self.uses),
        }
    }

    /// The modules to which READs go: those at which it reads, and undeclared all.
    fn modules(&self) -> Result<Vec<DmNo>, NoMemory>
        ensures { IfOk result (λ dms.
            map (λ n. n.0) dms.items
            ≡ modules_of self.now.catalogue self.now.class (ascending (fragments_in self.now.uses))) }
    {
        if self.class.0 == 0 {
            return all_modules(self.alloc, self.catalogue);
        }
        modules_read(self.alloc, self.catalogue, self.class, &self.frags)
    }

    /// The READ to a module.
    fn read_to(&self, dm: DmNo) -> Result<(Site, Msg), NoMemory>
        ensures { IfOk result (λ read.
            read
            ≡ read_to self.now.catalogue self.now.table self.now.class self.now.queued self.now.uses
            self.now.own self.now.p2 dm.0) }
    {
        let queued = self.queued;
        let conds = self.conditions(dm)?;
        let uses = uses_at(self.alloc, self.catalogue, self.class, dm, &self.uses)?;
        Ok((
            Site::D(dm),
            Msg::Read {
                ts: self.own,
                class: self.class,
                txn: queued.number,
                attempt: queued.tries + 1,
                conds,
                uses: Uses::from_vec(uses),
            },
        ))
    }

    /// Its conditions at a module.
    fn conditions(&self, dm: DmNo) -> Result<Conds, NoMemory>
        ensures { IfOk result (λ conds.
            conds
            ≡ conditions_at self.now.catalogue self.now.table self.now.class
            (ascending (fragments_in self.now.uses)) self.now.own self.now.p2 dm.0) }
    {
        match self.table {
            None => Ok(Conds::from_vec(undeclared_conds(self.alloc, self.catalogue, self.own)?)),
            Some(table) => {
                let frags = self.frags.as_slice();
                let conds = table.condition(
                    self.catalogue,
                    self.class,
                    dm,
                    frags,
                    self.own,
                    self.p2,
                )?;
                Ok(Conds::from_vec(conds))
            }
        }
    }
}

fn send_reads_to(
    beginning: &Beginning,
    dms: &[DmNo],
    draft: &mut Draft,
) -> Result<Modules, NoMemory>
    ensures draft { OnOk result (
        draft.new
        ≡ record draft.old {
          out = draft.old.out ++ reads_to beginning.now (map (λ n. n.0) dms.now);
        }) }
    ensures modules { IfOk result (λ modules.
        modules ≡ filter_map module_read (reads_to beginning.now (map (λ n. n.0) dms.now))) }
{
    let mut modules = Modules::with_room(beginning.alloc, dms.len())?;
    for dm in dms {
        send_read(beginning, *dm, &mut modules, draft)?;
    }
    Ok(modules)
}

/// Sends the READ to a module, and adds the module.
fn send_read(
    beginning: &Beginning,
    dm: DmNo,
    modules: &mut Modules,
    draft: &mut Draft,
) -> Result<(), NoMemory>
    ensures draft { OnOk result (
        draft.new
        ≡ record draft.old { out = draft.old.out ++ reads_to beginning.now (dm.0 ∷ []) }) }
    ensures modules { OnOk result (
        modules.new
        ≡ modules.old ++ filter_map module_read (reads_to beginning.now (dm.0 ∷ []))) }
{
    let read = beginning.read_to(dm)?;
    modules.add(beginning.alloc, &read)?;
    draft.send(read.0, read.1)
}

/// All data modules.
fn all_modules(alloc: Global, catalogue: &Catalogue) -> Result<Vec<DmNo>, NoMemory>
    ensures { IfOk result (λ dms. map (λ n. n.0) dms.items ≡ numbers_to catalogue.now.dms) }
{
    catalogue.law_is_sound();
    let mut dms = Vec::with_capacity(alloc, catalogue.dms() as usize)?;
    for number in 1..catalogue.dms() + 1 {
        dms.push(DmNo(number as u8))?;
    }
    Ok(dms)
}

/// The modules at which the class reads the fragments, ascending.
fn modules_read(
    alloc: Global,
    catalogue: &Catalogue,
    class: ClassNo,
    frags: &[FragNo],
) -> Result<Vec<DmNo>, NoMemory>
    requires class { class.0 ≤ length catalogue.now.classes }
    requires there { AreThere catalogue.now frags.now }
    ensures { IfOk result (λ dms.
        map (λ n. n.0) dms.items
        ≡ ascending (filter_map (reads_at catalogue.now class.0) (map (λ f. f.0) frags.now))) }
{
    let mut dms = Vec::with_capacity(alloc, frags.len().min(catalogue.dms() as usize))?;
    for frag in frags {
        add_module(&mut dms, catalogue.reads_at(class, *frag))?;
    }
    Ok(dms)
}

/// Adds a module, where there is one, to modules that ascend.
fn add_module(dms: &mut Vec<DmNo>, dm: Option<DmNo>) -> Result<(), NoMemory>
    ensures { OnOk result (
        map (λ n. n.0) dms.new.items
        ≡ fold (λ ks k. insert_key nat_cmp ks k) (map (λ n. n.0) dms.old.items)
        (option_to_list (option_map (λ n. n.0) dm))) }
{
    match dm {
        None => Ok(()),
        Some(dm) => put_module(dms, dm),
    }
}

/// Puts a module at its place among modules that ascend, unless it is there. They are so few that
/// each is looked at.
fn put_module(dms: &mut Vec<DmNo>, dm: DmNo) -> Result<(), NoMemory>
    ensures { OnOk result (
        map (λ n. n.0) dms.new.items
        ≡ insert_key nat_cmp (map (λ n. n.0) dms.old.items) dm.0) }
{
    match place_of(dms, dm) {
        None => dms.push(dm)?,
        Some(place) => {
            if dms[place].0 != dm.0 {
                dms.insert(place, dm)?;
            }
        }
    }
    Ok(())
}

/// The first place at which no lower module stands.
fn place_of(dms: &[DmNo], dm: DmNo) -> Option<usize>
    ensures { result ≡ position (λ n. not (nat_lt n.0 dm.0)) dms.now }
{
    dms.iter().position(|other| other.0 >= dm.0)
}

/// Of the uses those with a fragment that the class reads at the module, each with these
/// fragments.
fn uses_at(
    alloc: Global,
    catalogue: &Catalogue,
    class: ClassNo,
    dm: DmNo,
    uses: &[Use],
) -> Result<Vec<Use>, NoMemory>
    requires class { class.0 ≤ length catalogue.now.classes }
    requires there { All (λ u. AreThere catalogue.now u.frags) uses.now }
    ensures { IfOk result (λ found.
        found.items ≡ filter_map (use_there catalogue.now class.0 dm.0) uses.now) }
{
    let mut found = Vec::with_capacity(alloc, uses.len())?;
    for one in uses {
        add_use(alloc, catalogue, class, dm, one, &mut found)?;
    }
    Ok(found)
}

/// Adds the use, where it has such a fragment.
fn add_use(
    alloc: Global,
    catalogue: &Catalogue,
    class: ClassNo,
    dm: DmNo,
    one: &Use,
    found: &mut Vec<Use>,
) -> Result<(), NoMemory>
    requires class { class.0 ≤ length catalogue.now.classes }
    requires there { AreThere catalogue.now one.now.frags }
    ensures { OnOk result (
        found.new.items
        ≡ found.old.items ++ filter_map (use_there catalogue.now class.0 dm.0) (one.now ∷ [])) }
{
    let frags = read_at(alloc, catalogue, class, dm, one.frags.as_slice())?;
    if frags.is_empty() {
        return Ok(());
    }
    found.push(with_frags(one, frags)?)?;
    Ok(())
}

/// The use with these fragments.
fn with_frags(one: &Use, frags: Vec<FragNo>) -> Result<Use, NoMemory>
    ensures { IfOk result (λ made. made ≡ record one.now { frags = frags.items }) }
{
    Ok(Use {
        number: one.number,
        rel: one.rel,
        frags: Frags::from_vec(frags),
        restrictions: one.restrictions.copy()?,
    })
}

/// Of the fragments those that the class reads at the module.
fn read_at(
    alloc: Global,
    catalogue: &Catalogue,
    class: ClassNo,
    dm: DmNo,
    frags: &[FragNo],
) -> Result<Vec<FragNo>, NoMemory>
    requires class { class.0 ≤ length catalogue.now.classes }
    requires there { AreThere catalogue.now frags.now }
    ensures { IfOk result (λ found.
        found.items ≡ filter (λ f. is_read_at catalogue.now class.0 dm.0 f.0) frags.now) }
{
    let mut found = Vec::new(alloc);
    for frag in frags {
        if catalogue.reads_at(class, *frag) == Some(dm) {
            found.push(*frag)?;
        }
    }
    Ok(found)
}
