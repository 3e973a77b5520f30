ghost use Rattle.std.specs.Prelude.{◌≡◌, ◌++◌, ◌∷◌, [], filter_map, length, map, option_map, IfOk, OnOk};
ghost use Rattle.sdd_module.specs.All.{is_empty};
ghost use Rattle.sdd_rules.specs.All.{module_read, without};
ghost use Rattle.sdd_rules.specs.attempt.Standings.{lower, lowest};
ghost use Rattle.sdd_exchange.specs.Modules.{dm_with_use, module_of, with_use};

use sdd_module::{DmNo, Listed, Msg, NoMemory, Site, Use};
use std::alloc::Global;
use std::marker::Model;

/// Numbers of uses.
pub(crate) type UseNos = Listed<u32>;

/// Data modules, which contracts see as their numbers.
#[derive(Drop)]
pub(crate) struct DmNos {
    items: Vec<DmNo>,
}

impl Model for DmNos {
    ghost use Rattle.std.specs.Prelude.{ℕ, List, map};

    ghost Value = { List ℕ };

    ghost view = { λ d. map (λ n. n.0) d.items.items };
}

impl DmNos {
    pub(crate) fn from_vec(items: Vec<DmNo>) -> DmNos
        ensures { result ≡ map (λ n. n.0) items.items }
    {
        DmNos { items }
    }

    pub(crate) fn as_slice(&self) -> &[DmNo]
        ensures { map (λ n. n.0) result.now ≡ self.now }
    {
        self.items.as_slice()
    }

    pub(crate) fn len(&self) -> usize
        ensures { result ≡ length self.now }
    {
        self.items.len()
    }

    pub(crate) fn is_empty(&self) -> bool
        ensures { result ≡ is_empty self.now }
    {
        self.items.is_empty()
    }

    /// Takes a module away.
    pub(crate) fn remove(&mut self, dm: DmNo)
        ensures { self.new ≡ without self.old dm.0 }
    {
        self.items.retain(|other| other.0 != dm.0);
    }

    /// The module with the lowest number.
    pub(crate) fn lowest(&self) -> Option<DmNo>
        ensures { option_map (λ n. n.0) result ≡ lowest self.now }
    {
        lowest_of(self.as_slice())
    }
}

fn lowest_of(dms: &[DmNo]) -> Option<DmNo>
    ensures { option_map (λ n. n.0) result ≡ lowest (map (λ n. n.0) dms.now) }
{
    let mut lowest = None;
    for dm in dms {
        lowest = lower(lowest, *dm);
    }
    lowest
}

/// The lower one of two modules.
fn lower(lowest: Option<DmNo>, dm: DmNo) -> Option<DmNo>
    ensures { option_map (λ n. n.0) result ≡ lower (option_map (λ n. n.0) lowest) dm.0 }
{
    match lowest {
        None => Some(dm),
        Some(other) => Some(DmNo(other.0.min(dm.0))),
    }
}

/// The modules of an attempt, each with the numbers of the uses that are read there.
#[derive(Drop)]
pub struct Modules {
    items: Vec<(DmNo, UseNos)>,
}

impl Model for Modules {
    ghost use Rattle.std.specs.Prelude.{ℕ, List, map};
    ghost use Rattle.sdd_exchange.specs.Modules.{numbered};

    ghost Value = { List (ℕ × List ℕ) };

    ghost view = { λ m. map numbered m.items.items };
}

impl Modules {
    /// No module, with room for so many.
    pub fn with_room(alloc: Global, modules: usize) -> Result<Modules, NoMemory>
        ensures { IfOk result (λ modules. modules ≡ []) }
    {
        Ok(Modules {
            items: Vec::with_capacity(alloc, modules)?,
        })
    }

    /// Adds the module of a message, where that is a READ.
    pub fn add(&mut self, alloc: Global, read: &(Site, Msg)) -> Result<(), NoMemory>
        ensures { OnOk result (
            self.new ≡ self.old ++ filter_map module_read (read.now ∷ [])) }
    {
        add_module(alloc, &mut self.items, read)
    }

    pub(crate) fn is_empty(&self) -> bool
        ensures { result ≡ is_empty self.now }
    {
        self.items.is_empty()
    }

    /// All of them.
    #[tactic(auto, using(crate::proofs::Reading::all_numbered))]
    pub(crate) fn all(&self, alloc: Global) -> Result<DmNos, NoMemory>
        ensures { IfOk result (λ dms. dms ≡ map (λ m. m.0) self.now) }
    {
        Ok(DmNos::from_vec(all_of(alloc, &self.items)?))
    }

    /// Those at which a use is read.
    #[tactic(auto, using(crate::proofs::Reading::modules_with_use))]
    pub(crate) fn with_use(&self, alloc: Global, use_no: u32) -> Result<DmNos, NoMemory>
        ensures { IfOk result (λ dms. dms ≡ with_use self.now use_no) }
    {
        Ok(DmNos::from_vec(reading_at(alloc, &self.items, use_no)?))
    }
}

fn all_of(alloc: Global, modules: &[(DmNo, UseNos)]) -> Result<Vec<DmNo>, NoMemory>
    ensures { IfOk result (λ dms. dms.items ≡ map (λ m. m.0) modules.now) }
{
    Ok(modules.iter().map(|part| part.0).collect(alloc)?)
}

/// The modules at which the use is read.
fn reading_at(alloc: Global, modules: &[(DmNo, UseNos)], use_no: u32) -> Result<Vec<DmNo>, NoMemory>
    ensures { IfOk result (λ dms. dms.items ≡ filter_map (dm_with_use use_no) modules.now) }
{
    Ok(
        modules
            .iter()
            .filter_map(|part| dm_with_use(part, use_no))
            .collect(alloc)?,
    )
}

/// The module, where the use is read there.
fn dm_with_use(part: &(DmNo, UseNos), use_no: u32) -> Option<DmNo>
    ensures { result ≡ dm_with_use use_no part.now }
{
    if part.1.as_slice().contains(&use_no) {
        Some(part.0)
    } else {
        None
    }
}

fn add_module(
    alloc: Global,
    modules: &mut Vec<(DmNo, UseNos)>,
    read: &(Site, Msg),
) -> Result<(), NoMemory>
    ensures { OnOk result (
        modules.new.items ≡ modules.old.items ++ filter_map module_of (read.now ∷ [])) }
{
    match module_of(alloc, read)? {
        None => Ok(()),
        Some(module) => {
            modules.push(module)?;
            Ok(())
        }
    }
}

fn module_of(alloc: Global, read: &(Site, Msg)) -> Result<Option<(DmNo, UseNos)>, NoMemory>
    ensures { IfOk result (λ part. part ≡ module_of read.now) }
{
    match (read.0, &read.1) {
        (Site::D(dm), Msg::Read { uses, .. }) => {
            Ok(Some((dm, use_numbers(alloc, uses.as_slice())?)))
        }
        _ => Ok(None),
    }
}

fn use_numbers(alloc: Global, uses: &[Use]) -> Result<UseNos, NoMemory>
    ensures { IfOk result (λ numbers. numbers ≡ map (λ u. u.number) uses.now) }
{
    let numbers = uses.iter().map(|one| one.number).collect(alloc)?;
    Ok(UseNos::from_vec(numbers))
}
