ghost use Rattle.std.specs.Prelude.{◌≡◌, ◌++◌, ◌∷◌, [], filter, filter_map, IfOk, OnOk};
ghost use Rattle.sdd_module.specs.All.{has_copy, numbers_to};
ghost use Rattle.sdd_attempt.specs.Writes.{changes_at, write_of};

use sdd_module::{
    Catalogue, Change, Changes, ClassNo, DmNo, Draft, FragNo, Msg, NoMemory, Parcel, Site, Ts,
    TxnNo,
};
use std::alloc::Global;

/// An attempt that commits.
#[derive(Clone, Copy)]
pub(crate) struct Committing {
    pub(crate) class: ClassNo,
    pub(crate) txn: TxnNo,
    pub(crate) ts: Ts,
}

/// Sends its WRITEs, ascending by module: to each module that has a copy of a changed fragment, and
/// of an undeclared transaction to every one. Costs time in the modules times the changes and their
/// copies.
pub(crate) fn send_writes(
    alloc: Global,
    catalogue: &Catalogue,
    attempt: Committing,
    changes: &[Change],
    draft: &mut Draft,
) -> Result<(), NoMemory>
    ensures { OnOk result (
        draft.new
        ≡ record draft.old {
          out = draft.old.out
              ++ filter_map (write_of catalogue.now attempt.class.0 attempt.ts.0 attempt.txn.0 changes.now)
              (numbers_to catalogue.now.dms);
        }) }
{
    catalogue.law_is_sound();
    for number in 1..catalogue.dms() + 1 {
        send_write(
            alloc,
            catalogue,
            attempt,
            changes,
            DmNo(number as u8),
            draft,
        )?;
    }
    Ok(())
}

/// Sends the WRITE to a module, where one goes there.
fn send_write(
    alloc: Global,
    catalogue: &Catalogue,
    attempt: Committing,
    changes: &[Change],
    dm: DmNo,
    draft: &mut Draft,
) -> Result<(), NoMemory>
    ensures { OnOk result (
        draft.new
        ≡ record draft.old {
          out = draft.old.out
              ++ filter_map (write_of catalogue.now attempt.class.0 attempt.ts.0 attempt.txn.0 changes.now)
              (dm.0 ∷ []);
        }) }
{
    let here = changes_at(alloc, catalogue, dm, changes)?;
    if here.is_empty() && attempt.class.0 != 0 {
        return Ok(());
    }
    draft.send(
        Site::D(dm),
        Msg::Write {
            ts: attempt.ts,
            class: attempt.class,
            txn: attempt.txn,
            changes: Changes::from_vec(here),
        },
    )
}

/// Of the changes those of fragments that have a copy at the module.
fn changes_at(
    alloc: Global,
    catalogue: &Catalogue,
    dm: DmNo,
    changes: &[Change],
) -> Result<Vec<Change>, NoMemory>
    ensures { IfOk result (λ here. here.items ≡ changes_at catalogue.now dm.0 changes.now) }
{
    let mut here = Vec::with_capacity(alloc, count_at(catalogue, dm, changes))?;
    for change in changes {
        add_change(catalogue, dm, change, &mut here)?;
    }
    Ok(here)
}

/// How many they are, for which room is made at once.
fn count_at(catalogue: &Catalogue, dm: DmNo, changes: &[Change]) -> usize {
    changes
        .iter()
        .filter(|change| has_copy(catalogue, dm, change.frag))
        .count()
}

/// Adds the change, where its fragment has a copy at the module.
fn add_change(
    catalogue: &Catalogue,
    dm: DmNo,
    change: &Change,
    here: &mut Vec<Change>,
) -> Result<(), NoMemory>
    ensures { OnOk result (
        here.new.items ≡ here.old.items ++ changes_at catalogue.now dm.0 (change.now ∷ [])) }
{
    if has_copy(catalogue, dm, change.frag) {
        here.push(change.copy()?)?;
    }
    Ok(())
}

/// Whether the module has a copy of the fragment, whatever its number.
fn has_copy(catalogue: &Catalogue, dm: DmNo, frag: FragNo) -> bool
    ensures { result ≡ has_copy catalogue.now dm.0 frag.0 }
{
    let number = frag.0.max(1);
    if number > catalogue.fragments() {
        return false;
    }
    catalogue.has_copy(dm, FragNo(number))
}
