//! The copies of data modules.
ghost use Rattle.std.specs.Prelude.{◌≡◌, ◌≤◌, ◌++◌, ◌∷◌, [], ℕ, map, filter, length, true, IfOk, IsTrue, OnOk};
ghost use Rattle.sdd_world.specs.Represents.{Represents};
ghost use Rattle.sdd_world.specs.needs.All.{D, Input, IsSiteOf, Log, Represent, contents, has_copy, is_here};
ghost use Rattle.sdd_world.specs.needs.copy.Contents.{Dated};
ghost use Rattle.sdd_schedule.specs.Copies.{table_of, tables_in, tables_at, tables_of};

use sdd_report::CopyTable;
use sdd_world::{Catalogue, Copies, DmNo, FragNo, Listed, NoMemory, RowList, World};
use std::alloc::Global;

/// The rows of the copy of a fragment, ascending by key.
fn rows_at(copies: &Copies, frag: FragNo) -> Result<RowList, NoMemory>
    requires live { IsTrue copies.now.live }
    requires here { is_here copies.now.value frag.0 ≡ true }
    ensures { IfOk result (λ rows. (xs : Dated) → Represent copies.now.value xs
        → rows ≡ map (λ e. e.1) (contents frag.0 xs)) }
{
    match copies.at(frag) {
        Some(copy) => Ok(Listed::from_vec(copy.rows()?)),
        None => unreachable!(),
    }
}

/// Adds the copy of a fragment, where the module has one.
fn add_copy(
    catalogue: &Catalogue,
    copies: &Copies,
    dm: DmNo,
    frag: FragNo,
    tables: &mut Vec<CopyTable>,
) -> Result<(), NoMemory>
    requires from { 1 ≤ frag.0 }
    requires to { frag.0 ≤ length catalogue.now.fragments }
    requires live { IsTrue copies.now.live }
    requires here { has_copy catalogue.now dm.0 frag.0 ≡ true → is_here copies.now.value frag.0 ≡ true }
    ensures { OnOk result ((xs : Dated) → Represent copies.now.value xs
        → tables.new.items
        ≡ tables.old.items
        ++ map (table_of dm.0 xs) (filter (has_copy catalogue.now dm.0) (frag.0 ∷ []))) }
{
    if !catalogue.has_copy(dm, frag) {
        return Ok(());
    }
    let rows = rows_at(copies, frag)?;
    tables.push(CopyTable { dm, frag, rows })?;
    Ok(())
}

/// Adds all copies of a module.
fn add_copies(
    catalogue: &Catalogue,
    copies: &Copies,
    dm: DmNo,
    tables: &mut Vec<CopyTable>,
) -> Result<(), NoMemory>
    requires live { IsTrue copies.now.live }
    requires here { (f : ℕ) → has_copy catalogue.now dm.0 f ≡ true → is_here copies.now.value f ≡ true }
    ensures { OnOk result ((xs : Dated) → Represent copies.now.value xs
        → tables.new.items ≡ tables.old.items ++ tables_in catalogue.now dm.0 xs) }
{
    catalogue.law_is_sound();
    for number in 1..catalogue.fragments() + 1 {
        add_copy(catalogue, copies, dm, FragNo(number), tables)?;
    }
    Ok(())
}

/// Adds the copies of a data module.
fn add_tables(world: &World<'_>, dm: DmNo, tables: &mut Vec<CopyTable>) -> Result<(), NoMemory>
    requires { (g : Input) × (log : Log) × IsSiteOf g (D dm) × Represents world.now g log }
    ensures { OnOk result ((g : Input) (log : Log) → IsSiteOf g (D dm) → Represents world.now g log
        → tables.new.items ≡ tables.old.items ++ tables_at g log dm.0) }
{
    let copies = world.copies(dm);
    add_copies(world.whole(), copies, dm, tables)
}

/// The copies of all data modules of a world, ascending by module and then by fragment. Costs time
/// and memory in the rows.
///
/// # Errors
///
/// Only where memory runs out.
pub fn copy_tables(alloc: Global, world: &World<'_>) -> Result<Vec<CopyTable>, NoMemory>
    requires { (g : Input) × (log : Log) × Represents world.now g log }
    ensures { IfOk result (λ tables. (g : Input) (log : Log) → Represents world.now g log
        → tables.items ≡ tables_of g log) }
{
    let catalogue = world.whole();
    catalogue.law_is_sound();
    let mut tables = Vec::new(alloc);
    for number in 1..catalogue.dms() + 1 {
        add_tables(world, DmNo(number as u8), &mut tables)?;
    }
    Ok(tables)
}
