//! The class lists of a workload, as a world puts them in force.
ghost use Rattle.std.specs.Prelude.{◌≡◌, ◌<◌, Some, length, map, slice_get, IfOk};
ghost use Rattle.std.specs.List.{AllZip};
ghost use Rattle.sdd_progress.specs.obligations.base.Words.{tail_of};
ghost use Rattle.sdd_progress.specs.obligations.All.{IsTable};
ghost use Rattle.sdd_run.specs.Lent.{era_of_list};
ghost use Rattle.sdd_run.specs.Runs.{eras_with_tables};

use sdd_progress::{Catalogue, NoMemory, Table, table};
use sdd_schedule::ClassList;
use std::alloc::Global;

/// The protocol table of each catalogue.
#[tactic(auto, using(crate::proofs::Lending::tabled_more))]
pub fn tables_of(alloc: Global, eras: &[Catalogue]) -> Result<Vec<Table>, NoMemory>
    ensures { IfOk result (λ tables. AllZip IsTable eras.now tables.items) }
{
    let mut tables = Vec::new(alloc);
    'eras: for era in eras {
        tables.push(table(alloc, era)?)?;
    }
    Ok(tables)
}

/// A catalogue with its protocol table.
#[tactic(auto, using(crate::proofs::Lending::list_there))]
fn list_at<'a>(eras: &'a [Catalogue], tables: &'a [Table], place: usize) -> ClassList<'a>
    requires catalogue { place < length eras.now }
    requires table { place < length tables.now }
    ensures { slice_get (eras_with_tables eras.now tables.now) place ≡ Some (era_of_list result) }
{
    ClassList {
        catalogue: &eras[place],
        table: &tables[place],
    }
}

/// The protocol table of the first list.
#[tactic(auto, using(crate::proofs::Lending::first_there))]
pub fn first_table(tables: &[Table]) -> &Table
    requires { 0 < length tables.now }
    ensures { slice_get tables.now 0 ≡ Some result.now }
{
    &tables[0]
}

/// The lists after the first, in order.
pub fn further<'a>(
    alloc: Global,
    eras: &'a [Catalogue],
    tables: &'a [Table],
) -> Result<Vec<ClassList<'a>>, NoMemory>
    requires { length tables.now ≡ length eras.now }
    ensures { IfOk result (λ lists.
        map era_of_list lists.items ≡ tail_of (eras_with_tables eras.now tables.now)) }
{
    let mut lists = Vec::new(alloc);
    'places: for place in 1..eras.len() {
        lists.push(list_at(eras, tables, place))?;
    }
    Ok(lists)
}
