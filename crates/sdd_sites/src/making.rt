ghost use Rattle.std.specs.Prelude.{IfOk};
ghost use Rattle.std.specs.List.{All};
ghost use Rattle.sdd_needs.specs.All.{FitsStart, IsEraOf};
ghost use Rattle.sdd_sites.specs.Beginnings.{AllBegin, BeginsD, BeginsT};

use sdd_base::{DmNo, NoMemory, RelNo, Row, TmNo};
use sdd_catalog::Catalogue;
use sdd_dm::DataModule;
use sdd_protocol::Table;
use sdd_tm::TxnModule;
use std::alloc::Global;

/// The transaction modules of the whole catalogue, where these classes of it and their protocol
/// table are in force. Each costs a look at each class.
pub(crate) fn txn_modules<'a>(
    alloc: Global,
    whole: &'a Catalogue,
    catalogue: &'a Catalogue,
    table: &'a Table,
) -> Result<Vec<TxnModule<'a>>, NoMemory>
    requires { IsEraOf whole.now catalogue.now }
    ensures { IfOk result (λ made.
        AllBegin (BeginsT whole.now catalogue.now table.now) whole.now.tms made.items) }
{
    whole.law_is_sound();
    let mut made = Vec::new(alloc);
    for number in 1..whole.tms() + 1 {
        made.push(TxnModule::new(alloc, whole, catalogue, table, TmNo(number as u8))?)?;
    }
    Ok(made)
}

/// The data modules, each made of the same rows. Each costs O(n log n) for n rows.
pub fn data_modules(
    alloc: Global,
    catalogue: &Catalogue,
    rows: &[(RelNo, Row)],
) -> Result<Vec<DataModule>, NoMemory>
    requires { All (FitsStart catalogue.now) rows.now }
    ensures { IfOk result (λ made.
        AllBegin (BeginsD catalogue.now rows.now) catalogue.now.dms made.items) }
{
    catalogue.law_is_sound();
    let mut made = Vec::new(alloc);
    for number in 1..catalogue.dms() + 1 {
        made.push(DataModule::new(alloc, catalogue, DmNo(number as u8), rows)?)?;
    }
    Ok(made)
}
