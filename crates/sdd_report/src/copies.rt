//! The lines of copies.
ghost use Rattle.std.specs.Prelude.{◌≡◌, ◌∷◌, ◌++◌, length, flat_map, OnOk};
ghost use Rattle.std.specs.Fmt.{decimal};
ghost use Rattle.sdd_report.specs.Names.{spaced};
ghost use Rattle.sdd_report.specs.Copies.{place_words, copy_lines, copies_lines};
ghost use Rattle.sdd_report.specs.Replies.{row_line};

use crate::words::{put_fragment, put_module, put_number};
use sdd_lang::{Catalogue, DmNo, FragNo, Listed, NoMemory, Row, RowList};
use sdd_words::{put, put_rows};

/// The rows of the copy of a fragment at a data module, ascending by key.
#[derive(Drop)]
pub struct CopyTable {
    pub dm: DmNo,
    pub frag: FragNo,
    pub rows: RowList,
}

/// The copies of all data modules, ascending by module and then by fragment.
pub type CopyTables = Listed<CopyTable>;

/// How many rows there are, and the rows.
fn put_table(out: &mut Vec<u8>, rows: &[Row]) -> Result<(), NoMemory>
    ensures { OnOk result (
        out.new.items
        ≡ out.old.items ++ (spaced (decimal (length rows.now)) ++ (10 ∷ flat_map row_line rows.now))) }
{
    put_number(out, rows.len() as u64)?;
    put(out, b"\n")?;
    put_rows(out, rows)
}

/// The place of a copy.
fn put_place(
    out: &mut Vec<u8>,
    catalogue: &Catalogue,
    dm: DmNo,
    frag: FragNo,
) -> Result<(), NoMemory>
    ensures { OnOk result (
        out.new.items
        ≡ out.old.items ++ place_words catalogue.now dm.0 frag.0) }
{
    put(out, b"copy")?;
    put_module(out, dm)?;
    put_fragment(out, catalogue, frag)
}

fn put_copy(out: &mut Vec<u8>, catalogue: &Catalogue, table: &CopyTable) -> Result<(), NoMemory>
    ensures { OnOk result (out.new.items ≡ out.old.items ++ copy_lines catalogue.now table.now) }
{
    put_place(out, catalogue, table.dm, table.frag)?;
    put_table(out, table.rows.as_slice())
}

/// The lines of copies.
#[tactic(auto, using(crate::proofs::Lists::written))]
pub fn put_copies(
    out: &mut Vec<u8>,
    catalogue: &Catalogue,
    tables: &[CopyTable],
) -> Result<(), NoMemory>
    ensures { OnOk result (out.new.items ≡ out.old.items ++ copies_lines catalogue.now tables.now) }
{
    'tables: for table in tables {
        put_copy(out, catalogue, table)?;
    }
    Ok(())
}
