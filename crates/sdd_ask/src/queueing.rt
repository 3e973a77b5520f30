//! Which classes keep an attempt from its end: those for which its reads wait, and those that keep it
//! behind its own writes.
ghost use Rattle.std.specs.Prelude.{◌≡◌, ◌==◌, IfOk};
ghost use Rattle.std.specs.List.{list_any};
ghost use Rattle.sdd_graph.specs.Edges.{IsClassOf};
ghost use Rattle.sdd_ask.specs.Flags.{flag_at, flags_of};
ghost use Rattle.sdd_ask.specs.Queueing.{awaits, is_queued, meets, read_at_one};

use crate::flags::{CELLS, WIDTH, flag_at};
use crate::needs::reads_at;
use sdd_base::{ClassNo, NoMemory};
use sdd_catalog::{Catalogue, Read};
use std::alloc::Global;

/// Which class's attempt awaits that which has passed a time: one for which the class waits, or for
/// which a read waits that may hold the class's own writes back.
pub(crate) fn awaits(
    alloc: Global,
    catalogue: &Catalogue,
    waits: &[bool],
) -> Result<Vec<bool>, NoMemory>
    ensures { IfOk result (λ flags. flags.items ≡ flags_of (awaits catalogue.now (flag_at waits.now))) }
{
    Ok(
        (0..CELLS)
            .map(|cell| is_awaited(catalogue, waits, cell / WIDTH, cell % WIDTH))
            .collect(alloc)?,
    )
}

fn is_awaited(catalogue: &Catalogue, waits: &[bool], c: u32, j: u32) -> bool
    ensures { result ≡ awaits catalogue.now (flag_at waits.now) c j }
{
    flag_at(waits, c, j) || is_queued(catalogue, waits, c, j)
}

/// Whether a class that reads where class c does waits for both.
fn is_queued(catalogue: &Catalogue, waits: &[bool], c: u32, j: u32) -> bool
    ensures { result ≡ is_queued catalogue.now (flag_at waits.now) c j }
{
    (0..WIDTH).any(|r| flag_at(waits, r, c) && flag_at(waits, r, j) && meets(catalogue, c, r))
}

/// Whether both are classes, and read at one module.
fn meets(catalogue: &Catalogue, c: u32, r: u32) -> bool
    ensures { result ≡ meets catalogue.now c r }
{
    let classes = catalogue.classes();
    if 1 <= c && c <= classes && 1 <= r && r <= classes {
        return read_at_one(catalogue, c, r);
    }
    false
}

fn read_at_one(catalogue: &Catalogue, c: u32, r: u32) -> bool
    requires own { IsClassOf catalogue.now c }
    requires other { IsClassOf catalogue.now r }
    ensures { result ≡ read_at_one catalogue.now c r }
{
    let others = catalogue.class(ClassNo(r)).reads.as_slice();
    one_is_there(catalogue.class(ClassNo(c)).reads.as_slice(), others)
}

fn one_is_there(reads: &[Read], others: &[Read]) -> bool
    ensures { result ≡ list_any (λ own. list_any (λ other. other.at.0 == own.at.0) others.now) reads.now }
{
    reads.iter().any(|own| reads_at(others, own.at))
}
