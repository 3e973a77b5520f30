//! Calls with the catalogue of the bank and a workload of one transaction, which moves between its
//! two fragments.
ghost use Rattle.sdd_script.specs.All.{IsValid};

use crate::line::tell;
use crate::{advices, catalogues, transactions};
use sdd_catread::read_catalogue;
use sdd_make::make;
use sdd_script::{Catalogue, NoMemory, Workload, read_workload};
use std::alloc::Global;

pub fn tell_calls(alloc: Global, out: &mut Vec<u8>) -> Result<(), NoMemory> {
    let made = make(alloc, 1, 1)?;
    tell_made(
        alloc,
        out,
        made.catalogue.as_slice(),
        made.workload.as_slice(),
    )
}

fn tell_made(
    alloc: Global,
    out: &mut Vec<u8>,
    catalogue: &[u8],
    workload: &[u8],
) -> Result<(), NoMemory> {
    match read_catalogue(alloc, catalogue) {
        Ok(catalogue) => tell_all(alloc, out, &catalogue, workload),
        Err(_) => Ok(()),
    }
}

fn tell_all(
    alloc: Global,
    out: &mut Vec<u8>,
    catalogue: &Catalogue,
    workload: &[u8],
) -> Result<(), NoMemory> {
    tell_catalogues(alloc, out, catalogue)?;
    match read_workload(alloc, workload, catalogue) {
        Ok(work) => tell_transactions(alloc, out, catalogue, &work),
        Err(_) => Ok(()),
    }
}

fn tell_catalogues(
    alloc: Global,
    out: &mut Vec<u8>,
    catalogue: &Catalogue,
) -> Result<(), NoMemory> {
    tell(
        out,
        b"parts and build",
        catalogues::is_built_again(alloc, catalogue),
    )?;
    tell(out, b"extend", catalogues::is_extended(alloc, catalogue))?;
    tell(
        out,
        b"extend by a name that is there",
        catalogues::is_refused(alloc, catalogue),
    )?;
    tell(out, b"retire", catalogues::is_retired(alloc, catalogue))?;
    tell(out, b"check_advice", advices::are_judged(alloc, catalogue))
}

fn tell_transactions(
    alloc: Global,
    out: &mut Vec<u8>,
    catalogue: &Catalogue,
    work: &Workload,
) -> Result<(), NoMemory>
    requires { IsValid catalogue.now work.now }
{
    let txns = work.txns.as_slice();
    tell(
        out,
        b"write_set",
        transactions::write_both(alloc, catalogue, txns),
    )?;
    tell(
        out,
        b"run_all",
        transactions::are_run(alloc, catalogue, work),
    )?;
    tell(out, b"make", Ok(txns.len() == 1))
}
