//! The files of the made input.
ghost use Rattle.std.specs.Prelude.{◌≡◌, ◌≤◌, ◌++◌, IfOk, OnOk};
ghost use Rattle.sdd_script.specs.All.{MAX_TXNS};
ghost use Rattle.sdd_make.specs.Files.{parts_text, payments_text, classes_text, catalogue_text, workload_text};

use crate::catalogue::bank;
use crate::turns::workload;
use sdd_script::{Bytes, NoMemory, put, write_workload};
use std::alloc::Global;

/// The files of a made input.
#[derive(Drop)]
pub struct Made {
    /// The catalogue of the bank.
    pub catalogue: Bytes,
    pub workload: Bytes,
}

fn put_parts(out: &mut Vec<u8>) -> Result<(), NoMemory>
    ensures { OnOk result (out.new.items ≡ out.old.items ++ parts_text) }
{
    put(out, b"tms = 3\ndms = 3\n")?;
    put(
        out,
        b"[[relation]]\nname = \"account\"\ncolumns = [{name = \"id\", kind = \"int\"}, {name = \"owner\", kind = \"text\"}, {name = \"bal\", kind = \"int\"}]\nkey = \"id\"\n",
    )?;
    put(
        out,
        b"[[fragment]]\nname = \"east\"\nrelation = \"account\"\nto = 999\ncopies = [1, 3]\n",
    )?;
    put(
        out,
        b"[[fragment]]\nname = \"west\"\nrelation = \"account\"\nfrom = 1000\ncopies = [2, 3]\n",
    )
}

fn put_payments(out: &mut Vec<u8>) -> Result<(), NoMemory>
    ensures { OnOk result (out.new.items ≡ out.old.items ++ payments_text) }
{
    put(
        out,
        b"[[class]]\nname = \"eastpay\"\ntm = 1\nreads = [{fragment = \"east\", at = 1}]\nwrites = [\"east\"]\n",
    )?;
    put(
        out,
        b"[[class]]\nname = \"westpay\"\ntm = 2\nreads = [{fragment = \"west\", at = 2}]\nwrites = [\"west\"]\n",
    )
}

fn put_classes(out: &mut Vec<u8>) -> Result<(), NoMemory>
    ensures { OnOk result (out.new.items ≡ out.old.items ++ classes_text) }
{
    put_payments(out)?;
    put(
        out,
        b"[[class]]\nname = \"book\"\ntm = 3\nreads = [{fragment = \"east\", at = 3}, {fragment = \"west\", at = 3}]\n",
    )?;
    put(
        out,
        b"[[class]]\nname = \"move\"\ntm = 3\nreads = [{fragment = \"east\", at = 1}, {fragment = \"west\", at = 2}]\nwrites = [\"east\", \"west\"]\n",
    )
}

fn catalogue_text(alloc: Global) -> Result<Vec<u8>, NoMemory>
    ensures { IfOk result (λ text. text.items ≡ catalogue_text) }
{
    let mut text = Vec::new(alloc);
    put_parts(&mut text)?;
    put_classes(&mut text)?;
    Ok(text)
}

fn workload_text(alloc: Global, seed: u32, n: u32) -> Result<Vec<u8>, NoMemory>
    requires { n ≤ MAX_TXNS }
    ensures { IfOk result (λ text. text.items ≡ workload_text seed n) }
{
    let catalogue = bank(alloc)?;
    let work = workload(alloc, seed, n)?;
    write_workload(alloc, &catalogue, &work)
}

/// The files of the bank's catalogue and of the workload that is made from a seed, with n transactions.
///
/// Costs time and memory linear in n.
pub fn make(alloc: Global, seed: u32, n: u32) -> Result<Made, NoMemory>
    requires { n ≤ MAX_TXNS }
    ensures catalogue { IfOk result (λ made. made.catalogue ≡ catalogue_text) }
    ensures workload { IfOk result (λ made. made.workload ≡ workload_text seed n) }
{
    Ok(Made {
        catalogue: Bytes::from_vec(catalogue_text(alloc)?),
        workload: Bytes::from_vec(workload_text(alloc, seed, n)?),
    })
}
