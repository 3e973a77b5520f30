//! How many there are of each thing that a catalogue has.
ghost use Rattle.std.specs.Prelude.{◌≡◌, ◌++◌, IfOk, OnOk};
ghost use Rattle.sdd_commands.specs.Check.{check_line, module_counts, part_counts, class_count};

use sdd_lang::{Catalogue, NoMemory};
use sdd_words::{put, put_count};
use std::alloc::Global;

/// Adds how many modules there are of each sort.
fn put_modules(out: &mut Vec<u8>, tms: u32, dms: u32) -> Result<(), NoMemory>
    ensures { OnOk result (out.new.items ≡ out.old.items ++ module_counts tms dms) }
{
    put(out, b"ok tms ")?;
    put_count(out, tms as u64)?;
    put(out, b" dms ")?;
    put_count(out, dms as u64)
}

/// Adds how many relations and fragments there are.
fn put_parts(out: &mut Vec<u8>, relations: u32, fragments: u32) -> Result<(), NoMemory>
    ensures { OnOk result (out.new.items ≡ out.old.items ++ part_counts relations fragments) }
{
    put(out, b" relations ")?;
    put_count(out, relations as u64)?;
    put(out, b" fragments ")?;
    put_count(out, fragments as u64)
}

fn put_classes(out: &mut Vec<u8>, classes: u32) -> Result<(), NoMemory>
    ensures { OnOk result (out.new.items ≡ out.old.items ++ class_count classes) }
{
    put(out, b" classes ")?;
    put_count(out, classes as u64)?;
    put(out, b"\n")
}

/// How many there are of each.
pub fn counts(alloc: Global, catalogue: &Catalogue) -> Result<Vec<u8>, NoMemory>
    ensures { IfOk result (λ v. v.items ≡ check_line catalogue.now) }
{
    let mut text = Vec::new(alloc);
    put_modules(&mut text, catalogue.tms(), catalogue.dms())?;
    put_parts(&mut text, catalogue.relations(), catalogue.fragments())?;
    put_classes(&mut text, catalogue.classes())?;
    Ok(text)
}
