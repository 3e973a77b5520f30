//! The modules that classes need.
ghost use Rattle.std.specs.Prelude.{◌≡◌, ◌≤◌, ◌++◌, ◌&&◌, ◌==◌, All, IfOk, List, OnOk, if◌then◌else◌, length};
ghost use Rattle.std.specs.List.{list_any, flat_map};
ghost use Rattle.sdd_base.specs.Numbers.{dm_no, tm_no};
ghost use Rattle.sdd_catalog.specs.Catalogue.{class_at, numbers_to};
ghost use Rattle.sdd_graph.specs.Edges.{IsClassOf};
ghost use Rattle.sdd_ask.specs.Flags.{Tells, closed, flag_at, flags_of};
ghost use Rattle.sdd_ask.specs.Needed.{is_own, leads_to, needed_by, needs_by};
ghost use Rattle.sdd_ask.specs.Needs.{IsNeedsText};
ghost use Rattle.sdd_ask.specs.Queueing.{awaits};
ghost use Rattle.sdd_ask.specs.Reaching.{begins, moves};
ghost use Rattle.sdd_outage.specs.Waiting.{waits_for};
ghost use Rattle.sdd_ask.specs.declared.flags.TheConstants.{WIDTH};
ghost use Rattle.sdd_protocol.specs.Protocols.{IsTable};
ghost use Rattle.sdd_protocol.specs.declared.entry.Entry.{Entry};
ghost use Rattle.sdd_ask.specs.Texts as shown;

use crate::flags::{closed, flag_at};
use crate::naming::put_class;
use crate::queueing::awaits;
use crate::reaching::{begins, moves};
use crate::waiting::waits;
use sdd_base::{ClassNo, DmNo, NoMemory, Site, TmNo};
use sdd_catalog::{Catalogue, Read};
use sdd_protocol::{Entry, table};
use sdd_words::{put, put_count};
use std::alloc::Global;

/// For each class of the catalogue, in order, the modules that an attempt of it needs, and those that its
/// passing needs: two lines. Costs what the protocol table does, and time in the third power of the
/// greatest number of classes.
pub fn needs_text(alloc: Global, catalogue: &Catalogue) -> Result<Vec<u8>, NoMemory>
    ensures { IfOk result (λ text. IsNeedsText catalogue.now text.items) }
{
    let table = table(alloc, catalogue)?;
    text_by_table(alloc, catalogue, table.entries())
}

/// The text by the protocol table of the catalogue.
fn text_by_table(
    alloc: Global,
    catalogue: &Catalogue,
    entries: &[Entry],
) -> Result<Vec<u8>, NoMemory>
    requires { IsTable catalogue.now entries.now }
    ensures { IfOk result (λ text. IsNeedsText catalogue.now text.items) }
{
    catalogue.law_is_sound();
    let waits = waits(alloc, entries)?;
    text_by_waits(alloc, catalogue, waits.as_slice())
}

/// The text by the classes that wait for others.
fn text_by_waits(alloc: Global, catalogue: &Catalogue, waits: &[bool]) -> Result<Vec<u8>, NoMemory>
    requires { (entries : List Entry) × IsTable catalogue.now entries × Tells waits.now (waits_for entries) }
    ensures { IfOk result (λ text. IsNeedsText catalogue.now text.items) }
{
    catalogue.law_is_sound();
    let passing = passing(alloc, waits)?;
    let begun = begun(alloc, catalogue, waits, passing.as_slice())?;
    text_by_flags(alloc, catalogue, begun.as_slice(), passing.as_slice())
}

/// To which classes the passing of each one leads.
fn passing(alloc: Global, waits: &[bool]) -> Result<Vec<bool>, NoMemory>
    ensures { IfOk result (λ flags. Tells flags.items (closed (flag_at (flags_of (moves (flag_at waits.now)))) WIDTH)) }
{
    let moves = moves(alloc, waits)?;
    closed(alloc, moves.as_slice())
}

/// To which classes the attempts of each one lead.
fn begun(
    alloc: Global,
    catalogue: &Catalogue,
    waits: &[bool],
    passing: &[bool],
) -> Result<Vec<bool>, NoMemory>
    ensures { IfOk result (λ flags. flags.items
        ≡ flags_of (begins (flag_at (flags_of (awaits catalogue.now (flag_at waits.now)))) (flag_at passing.now))) }
{
    let awaited = awaits(alloc, catalogue, waits)?;
    begins(alloc, awaited.as_slice(), passing)
}

/// The text by the classes to which attempts and passings lead.
fn text_by_flags(
    alloc: Global,
    catalogue: &Catalogue,
    begun: &[bool],
    passing: &[bool],
) -> Result<Vec<u8>, NoMemory>
    ensures { IfOk result (λ text. text.items
        ≡ shown.needs_text catalogue.now (needed_by catalogue.now (flag_at begun.now) (flag_at passing.now))) }
{
    let mut text = Vec::new(alloc);
    put_needs(&mut text, catalogue, begun, passing)?;
    Ok(text)
}

/// The lines of all classes.
fn put_needs(
    out: &mut Vec<u8>,
    catalogue: &Catalogue,
    begun: &[bool],
    passing: &[bool],
) -> Result<(), NoMemory>
    ensures { OnOk result (out.new.items ≡ out.old.items
        ++ shown.needs_text catalogue.now (needed_by catalogue.now (flag_at begun.now) (flag_at passing.now))) }
{
    catalogue.law_is_sound();
    for class in 1..catalogue.classes() + 1 {
        put_class_lines(out, catalogue, begun, passing, class)?;
    }
    Ok(())
}

fn put_class_lines(
    out: &mut Vec<u8>,
    catalogue: &Catalogue,
    begun: &[bool],
    passing: &[bool],
    class: u32,
) -> Result<(), NoMemory>
    requires { IsClassOf catalogue.now class }
    ensures { OnOk result (out.new.items ≡ out.old.items
        ++ shown.class_lines catalogue.now
        (needed_by catalogue.now (flag_at begun.now) (flag_at passing.now)) class) }
{
    put_class(out, catalogue, ClassNo(class))?;
    put(out, b" attempt")?;
    put_modules(out, catalogue, begun, class)?;
    put_class(out, catalogue, ClassNo(class))?;
    put(out, b" passing")?;
    put_modules(out, catalogue, passing, class)
}

/// The modules to which the flags lead from the class, and the end of the line.
fn put_modules(
    out: &mut Vec<u8>,
    catalogue: &Catalogue,
    flags: &[bool],
    class: u32,
) -> Result<(), NoMemory>
    ensures { OnOk result (out.new.items ≡ out.old.items
        ++ shown.module_words catalogue.now (needs_by catalogue.now (flag_at flags.now) class)) }
{
    put_tms(out, catalogue, flags, class)?;
    put_dms(out, catalogue, flags, class)?;
    put(out, b"\n")
}

fn put_tms(
    out: &mut Vec<u8>,
    catalogue: &Catalogue,
    flags: &[bool],
    class: u32,
) -> Result<(), NoMemory>
    ensures { OnOk result (out.new.items ≡ out.old.items
        ++ flat_map (shown.tm_word (needs_by catalogue.now (flag_at flags.now) class))
        (numbers_to catalogue.now.tms)) }
{
    catalogue.law_is_sound();
    for tm in 1..catalogue.tms() + 1 {
        put_tm(out, catalogue, flags, class, tm as u8)?;
    }
    Ok(())
}

fn put_tm(
    out: &mut Vec<u8>,
    catalogue: &Catalogue,
    flags: &[bool],
    class: u32,
    tm: u8,
) -> Result<(), NoMemory>
    ensures { OnOk result (out.new.items ≡ out.old.items
        ++ shown.tm_word (needs_by catalogue.now (flag_at flags.now) class) tm) }
{
    if needs(catalogue, flags, class, Site::T(TmNo(tm))) {
        put(out, b" T")?;
        put_count(out, u64::from(tm))?;
    }
    Ok(())
}

fn put_dms(
    out: &mut Vec<u8>,
    catalogue: &Catalogue,
    flags: &[bool],
    class: u32,
) -> Result<(), NoMemory>
    ensures { OnOk result (out.new.items ≡ out.old.items
        ++ flat_map (shown.dm_word (needs_by catalogue.now (flag_at flags.now) class))
        (numbers_to catalogue.now.dms)) }
{
    catalogue.law_is_sound();
    for dm in 1..catalogue.dms() + 1 {
        put_dm(out, catalogue, flags, class, dm as u8)?;
    }
    Ok(())
}

fn put_dm(
    out: &mut Vec<u8>,
    catalogue: &Catalogue,
    flags: &[bool],
    class: u32,
    dm: u8,
) -> Result<(), NoMemory>
    ensures { OnOk result (out.new.items ≡ out.old.items
        ++ shown.dm_word (needs_by catalogue.now (flag_at flags.now) class) dm) }
{
    if needs(catalogue, flags, class, Site::D(DmNo(dm))) {
        put(out, b" D")?;
        put_count(out, u64::from(dm))?;
    }
    Ok(())
}

/// Whether the module is an own one of a class to which the flags lead from the class.
fn needs(catalogue: &Catalogue, flags: &[bool], class: u32, site: Site) -> bool
    ensures { result ≡ needs_by catalogue.now (flag_at flags.now) class site }
{
    catalogue.law_is_sound();
    for other in 1..catalogue.classes() + 1 {
        if leads_to(catalogue, flags, class, site, other) {
            return true;
        }
    }
    false
}

fn leads_to(catalogue: &Catalogue, flags: &[bool], class: u32, site: Site, other: u32) -> bool
    requires { IsClassOf catalogue.now other }
    ensures { result ≡ leads_to catalogue.now (flag_at flags.now) class site other }
{
    flag_at(flags, class, other) && is_own(catalogue, other, site)
}

/// Whether the class runs or reads at the module.
fn is_own(catalogue: &Catalogue, class: u32, site: Site) -> bool
    requires { IsClassOf catalogue.now class }
    ensures { result ≡ is_own catalogue.now class site }
{
    match site {
        Site::U => false,
        Site::T(tm) => catalogue.class(ClassNo(class)).tm.0 == tm.0,
        Site::D(dm) => reads_at(catalogue.class(ClassNo(class)).reads.as_slice(), dm),
    }
}

pub(crate) fn reads_at(reads: &[Read], dm: DmNo) -> bool
    ensures { result ≡ list_any (λ read. read.at.0 == dm.0) reads.now }
{
    reads.iter().any(|read| read.at.0 == dm.0)
}
