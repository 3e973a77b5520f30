ghost use Rattle.std.specs.Prelude.{◌≡◌, ◌≤◌, ◌∷◌, ◌++◌, [], List, None, length, IfOk};
ghost use Rattle.sdd_base.specs.Words.{contains, head_of};
ghost use Rattle.sdd_catalog.specs.Catalogue.{fragment_names};
ghost use Rattle.sdd_catalog.specs.Marks.{AreMarked};
ghost use Rattle.sdd_catalog.specs.Names.{Text};
ghost use Rattle.sdd_catalog.specs.Rules.{read_rules, write_rules, class_rules, faults_of_class, class_faults, found_in, copies_of};

use crate::fault::{CatFault, CatRule, Counted, Part};
use crate::fragment_rules::is_from_1_to;
use crate::indexed::IndexedParts;
use crate::named::has_name;
use crate::parts::{ClassPart, Parts, ReadPart};
use sdd_base::{MAX_CLASSES, MAX_READS, Name, NoMemory};
use std::alloc::Global;

/// Whether the fragment with the name has a copy at the module.
fn has_copy_at(parts: &IndexedParts, name: &Name, at: u32) -> bool
    ensures { result ≡ contains (copies_of name.now parts.now.fragments) at }
{
    match parts.fragment(name) {
        Some(fragment) => fragment.copies.as_slice().contains(&at),
        None => false,
    }
}

/// The first rule on a read that is broken, where these stand before it.
fn broken_by_read(parts: &IndexedParts, before: &[ReadPart], read: &ReadPart) -> Option<CatRule>
    ensures { result ≡ head_of (read_rules parts.now before.now read.now) }
{
    if !parts.has_fragment(&read.fragment) || !is_from_1_to(parts.parts().dms, read.at) {
        Some(CatRule::UnknownName)
    } else if has_name(before, &read.fragment) {
        Some(CatRule::DuplicateName)
    } else if !has_copy_at(parts, &read.fragment, read.at) {
        Some(CatRule::ReadsWhereNoCopy)
    } else {
        None
    }
}

#[tactic(auto, using(crate::proofs::Firsts::found_later, crate::proofs::Firsts::found_nowhere))]
fn broken_by_reads(parts: &IndexedParts, reads: &[ReadPart]) -> Option<CatRule>
    ensures { result ≡ head_of (found_in (read_rules parts.now) reads.now) }
{
    for (index, read) in reads.iter().enumerate() {
        if let Some(rule) = broken_by_read(parts, &reads[..index], read) {
            return Some(rule);
        }
    }
    None
}

/// The first rule on a written fragment that is broken, where those before it are marked.
fn broken_by_write(parts: &IndexedParts, marks: &mut Vec<bool>, name: &Name) -> Option<CatRule>
    requires { length marks.old.items ≡ length parts.now.fragments }
    ensures rule { (before : List Text)
        → AreMarked (fragment_names parts.now.fragments) before marks.old.items
        → result ≡ head_of (write_rules parts.now before name.now) }
    ensures marks { (before : List Text)
        → AreMarked (fragment_names parts.now.fragments) before marks.old.items → result ≡ None
        → AreMarked (fragment_names parts.now.fragments) (before ++ name.now ∷ []) marks.new.items }
{
    match parts.place_of(name) {
        None => Some(CatRule::UnknownName),
        Some(place) => {
            if marks[place] {
                Some(CatRule::DuplicateName)
            } else {
                marks[place] = true;
                None
            }
        }
    }
}

#[tactic(auto, using(crate::proofs::Firsts::found_later, crate::proofs::Firsts::found_nowhere))]
fn broken_by_writes(
    alloc: Global,
    parts: &IndexedParts,
    writes: &[Name],
) -> Result<Option<CatRule>, NoMemory>
    ensures { IfOk result (λ found. found ≡ head_of (found_in (write_rules parts.now) writes.now)) }
{
    let mut marks = vec![in alloc; false; parts.parts().fragments.as_slice().len()]?;
    for (index, name) in writes.iter().enumerate() {
        if let Some(rule) = broken_by_write(parts, &mut marks, name) {
            return Ok(Some(rule));
        }
    }
    Ok(None)
}

/// The first rule on a class that is broken, where these stand before it.
#[tactic(auto, using(crate::proofs::Firsts::head_of_join))]
fn broken_by_class(
    alloc: Global,
    parts: &IndexedParts,
    before: &[ClassPart],
    class: &ClassPart,
) -> Result<Option<CatRule>, NoMemory>
    ensures { IfOk result (λ found. found ≡ head_of (class_rules parts.now before.now class.now)) }
{
    if before.len() >= MAX_CLASSES {
        return Ok(Some(CatRule::TooMany(Counted::Class)));
    }
    if has_name(before, &class.name) {
        return Ok(Some(CatRule::DuplicateName));
    }
    if !is_from_1_to(parts.parts().tms, class.tm) {
        return Ok(Some(CatRule::UnknownName));
    }
    if class.reads.as_slice().len() > MAX_READS {
        return Ok(Some(CatRule::TooMany(Counted::Read)));
    }
    if let Some(rule) = broken_by_reads(parts, class.reads.as_slice()) {
        return Ok(Some(rule));
    }
    broken_by_writes(alloc, parts, class.writes.as_slice())
}

#[tactic(auto, using(crate::proofs::Firsts::head_of_map))]
fn fault_of_class(
    alloc: Global,
    parts: &IndexedParts,
    before: &[ClassPart],
    class: &ClassPart,
) -> Result<Option<CatFault>, NoMemory>
    requires { length before.now ≤ MAX_CLASSES }
    ensures { IfOk result (λ found. found ≡ head_of (faults_of_class parts.now before.now class.now)) }
{
    match broken_by_class(alloc, parts, before, class)? {
        Some(rule) => Ok(Some(CatFault {
            rule,
            part: Part::Class,
            number: before.len() + 1,
        })),
        None => Ok(None),
    }
}

#[tactic(auto, using(crate::proofs::Firsts::found_later, crate::proofs::Firsts::found_nowhere, crate::proofs::Counts::few_before_class))]
fn first_class_fault(
    alloc: Global,
    parts: &IndexedParts,
    classes: &[ClassPart],
) -> Result<Option<CatFault>, NoMemory>
    ensures { IfOk result (λ found. found ≡ head_of (found_in (faults_of_class parts.now) classes.now)) }
{
    for (index, class) in classes.iter().enumerate() {
        if let Some(fault) = fault_of_class(alloc, parts, &classes[..index], class)? {
            return Ok(Some(fault));
        }
    }
    Ok(None)
}

/// The first fault of a class.
pub(crate) fn class_fault(alloc: Global, parts: &Parts) -> Result<Option<CatFault>, NoMemory>
    ensures { IfOk result (λ found. found ≡ head_of (class_faults parts.now)) }
{
    let indexed = IndexedParts::of(alloc, parts)?;
    first_class_fault(alloc, &indexed, parts.classes.as_slice())
}
