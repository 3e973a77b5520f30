ghost use Rattle.std.specs.Prelude.{ℕ, ◌≡◌, ◌≤◌, ◌++◌, ◌==◌, List, All, length, slice_index_or, OnOk};
ghost use Rattle.std.specs.List.{list_any, flat_map};
ghost use Rattle.sdd_lang.specs.All.{fragments_in};
ghost use Rattle.sdd_links.specs.Linked.{end_of, has_seen, links_at, fragment_links};
ghost use Rattle.sdd_links.specs.Numbers.{IsClass, IsFragment, UseExists};
ghost use Rattle.sdd_links.specs.Precedence.{module_of};

use crate::attempts::Committed;
use crate::groups::Groups;
use crate::seen::Marks;
use sdd_lang::{Catalogue, Change, DmNo, FragNo, NoMemory, Use};

/// Adds the links of one reader for the fragments of its uses.
pub fn link_uses(
    links: &mut Vec<(usize, usize)>,
    catalogue: &Catalogue,
    marks: &Marks,
    txns: &[Committed<'_>],
    writers: &Groups,
    reader: usize,
    txn: &Committed<'_>,
) -> Result<(), NoMemory>
    requires class { IsClass catalogue.now txn.now.start.class }
    requires uses { All (UseExists catalogue.now) txn.now.start.uses }
    ensures { OnOk result (links.new.items ≡ links.old.items
        ++ flat_map (fragment_links catalogue.now marks.now txns.now writers.now (reader, txn.now)) (fragments_in txn.now.start.uses)) }
{
    for used in txn.uses() {
        link_use(links, catalogue, marks, txns, writers, reader, txn, used)?;
    }
    Ok(())
}

fn link_use(
    links: &mut Vec<(usize, usize)>,
    catalogue: &Catalogue,
    marks: &Marks,
    txns: &[Committed<'_>],
    writers: &Groups,
    reader: usize,
    txn: &Committed<'_>,
    used: &Use,
) -> Result<(), NoMemory>
    requires class { IsClass catalogue.now txn.now.start.class }
    requires used { UseExists catalogue.now used.now }
    ensures { OnOk result (links.new.items ≡ links.old.items
        ++ flat_map (λ f. fragment_links catalogue.now marks.now txns.now writers.now (reader, txn.now) f.0) used.now.frags) }
{
    for frag in used.frags.as_slice() {
        link_fragment(links, catalogue, marks, txns, writers, reader, txn, *frag)?;
    }
    Ok(())
}

/// Adds a link from the last writer of a fragment that a reader has seen, and one to the first that
/// it hasn't; none where it changes the fragment itself.
fn link_fragment(
    links: &mut Vec<(usize, usize)>,
    catalogue: &Catalogue,
    marks: &Marks,
    txns: &[Committed<'_>],
    writers: &Groups,
    reader: usize,
    txn: &Committed<'_>,
    frag: FragNo,
) -> Result<(), NoMemory>
    requires class { IsClass catalogue.now txn.now.start.class }
    requires frag { IsFragment catalogue.now frag.0 }
    ensures { OnOk result (links.new.items ≡ links.old.items
        ++ fragment_links catalogue.now marks.now txns.now writers.now (reader, txn.now) frag.0) }
{
    if has_change(txn.changes(), frag) {
        return Ok(());
    }
    let dm = catalogue.reads_at(txn.class(), frag).unwrap_or(DmNo(0));
    let of_frag = writers.get(frag.0 as usize);
    let unseen = first_unseen(marks, txns, dm, txn, of_frag);
    link_between(links, of_frag, reader, unseen)
}

/// Adds a link from the last of the first writers, and one to the next.
fn link_between(
    links: &mut Vec<(usize, usize)>,
    writers: &[usize],
    reader: usize,
    first: usize,
) -> Result<(), NoMemory>
    requires { first ≤ length writers.now }
    ensures { OnOk result (links.new.items ≡ links.old.items ++ links_at writers.now reader first) }
{
    if first > 0 {
        links.push((writers[first - 1], reader))?;
    }
    if first < writers.len() {
        links.push((reader, writers[first]))?;
    }
    Ok(())
}

fn has_change(changes: &[Change], frag: FragNo) -> bool
    ensures { result ≡ list_any (λ c. c.frag.0 == frag.0) changes.now }
{
    for change in changes {
        if change.frag.0 == frag.0 {
            return true;
        }
    }
    false
}

/// How many of the writers of a fragment a reader has seen at a module, where it has seen those
/// before one that it has seen.
fn first_unseen(
    marks: &Marks,
    txns: &[Committed<'_>],
    dm: DmNo,
    reader: &Committed<'_>,
    writers: &[usize],
) -> usize
    ensures value { result ≡ end_of (has_seen marks.now txns.now dm.0 reader.now writers.now) (length writers.now) 0 (length writers.now) }
    ensures within { result ≤ length writers.now }
{
    let mut low = 0;
    let mut high = writers.len();
    while low < high {
        let middle = low + (high - low) / 2;
        if is_seen(marks, txns, dm, reader, writers[middle]) {
            low = middle + 1;
        } else {
            high = middle;
        }
    }
    low
}

fn is_seen(
    marks: &Marks,
    txns: &[Committed<'_>],
    dm: DmNo,
    reader: &Committed<'_>,
    writer: usize,
) -> bool
    ensures { (writers : List ℕ) (k : ℕ) → slice_index_or writers k 0 ≡ writer
        → result ≡ has_seen marks.now txns.now dm.0 reader.now writers k }
{
    match txns.get(writer) {
        Some(writer) => marks.was_seen(writer.start.txn, dm, reader.start.txn, reader.start.number),
        None => false,
    }
}
