ghost use Rattle.std.specs.Prelude.{ℕ, ◌≡◌, ◌≤◌, ◌+◌, ◌++◌, All, length, map, IfOk, OnOk};
ghost use Rattle.sdd_links.specs.Groups.{chains, groups};
ghost use Rattle.std.specs.List.{list_any, flat_map};
ghost use Rattle.sdd_lang.specs.All.{fragments_in};
ghost use Rattle.sdd_links.specs.Linked.{by_class, by_fragment, end_of, has_seen, fragment_links, read_links, links};
ghost use Rattle.sdd_links.specs.Numbers.{IsClass, IsFragment, UseExists};

use crate::attempts::Committed;
use crate::groups::Groups;
use crate::reads::link_uses;
use crate::seen::Marks;
use sdd_lang::{Catalogue, Change, NoMemory};
use std::alloc::Global;

/// The links between transactions, which are numbered by their places: from each to the next of
/// its class, from each writer of a fragment to the next, and, for each fragment that a
/// transaction reads and doesn't change, from the last writer that it has seen, and to the first
/// that it hasn't.
///
/// O((n + c + u log n) log r) for n transactions with c changes and u fragments read in all, and
/// r records.
pub fn find_links(
    alloc: Global,
    catalogue: &Catalogue,
    marks: &Marks,
    txns: &[Committed<'_>],
) -> Result<Vec<(usize, usize)>, NoMemory>
    requires exist { All (λ t. IsClass catalogue.now t.start.class × All (UseExists catalogue.now) t.start.uses) txns.now }
    ensures { IfOk result (λ made. made.items ≡ links catalogue.now marks.now txns.now) }
{
    let mut links = Vec::new(alloc);
    link_classes(alloc, &mut links, catalogue, txns)?;
    link_fragments(alloc, &mut links, catalogue, marks, txns)?;
    Ok(links)
}

/// Adds a link from each transaction to the next of its class.
fn link_classes(
    alloc: Global,
    links: &mut Vec<(usize, usize)>,
    catalogue: &Catalogue,
    txns: &[Committed<'_>],
) -> Result<(), NoMemory>
    ensures { OnOk result (links.new.items ≡ links.old.items
        ++ chains (groups (by_class txns.now) (length catalogue.now.classes + 1))) }
{
    let of_class = of_classes(alloc, catalogue, txns)?;
    of_class.add_chains(links)
}

/// The transactions of each class.
fn of_classes(
    alloc: Global,
    catalogue: &Catalogue,
    txns: &[Committed<'_>],
) -> Result<Groups, NoMemory>
    ensures { IfOk result (λ made. made ≡ groups (by_class txns.now) (length catalogue.now.classes + 1)) }
{
    let pairs = class_pairs(alloc, txns)?;
    Groups::of(alloc, &pairs, catalogue.classes() as usize + 1)
}

/// Adds a link from each writer of a fragment to the next, and those of its readers.
fn link_fragments(
    alloc: Global,
    links: &mut Vec<(usize, usize)>,
    catalogue: &Catalogue,
    marks: &Marks,
    txns: &[Committed<'_>],
) -> Result<(), NoMemory>
    requires exist { All (λ t. IsClass catalogue.now t.start.class × All (UseExists catalogue.now) t.start.uses) txns.now }
    ensures { let writers = groups (by_fragment txns.now) (length catalogue.now.fragments + 1) in
        OnOk result (links.new.items ≡ (links.old.items ++ chains writers) ++ read_links catalogue.now marks.now txns.now writers) }
{
    let writers = of_fragments(alloc, catalogue, txns)?;
    writers.add_chains(links)?;
    link_readers(links, catalogue, marks, txns, &writers)
}

/// The writers of each fragment.
fn of_fragments(
    alloc: Global,
    catalogue: &Catalogue,
    txns: &[Committed<'_>],
) -> Result<Groups, NoMemory>
    ensures { IfOk result (λ made. made ≡ groups (by_fragment txns.now) (length catalogue.now.fragments + 1)) }
{
    let pairs = fragment_pairs(alloc, txns)?;
    Groups::of(alloc, &pairs, catalogue.fragments() as usize + 1)
}

/// Adds the links between writers of fragments and the transactions that read these.
fn link_readers(
    links: &mut Vec<(usize, usize)>,
    catalogue: &Catalogue,
    marks: &Marks,
    txns: &[Committed<'_>],
    writers: &Groups,
) -> Result<(), NoMemory>
    requires exist { All (λ t. IsClass catalogue.now t.start.class × All (UseExists catalogue.now) t.start.uses) txns.now }
    ensures { OnOk result (links.new.items ≡ links.old.items ++ read_links catalogue.now marks.now txns.now writers.now) }
{
    for (place, reader) in txns.iter().enumerate() {
        link_uses(links, catalogue, marks, txns, writers, place, reader)?;
    }
    Ok(())
}

/// Each transaction with its class.
fn class_pairs(alloc: Global, txns: &[Committed<'_>]) -> Result<Vec<(usize, usize)>, NoMemory>
    ensures { IfOk result (λ made. made.items ≡ by_class txns.now) }
{
    let mut made = Vec::new(alloc);
    for (place, txn) in txns.iter().enumerate() {
        made.push((txn.class().0 as usize, place))?;
    }
    Ok(made)
}

/// Each transaction with each fragment that it changes.
fn fragment_pairs(alloc: Global, txns: &[Committed<'_>]) -> Result<Vec<(usize, usize)>, NoMemory>
    ensures { IfOk result (λ made. made.items ≡ by_fragment txns.now) }
{
    let mut made = Vec::new(alloc);
    for (place, txn) in txns.iter().enumerate() {
        pair_changes(&mut made, place, txn.changes())?;
    }
    Ok(made)
}

/// Adds a transaction with the fragment of each of its changes.
fn pair_changes(
    made: &mut Vec<(usize, usize)>,
    place: usize,
    changes: &[Change],
) -> Result<(), NoMemory>
    ensures { OnOk result (made.new.items ≡ made.old.items ++ map (λ c. (c.frag.0, place)) changes.now) }
{
    for change in changes {
        made.push((change.frag.0 as usize, place))?;
    }
    Ok(())
}
