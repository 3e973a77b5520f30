ghost use Rattle.std.specs.Prelude.{◌≡◌, ◌++◌, find, option_copied, All, IfOk, OnOk};
ghost use Rattle.sdd_graph.specs.Edges.{IsEdgeOf};
ghost use Rattle.sdd_ask.specs.Robust.{IsRobustText, asks_for_own_time, first_p3, isolation_text, not_shown, reason_line};

use crate::naming::{put_class, put_fragment};
use sdd_base::NoMemory;
use sdd_catalog::Catalogue;
use sdd_graph::Edge;
use sdd_protocol::{Entry, Protocol, table};
use sdd_words::put;
use std::alloc::Global;

/// Whether snapshot isolation is enough for the classes of the catalogue, each of which runs its
/// transactions one after the other: one line that says so, or one that it isn't shown and one with the
/// first read that has P3. Costs what the protocol table does.
pub fn robust_text(alloc: Global, catalogue: &Catalogue) -> Result<Vec<u8>, NoMemory>
    ensures { IfOk result (λ text. IsRobustText catalogue.now text.items) }
{
    let table = table(alloc, catalogue)?;
    let mut text = Vec::new(alloc);
    put_isolation(&mut text, catalogue, table.entries())?;
    Ok(text)
}

fn put_isolation(
    out: &mut Vec<u8>,
    catalogue: &Catalogue,
    entries: &[Entry],
) -> Result<(), NoMemory>
    requires { All (λ e. IsEdgeOf catalogue.now e.edge) entries.now }
    ensures { OnOk result (out.new.items
        ≡ out.old.items ++ isolation_text catalogue.now (first_p3 entries.now)) }
{
    match find_p3(entries) {
        None => put(out, b"snapshot isolation: enough\n"),
        Some(entry) => put_not_shown(out, catalogue, &entry.edge),
    }
}

fn put_not_shown(out: &mut Vec<u8>, catalogue: &Catalogue, edge: &Edge) -> Result<(), NoMemory>
    requires { IsEdgeOf catalogue.now edge.now }
    ensures { OnOk result (out.new.items ≡ out.old.items ++ not_shown catalogue.now edge.now) }
{
    put(out, b"snapshot isolation: not shown\n")?;
    put_reason(out, catalogue, edge)
}

/// The first entry with P3.
fn find_p3(entries: &[Entry]) -> Option<&Entry>
    ensures { option_copied result ≡ first_p3 entries.now }
{
    entries.iter().find(|entry| has_p3(entry))
}

fn has_p3(entry: &Entry) -> bool
    ensures { result ≡ asks_for_own_time entry.now }
{
    match entry.protocol {
        Protocol::P1 => false,
        Protocol::P2 => false,
        Protocol::P3 => true,
    }
}

/// What is read, and by whom and who writes it, where the edge is a diagonal; another edge has no line.
fn put_reason(out: &mut Vec<u8>, catalogue: &Catalogue, edge: &Edge) -> Result<(), NoMemory>
    requires { IsEdgeOf catalogue.now edge.now }
    ensures { OnOk result (out.new.items ≡ out.old.items ++ reason_line catalogue.now edge.now) }
{
    match edge {
        Edge::Vertical(_) => Ok(()),
        Edge::Horizontal(_, _) => Ok(()),
        Edge::Diagonal(reader, writer, frag) => {
            put_class(out, catalogue, *reader)?;
            put(out, b" reads ")?;
            put_fragment(out, catalogue, *frag)?;
            put(out, b", which ")?;
            put_class(out, catalogue, *writer)?;
            put(out, b" writes\n")
        }
    }
}
