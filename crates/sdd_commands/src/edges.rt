//! The text of a conflict graph and of a protocol table.
ghost use Rattle.std.specs.Prelude.{◌≡◌, ◌≤◌, ◌++◌, length, All, IfOk, OnOk};
ghost use Rattle.sdd_graph.specs.Edges.{IsEdgeOf};
ghost use Rattle.sdd_protocol.specs.Protocols.{IsTable};
ghost use Rattle.sdd_commands.specs.Edges as shown;

use sdd_graph::Edge;
use sdd_lang::{Catalogue, ClassNo, FragNo, NoMemory};
use sdd_protocol::{Entry, Protocol, Table};
use sdd_words::{put, put_count};
use std::alloc::Global;

fn put_class(out: &mut Vec<u8>, catalogue: &Catalogue, class: ClassNo) -> Result<(), NoMemory>
    requires from { 1 ≤ class.0 }
    requires to { class.0 ≤ length catalogue.now.classes }
    ensures { OnOk result (out.new.items ≡ out.old.items ++ shown.class_name catalogue.now class) }
{
    put(out, catalogue.class(class).name.as_str().as_bytes())
}

fn put_fragment(out: &mut Vec<u8>, catalogue: &Catalogue, frag: FragNo) -> Result<(), NoMemory>
    requires from { 1 ≤ frag.0 }
    requires to { frag.0 ≤ length catalogue.now.fragments }
    ensures { OnOk result (out.new.items ≡ out.old.items ++ shown.fragment_name catalogue.now frag) }
{
    put(out, catalogue.fragment(frag).name.as_str().as_bytes())
}

/// The number of a block, `-` for none.
fn put_block(out: &mut Vec<u8>, block: u32) -> Result<(), NoMemory>
    ensures { OnOk result (out.new.items ≡ out.old.items ++ shown.block_word block) }
{
    if block == 0 {
        put(out, b"-")
    } else {
        put_count(out, u64::from(block))
    }
}

/// The end of an edge's line.
fn put_block_end(out: &mut Vec<u8>, block: u32) -> Result<(), NoMemory>
    ensures { OnOk result (out.new.items ≡ out.old.items ++ shown.block_end block) }
{
    put(out, b" block ")?;
    put_block(out, block)?;
    put(out, b"\n")
}

/// The names of two classes.
fn put_classes(
    out: &mut Vec<u8>,
    catalogue: &Catalogue,
    first: ClassNo,
    second: ClassNo,
) -> Result<(), NoMemory>
    requires first_from { 1 ≤ first.0 }
    requires first_to { first.0 ≤ length catalogue.now.classes }
    requires second_from { 1 ≤ second.0 }
    requires second_to { second.0 ≤ length catalogue.now.classes }
    ensures { OnOk result (out.new.items ≡ out.old.items ++ shown.two_words (shown.class_name catalogue.now first) (shown.class_name catalogue.now second)) }
{
    put_class(out, catalogue, first)?;
    put(out, b" ")?;
    put_class(out, catalogue, second)
}

/// What an edge is, and what it joins.
fn put_edge(out: &mut Vec<u8>, catalogue: &Catalogue, edge: &Edge) -> Result<(), NoMemory>
    requires { IsEdgeOf catalogue.now edge.now }
    ensures { OnOk result (out.new.items ≡ out.old.items ++ shown.edge_words catalogue.now edge.now) }
{
    match edge {
        Edge::Vertical(class) => {
            put(out, b"vertical ")?;
            put_class(out, catalogue, *class)
        }
        Edge::Horizontal(first, second) => {
            put(out, b"horizontal ")?;
            put_classes(out, catalogue, *first, *second)
        }
        Edge::Diagonal(reader, writer, frag) => {
            put(out, b"diagonal ")?;
            put_classes(out, catalogue, *reader, *writer)?;
            put(out, b" ")?;
            put_fragment(out, catalogue, *frag)
        }
    }
}

fn put_edge_line(out: &mut Vec<u8>, catalogue: &Catalogue, entry: &Entry) -> Result<(), NoMemory>
    requires { IsEdgeOf catalogue.now entry.now.edge }
    ensures { OnOk result (out.new.items ≡ out.old.items ++ shown.edge_line catalogue.now entry.now) }
{
    put_edge(out, catalogue, &entry.edge)?;
    put_block_end(out, entry.block)
}

fn put_protocol(out: &mut Vec<u8>, protocol: Protocol) -> Result<(), NoMemory>
    ensures { OnOk result (out.new.items ≡ out.old.items ++ shown.protocol_word protocol) }
{
    match protocol {
        Protocol::P1 => put(out, b"P1"),
        Protocol::P2 => put(out, b"P2"),
        Protocol::P3 => put(out, b"P3"),
    }
}

/// The number of the module at which the class reads the fragment.
fn put_module(
    out: &mut Vec<u8>,
    catalogue: &Catalogue,
    class: ClassNo,
    frag: FragNo,
) -> Result<(), NoMemory>
    requires class { class.0 ≤ length catalogue.now.classes }
    requires from { 1 ≤ frag.0 }
    requires to { frag.0 ≤ length catalogue.now.fragments }
    ensures { OnOk result (out.new.items ≡ out.old.items ++ shown.module_number catalogue.now class frag) }
{
    match catalogue.reads_at(class, frag) {
        Some(module) => put_count(out, u64::from(module.0)),
        None => put_count(out, 0),
    }
}

/// Which fragment a class reads, and where.
fn put_read(
    out: &mut Vec<u8>,
    catalogue: &Catalogue,
    class: ClassNo,
    frag: FragNo,
) -> Result<(), NoMemory>
    requires class_from { 1 ≤ class.0 }
    requires class_to { class.0 ≤ length catalogue.now.classes }
    requires from { 1 ≤ frag.0 }
    requires to { frag.0 ≤ length catalogue.now.fragments }
    ensures { OnOk result (out.new.items ≡ out.old.items ++ shown.read_words catalogue.now class frag) }
{
    put_class(out, catalogue, class)?;
    put(out, b" reads ")?;
    put_fragment(out, catalogue, frag)?;
    put(out, b" at D")?;
    put_module(out, catalogue, class, frag)
}

/// Who writes it, and the protocol.
fn put_writer(
    out: &mut Vec<u8>,
    catalogue: &Catalogue,
    class: ClassNo,
    protocol: Protocol,
) -> Result<(), NoMemory>
    requires from { 1 ≤ class.0 }
    requires to { class.0 ≤ length catalogue.now.classes }
    ensures { OnOk result (out.new.items ≡ out.old.items ++ shown.writer_words catalogue.now class protocol) }
{
    put(out, b" writer ")?;
    put_class(out, catalogue, class)?;
    put(out, b" ")?;
    put_protocol(out, protocol)
}

/// The line of a diagonal; another edge has none.
fn put_diagonal_line(
    out: &mut Vec<u8>,
    catalogue: &Catalogue,
    entry: &Entry,
) -> Result<(), NoMemory>
    requires { IsEdgeOf catalogue.now entry.now.edge }
    ensures { OnOk result (out.new.items ≡ out.old.items ++ shown.diagonal_line catalogue.now entry.now.protocol entry.now.block entry.now.edge) }
{
    match &entry.edge {
        Edge::Vertical(_) => Ok(()),
        Edge::Horizontal(_, _) => Ok(()),
        Edge::Diagonal(reader, writer, frag) => {
            put_read(out, catalogue, *reader, *frag)?;
            put_writer(out, catalogue, *writer, entry.protocol)?;
            put_block_end(out, entry.block)
        }
    }
}

fn put_edge_lines(
    out: &mut Vec<u8>,
    catalogue: &Catalogue,
    entries: &[Entry],
) -> Result<(), NoMemory>
    requires { All (λ e. IsEdgeOf catalogue.now e.edge) entries.now }
    ensures { OnOk result (out.new.items ≡ out.old.items ++ shown.graph_text catalogue.now entries.now) }
{
    'entries: for entry in entries {
        put_edge_line(out, catalogue, entry)?;
    }
    Ok(())
}

fn put_diagonal_lines(
    out: &mut Vec<u8>,
    catalogue: &Catalogue,
    entries: &[Entry],
) -> Result<(), NoMemory>
    requires { All (λ e. IsEdgeOf catalogue.now e.edge) entries.now }
    ensures { OnOk result (out.new.items ≡ out.old.items ++ shown.table_text catalogue.now entries.now) }
{
    'entries: for entry in entries {
        put_diagonal_line(out, catalogue, entry)?;
    }
    Ok(())
}

/// One line for each edge, in their order. Costs time in the length of the text.
#[tactic(auto, using(crate::proofs::Entries::entries_known))]
pub fn graph_text(alloc: Global, catalogue: &Catalogue, table: &Table) -> Result<Vec<u8>, NoMemory>
    requires { IsTable catalogue.now table.now }
    ensures { IfOk result (λ v. v.items ≡ shown.graph_text catalogue.now table.now) }
{
    let mut text = Vec::new(alloc);
    put_edge_lines(&mut text, catalogue, table.entries())?;
    Ok(text)
}

/// One line for each diagonal, in their order. Costs time in the edges and, for each diagonal, in the
/// reads of its class.
#[tactic(auto, using(crate::proofs::Entries::entries_known))]
pub fn table_text(alloc: Global, catalogue: &Catalogue, table: &Table) -> Result<Vec<u8>, NoMemory>
    requires { IsTable catalogue.now table.now }
    ensures { IfOk result (λ v. v.items ≡ shown.table_text catalogue.now table.now) }
{
    let mut text = Vec::new(alloc);
    put_diagonal_lines(&mut text, catalogue, table.entries())?;
    Ok(text)
}
