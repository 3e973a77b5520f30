ghost use Rattle.std.specs.Prelude.{◌≡◌, ◌≤◌, ◌<◌, ◌*◌, ◌++◌, length, All, IfOk, OnOk};
ghost use Rattle.std.specs.List.{flat_map};
ghost use Rattle.sdd_graph.specs.Edges.{IsEdgeOf};
ghost use Rattle.sdd_advise.specs.Advices.{IsGood};
ghost use Rattle.sdd_advise.specs.Texts as shown;

use crate::advice::Advice;
use crate::advising::advise;
use sdd_base::{ClassNo, FragNo, NoMemory};
use sdd_catalog::Catalogue;
use sdd_graph::Edge;
use sdd_protocol::Protocol;
use sdd_words::{put, put_count};
use std::alloc::Global;

/// The text of good advice for each diagonal of the catalogue's conflict graph, in their order.
///
/// The first line of an advice says what the reader reads, where, who writes it, and the protocol; then
/// each edge of the cycle has a line, and the nodes apart have one, but for P3. Costs what `advise` does,
/// and time linear in the text.
pub fn advice_text(alloc: Global, catalogue: &Catalogue) -> Result<Vec<u8>, NoMemory>
    ensures { IfOk result (λ text. shown.IsAdviceText catalogue.now text.items) }
{
    let advices = advise(alloc, catalogue)?;
    let mut text = Vec::new(alloc);
    put_advices(&mut text, catalogue, &advices)?;
    Ok(text)
}

fn put_advices(out: &mut Vec<u8>, catalogue: &Catalogue, advices: &[Advice]) -> Result<(), NoMemory>
    requires { All (IsGood catalogue.now) advices.now }
    ensures { OnOk result (out.new.items
        ≡ out.old.items ++ shown.advices_text catalogue.now advices.now) }
{
    'advices: for advice in advices {
        put_advice(out, catalogue, advice)?;
    }
    Ok(())
}

fn put_advice(out: &mut Vec<u8>, catalogue: &Catalogue, advice: &Advice) -> Result<(), NoMemory>
    requires { IsGood catalogue.now advice.now }
    ensures { OnOk result (out.new.items
        ≡ out.old.items ++ shown.advice_lines catalogue.now advice.now) }
{
    put_first_line(out, catalogue, advice.protocol, &advice.edge)?;
    put_cycle(out, catalogue, advice.cycle.as_slice())?;
    put_apart(out, catalogue, advice.protocol, advice.apart.as_slice())
}

/// The first line of a diagonal's advice; another edge has none.
fn put_first_line(
    out: &mut Vec<u8>,
    catalogue: &Catalogue,
    protocol: Protocol,
    edge: &Edge,
) -> Result<(), NoMemory>
    requires { IsEdgeOf catalogue.now edge.now }
    ensures { OnOk result (out.new.items
        ≡ out.old.items ++ shown.first_line catalogue.now protocol edge.now) }
{
    match edge {
        Edge::Vertical(_) => Ok(()),
        Edge::Horizontal(_, _) => Ok(()),
        Edge::Diagonal(reader, writer, frag) => {
            put_read(out, catalogue, *reader, *frag)?;
            put_writer(out, catalogue, *writer, protocol)?;
            put(out, b"\n")
        }
    }
}

/// Which fragment a class reads, and where.
fn put_read(
    out: &mut Vec<u8>,
    catalogue: &Catalogue,
    class: ClassNo,
    frag: FragNo,
) -> Result<(), NoMemory>
    requires class_from { 1 ≤ class.0 }
    requires class_to { class.0 ≤ length catalogue.now.classes }
    requires from { 1 ≤ frag.0 }
    requires to { frag.0 ≤ length catalogue.now.fragments }
    ensures { OnOk result (out.new.items ≡ out.old.items ++ shown.read_words catalogue.now class frag) }
{
    put_class(out, catalogue, class)?;
    put(out, b" reads ")?;
    put_fragment(out, catalogue, frag)?;
    put(out, b" at D")?;
    put_module(out, catalogue, class, frag)
}

/// The number of the module at which the class reads the fragment.
fn put_module(
    out: &mut Vec<u8>,
    catalogue: &Catalogue,
    class: ClassNo,
    frag: FragNo,
) -> Result<(), NoMemory>
    requires class { class.0 ≤ length catalogue.now.classes }
    requires from { 1 ≤ frag.0 }
    requires to { frag.0 ≤ length catalogue.now.fragments }
    ensures { OnOk result (out.new.items
        ≡ out.old.items ++ shown.module_number catalogue.now class frag) }
{
    match catalogue.reads_at(class, frag) {
        Some(module) => put_count(out, u64::from(module.0)),
        None => put_count(out, 0),
    }
}

/// Who writes it, and the protocol.
fn put_writer(
    out: &mut Vec<u8>,
    catalogue: &Catalogue,
    class: ClassNo,
    protocol: Protocol,
) -> Result<(), NoMemory>
    requires from { 1 ≤ class.0 }
    requires to { class.0 ≤ length catalogue.now.classes }
    ensures { OnOk result (out.new.items
        ≡ out.old.items ++ shown.writer_words catalogue.now class protocol) }
{
    put(out, b" writer ")?;
    put_class(out, catalogue, class)?;
    put(out, b" ")?;
    put_protocol(out, protocol)
}

fn put_protocol(out: &mut Vec<u8>, protocol: Protocol) -> Result<(), NoMemory>
    ensures { OnOk result (out.new.items ≡ out.old.items ++ shown.protocol_word protocol) }
{
    match protocol {
        Protocol::P1 => put(out, b"P1"),
        Protocol::P2 => put(out, b"P2"),
        Protocol::P3 => put(out, b"P3"),
    }
}

/// One line for each edge of the cycle.
fn put_cycle(out: &mut Vec<u8>, catalogue: &Catalogue, cycle: &[Edge]) -> Result<(), NoMemory>
    requires { All (IsEdgeOf catalogue.now) cycle.now }
    ensures { OnOk result (out.new.items
        ≡ out.old.items ++ flat_map (shown.cycle_line catalogue.now) cycle.now) }
{
    'edges: for edge in cycle {
        put_cycle_line(out, catalogue, edge)?;
    }
    Ok(())
}

fn put_cycle_line(out: &mut Vec<u8>, catalogue: &Catalogue, edge: &Edge) -> Result<(), NoMemory>
    requires { IsEdgeOf catalogue.now edge.now }
    ensures { OnOk result (out.new.items ≡ out.old.items ++ shown.cycle_line catalogue.now edge.now) }
{
    put(out, b"by ")?;
    put_edge(out, catalogue, edge)?;
    put(out, b"\n")
}

/// What an edge is, and what it joins.
fn put_edge(out: &mut Vec<u8>, catalogue: &Catalogue, edge: &Edge) -> Result<(), NoMemory>
    requires { IsEdgeOf catalogue.now edge.now }
    ensures { OnOk result (out.new.items ≡ out.old.items ++ shown.edge_words catalogue.now edge.now) }
{
    match edge {
        Edge::Vertical(class) => {
            put(out, b"vertical ")?;
            put_class(out, catalogue, *class)
        }
        Edge::Horizontal(first, second) => {
            put(out, b"horizontal ")?;
            put_classes(out, catalogue, *first, *second)
        }
        Edge::Diagonal(reader, writer, frag) => {
            put(out, b"diagonal ")?;
            put_classes(out, catalogue, *reader, *writer)?;
            put(out, b" ")?;
            put_fragment(out, catalogue, *frag)
        }
    }
}

/// The names of two classes.
fn put_classes(
    out: &mut Vec<u8>,
    catalogue: &Catalogue,
    first: ClassNo,
    second: ClassNo,
) -> Result<(), NoMemory>
    requires first_from { 1 ≤ first.0 }
    requires first_to { first.0 ≤ length catalogue.now.classes }
    requires second_from { 1 ≤ second.0 }
    requires second_to { second.0 ≤ length catalogue.now.classes }
    ensures { OnOk result (out.new.items
        ≡ out.old.items ++ shown.two_words
        (shown.class_name catalogue.now first) (shown.class_name catalogue.now second)) }
{
    put_class(out, catalogue, first)?;
    put(out, b" ")?;
    put_class(out, catalogue, second)
}

fn put_class(out: &mut Vec<u8>, catalogue: &Catalogue, class: ClassNo) -> Result<(), NoMemory>
    requires from { 1 ≤ class.0 }
    requires to { class.0 ≤ length catalogue.now.classes }
    ensures { OnOk result (out.new.items ≡ out.old.items ++ shown.class_name catalogue.now class) }
{
    put(out, catalogue.class(class).name.as_str().as_bytes())
}

fn put_fragment(out: &mut Vec<u8>, catalogue: &Catalogue, frag: FragNo) -> Result<(), NoMemory>
    requires from { 1 ≤ frag.0 }
    requires to { frag.0 ≤ length catalogue.now.fragments }
    ensures { OnOk result (out.new.items ≡ out.old.items ++ shown.fragment_name catalogue.now frag) }
{
    put(out, catalogue.fragment(frag).name.as_str().as_bytes())
}

/// The line of the nodes apart, which P3 hasn't.
fn put_apart(
    out: &mut Vec<u8>,
    catalogue: &Catalogue,
    protocol: Protocol,
    nodes: &[u32],
) -> Result<(), NoMemory>
    requires { All (λ node. node < 2 * length catalogue.now.classes) nodes.now }
    ensures { OnOk result (out.new.items
        ≡ out.old.items ++ shown.apart_line catalogue.now protocol nodes.now) }
{
    match protocol {
        Protocol::P1 => put_nodes_line(out, catalogue, nodes),
        Protocol::P2 => put_nodes_line(out, catalogue, nodes),
        Protocol::P3 => Ok(()),
    }
}

fn put_nodes_line(out: &mut Vec<u8>, catalogue: &Catalogue, nodes: &[u32]) -> Result<(), NoMemory>
    requires { All (λ node. node < 2 * length catalogue.now.classes) nodes.now }
    ensures { OnOk result (out.new.items ≡ out.old.items ++ shown.nodes_line catalogue.now nodes.now) }
{
    put(out, b"apart")?;
    put_nodes(out, catalogue, nodes)?;
    put(out, b"\n")
}

fn put_nodes(out: &mut Vec<u8>, catalogue: &Catalogue, nodes: &[u32]) -> Result<(), NoMemory>
    requires { All (λ node. node < 2 * length catalogue.now.classes) nodes.now }
    ensures { OnOk result (out.new.items
        ≡ out.old.items ++ flat_map (shown.spaced_node catalogue.now) nodes.now) }
{
    'nodes: for node in nodes {
        put_node(out, catalogue, *node)?;
    }
    Ok(())
}

/// A node, with a space before it: whether it is a read or a write node, and of which class.
fn put_node(out: &mut Vec<u8>, catalogue: &Catalogue, node: u32) -> Result<(), NoMemory>
    requires { node < 2 * length catalogue.now.classes }
    ensures { OnOk result (out.new.items ≡ out.old.items ++ shown.spaced_node catalogue.now node) }
{
    if node % 2 == 0 {
        put(out, b" r:")?;
    } else {
        put(out, b" w:")?;
    }
    put_class(out, catalogue, ClassNo(node / 2 + 1))
}
