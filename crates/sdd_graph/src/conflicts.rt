ghost use Rattle.std.specs.Prelude.{◌≡◌, ◌≤◌, ◌^◌, ◌++◌, ◌&&◌, nat_lt, length, IfOk, OnOk};
ghost use Rattle.std.specs.List.{All};
ghost use Rattle.sdd_graph.specs.Edges.{IsClassOf, IsEdgeOf, NamesClasses, JoinsNodes};
ghost use Rattle.sdd_graph.specs.Graph.{conflict_graph, vertical_edges, horizontal_edges, horizontals_from, diagonal_edges, diagonals_from, diagonals_between, write_sets_meet};

use crate::edge::Edge;
use crate::uses::Uses;
use sdd_base::{ClassNo, FragNo, NoMemory};
use sdd_catalog::Catalogue;
use std::alloc::Global;

/// The edges of the catalogue's conflict graph: first the vertical one of each class, ascending; then the
/// horizontal ones, by their two classes; then the diagonal ones, by reader, writer and fragment, one
/// for each fragment that the one reads and the other writes.
///
/// Each edge names classes and a fragment that are there, and joins two nodes that differ; there are at
/// most 2^20. Costs time in the classes times the fragments times the classes or the reads of a class,
/// whichever are more, and memory for the edges and for a flag for each class and fragment.
pub fn conflict_graph(alloc: Global, catalogue: &Catalogue) -> Result<Vec<Edge>, NoMemory>
    ensures edges { IfOk result (λ edges. edges.items ≡ conflict_graph catalogue.now) }
    ensures known { IfOk result (λ edges. All (IsEdgeOf catalogue.now) edges.items) }
    ensures named { IfOk result (λ edges. All NamesClasses edges.items) }
    ensures nodes { IfOk result (λ edges. All (JoinsNodes (length catalogue.now.classes)) edges.items) }
    ensures few { IfOk result (λ edges. length edges.items ≤ 2 ^ 20) }
{
    catalogue.law_is_sound();
    let edges = edges_of(alloc, catalogue)?;
    Ok(edges)
}

fn edges_of(alloc: Global, catalogue: &Catalogue) -> Result<Vec<Edge>, NoMemory>
    ensures { IfOk result (λ edges. edges.items ≡ conflict_graph catalogue.now) }
{
    let uses = Uses::of(alloc, catalogue)?;
    let mut edges = vertical_edges(alloc, &uses)?;
    push_horizontals(&uses, &mut edges)?;
    push_diagonals(&uses, &mut edges)?;
    Ok(edges)
}

fn vertical_edges(alloc: Global, uses: &Uses) -> Result<Vec<Edge>, NoMemory>
    ensures { IfOk result (λ edges. edges.items ≡ vertical_edges uses.now) }
{
    Ok(
        (1..uses.classes() + 1)
            .map(|i| Edge::Vertical(ClassNo(i)))
            .collect(alloc)?,
    )
}

fn push_horizontals(uses: &Uses, edges: &mut Vec<Edge>) -> Result<(), NoMemory>
    ensures { OnOk result (edges.new.items ≡ edges.old.items ++ horizontal_edges uses.now) }
{
    for i in 1..uses.classes() + 1 {
        push_horizontals_from(uses, i, edges)?;
    }
    Ok(())
}

fn push_horizontals_from(uses: &Uses, i: u32, edges: &mut Vec<Edge>) -> Result<(), NoMemory>
    requires { IsClassOf uses.now i }
    ensures { OnOk result (edges.new.items ≡ edges.old.items ++ horizontals_from uses.now i) }
{
    for j in 1..uses.classes() + 1 {
        if are_joined(uses, i, j) {
            edges.push(Edge::Horizontal(ClassNo(i), ClassNo(j)))?;
        }
    }
    Ok(())
}

/// Whether a horizontal edge leads from the first class to the second.
fn are_joined(uses: &Uses, i: u32, j: u32) -> bool
    requires first { IsClassOf uses.now i }
    requires second { IsClassOf uses.now j }
    ensures { result ≡ (nat_lt i j && write_sets_meet uses.now i j) }
{
    i < j && uses.meet(i, j)
}

fn push_diagonals(uses: &Uses, edges: &mut Vec<Edge>) -> Result<(), NoMemory>
    ensures { OnOk result (edges.new.items ≡ edges.old.items ++ diagonal_edges uses.now) }
{
    for i in 1..uses.classes() + 1 {
        push_diagonals_from(uses, i, edges)?;
    }
    Ok(())
}

fn push_diagonals_from(uses: &Uses, i: u32, edges: &mut Vec<Edge>) -> Result<(), NoMemory>
    requires { IsClassOf uses.now i }
    ensures { OnOk result (edges.new.items ≡ edges.old.items ++ diagonals_from uses.now i) }
{
    for j in 1..uses.classes() + 1 {
        push_diagonals_between(uses, i, j, edges)?;
    }
    Ok(())
}

fn push_diagonals_between(
    uses: &Uses,
    i: u32,
    j: u32,
    edges: &mut Vec<Edge>,
) -> Result<(), NoMemory>
    requires reader { IsClassOf uses.now i }
    requires writer { IsClassOf uses.now j }
    ensures { OnOk result (edges.new.items ≡ edges.old.items ++ diagonals_between uses.now i j) }
{
    if i == j {
        return Ok(());
    }
    for f in uses.reads(i) {
        if uses.writes(j, *f) {
            edges.push(Edge::Diagonal(ClassNo(i), ClassNo(j), FragNo(*f)))?;
        }
    }
    Ok(())
}
