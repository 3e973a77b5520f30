ghost use Rattle.std.specs.Prelude.{◌≡◌, ◌&&◌, ◌==◌, option_map, IfOk};
ghost use Rattle.sdd_protocol.specs.FragmentMarks.{is_marked};
ghost use Rattle.sdd_protocol.specs.Attempts.{condition_by};
ghost use Rattle.sdd_protocol.specs.Conditions.{asked_on, asked_in, asked_by, cond_for, condition_under, protocol_between, time_asked};
ghost use Rattle.sdd_protocol.specs.Protocols.{is_between};

use crate::asked::Asked;
use crate::attempt::Attempt;
use crate::entry::Entry;
use crate::protocol::Protocol;
use sdd_base::{ClassNo, Cond, FragNo, Frags, NoMemory, Ts};
use sdd_graph::Edge;
use std::alloc::Global;

/// The condition on a writer, where the protocol between it and the reader sets one. Two passes over the
/// entries, the first up to a diagonal between them; where there is none, or it asks nothing, no memory is taken.
pub(crate) fn condition_on(
    alloc: Global,
    entries: &[Entry],
    asked: &Asked,
    attempt: Attempt,
    writer: ClassNo,
) -> Result<Option<Cond>, NoMemory>
    ensures { IfOk result (λ found.
        found ≡ condition_by (is_marked asked.now) entries.now attempt writer.0) }
{
    match protocol_between(entries, attempt.class, writer) {
        Some(protocol) => condition_under(alloc, entries, protocol, asked, attempt, writer),
        None => Ok(None),
    }
}

/// The protocol that the reader follows toward the writer, where a diagonal leads there.
fn protocol_between(entries: &[Entry], reader: ClassNo, writer: ClassNo) -> Option<Protocol>
    ensures { result ≡ protocol_between entries.now reader.0 writer.0 }
{
    entries
        .iter()
        .find(|entry| is_between(entry.edge, reader, writer))
        .map(|entry| entry.protocol)
}

/// What the protocol asks of the writer.
fn condition_under(
    alloc: Global,
    entries: &[Entry],
    protocol: Protocol,
    asked: &Asked,
    attempt: Attempt,
    writer: ClassNo,
) -> Result<Option<Cond>, NoMemory>
    ensures { IfOk result (λ found.
        found
        ≡ condition_under (is_marked asked.now) entries.now attempt.class.0 attempt.own.0
        attempt.p2.0 writer.0 protocol) }
{
    let Some(time) = time_asked(attempt, protocol) else {
        return Ok(None);
    };
    let frags = asked_by(alloc, entries, protocol, asked, attempt.class, writer)?;
    Ok(cond_for(writer, time, frags))
}

/// The time up to which a protocol asks.
fn time_asked(attempt: Attempt, protocol: Protocol) -> Option<Ts>
    ensures { option_map (λ t. t.0) result ≡ time_asked attempt.own.0 attempt.p2.0 protocol }
{
    match protocol {
        Protocol::P1 => None,
        Protocol::P2 => Some(attempt.p2),
        Protocol::P3 => Some(attempt.own),
    }
}

/// A condition for the fragments, where there are some.
fn cond_for(class: ClassNo, time: Ts, frags: Vec<FragNo>) -> Option<Cond>
    ensures { result ≡ cond_for class.0 time.0 frags.items }
{
    if frags.is_empty() {
        return None;
    }
    Some(Cond {
        class,
        time,
        frags: Frags::from_vec(frags),
    })
}

/// The fragments of the diagonals of the protocol, from the reader to the writer, that are asked for.
fn asked_by(
    alloc: Global,
    entries: &[Entry],
    protocol: Protocol,
    asked: &Asked,
    reader: ClassNo,
    writer: ClassNo,
) -> Result<Vec<FragNo>, NoMemory>
    ensures { IfOk result (λ frags.
        frags.items ≡ asked_by protocol (is_marked asked.now) entries.now reader.0 writer.0) }
{
    Ok(
        entries
            .iter()
            .filter_map(|entry| asked_in(entry, protocol, asked, reader, writer))
            .collect(alloc)?,
    )
}

/// The fragment of an entry, where it is such a diagonal.
fn asked_in(
    entry: &Entry,
    protocol: Protocol,
    asked: &Asked,
    reader: ClassNo,
    writer: ClassNo,
) -> Option<FragNo>
    ensures { result ≡ asked_in protocol (is_marked asked.now) reader.0 writer.0 entry.now }
{
    if entry.protocol.is(protocol) {
        asked_on(entry.edge, asked, reader, writer)
    } else {
        None
    }
}

/// The fragment of an edge, where it is a diagonal from the reader to the writer for one that is asked for.
fn asked_on(edge: Edge, asked: &Asked, reader: ClassNo, writer: ClassNo) -> Option<FragNo>
    ensures { result ≡ asked_on (is_marked asked.now) reader.0 writer.0 edge }
{
    match edge {
        Edge::Diagonal(i, j, frag) => {
            if i == reader && (j == writer && asked.has(frag)) {
                Some(frag)
            } else {
                None
            }
        }
        Edge::Vertical(_) | Edge::Horizontal(_, _) => None,
    }
}

/// Whether the edge is a diagonal from the reader to the writer.
fn is_between(edge: Edge, reader: ClassNo, writer: ClassNo) -> bool
    ensures { result ≡ is_between reader.0 writer.0 edge }
{
    match edge {
        Edge::Diagonal(i, j, _) => i == reader && j == writer,
        Edge::Vertical(_) | Edge::Horizontal(_, _) => false,
    }
}
