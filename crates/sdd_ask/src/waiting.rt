//! Which classes wait for which: the pairs with a diagonal of P2 or P3.
ghost use Rattle.std.specs.Prelude.{ℕ, ◌≡◌, ◌<◌, ◌||◌, All, IfOk, length};
ghost use Rattle.sdd_graph.specs.Edges.{NamesClasses};
ghost use Rattle.sdd_ask.specs.Flags.{Tells, flag_at};
ghost use Rattle.sdd_outage.specs.Waiting.{asks, is_wait, waits_for};

use crate::flags::{CELLS, WIDTH};
use sdd_base::NoMemory;
use sdd_graph::Edge;
use sdd_protocol::{Entry, Protocol};
use std::alloc::Global;

/// Which classes wait for which, by the entries of a table. One pass.
pub(crate) fn waits(alloc: Global, entries: &[Entry]) -> Result<Vec<bool>, NoMemory>
    requires { All (λ e. NamesClasses e.edge) entries.now }
    ensures { IfOk result (λ flags. Tells flags.items (waits_for entries.now)) }
{
    let mut flags = vec![in alloc; false; CELLS as usize]?;
    'entries: for entry in entries {
        mark(&mut flags, entry);
    }
    Ok(flags)
}

/// Sets the flag of the entry's two classes, where its reader waits.
fn mark(flags: &mut [bool], entry: &Entry)
    requires cells { length flags.old ≡ CELLS }
    requires named { NamesClasses entry.now.edge }
    ensures { (i j : ℕ) → i < WIDTH → j < WIDTH
        → flag_at flags.new i j ≡ (flag_at flags.old i j || is_wait i j entry.now) }
{
    match &entry.edge {
        Edge::Vertical(_) => {}
        Edge::Horizontal(_, _) => {}
        Edge::Diagonal(reader, writer, _) => {
            if asks(entry.protocol) {
                flags[(reader.0 * WIDTH + writer.0) as usize] = true;
            }
        }
    }
}

/// Whether a reader with the protocol waits for the writer.
fn asks(protocol: Protocol) -> bool
    ensures { result ≡ asks protocol }
{
    match protocol {
        Protocol::P1 => false,
        Protocol::P2 => true,
        Protocol::P3 => true,
    }
}
