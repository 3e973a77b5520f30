//! The lines of the text.
ghost use Rattle.std.specs.Prelude.{◌≡◌, ◌++◌, codes, OnOk};
ghost use Rattle.std.specs.Fmt.{decimal};
ghost use Rattle.sdd_inside.specs.Json.{also};
ghost use Rattle.sdd_inside.specs.Words.{event_json};
ghost use Rattle.sdd_inside.specs.Messages.{ack_json};
ghost use Rattle.sdd_inside.specs.Lines.{taken_json, found_members, round_member, handed_json, put_json, queue_json, pipe_moves, pipe_json, row_delta_json, place_members, event_members, link_members, module_members, site_members, changes_of, line, copy_json, module_counts, beginning};

use crate::delta::{Delta, Found, Handed, PipeDelta, Put, QueueDelta, RowDelta, Taken};
use crate::events::put_event;
use crate::messages::put_ack;
use crate::numbers::put_decimal;
use crate::pieces::put;
use crate::to_json::{
    ToJson, put_also, put_if, put_name, put_opening, put_positive, tell_also, tell_array,
    tell_first, tell_further, tell_list, tell_some, tell_triple, tell_two,
};
use sdd_report::CopyTable;
use sdd_script::{Catalogue, Event, NoMemory, Txn};

fn put_taken(out: &mut Vec<u8>, packet: &Taken) -> Result<(), NoMemory>
    ensures { OnOk result (out.new.items ≡ out.old.items ++ taken_json packet.now) }
{
    match packet {
        Taken::Message(number) => put_decimal(out, u64::from(*number)),
        Taken::Ack(upto) => put_ack(out, *upto),
    }
}

#[tactic(auto, using(crate::proofs::Members::member_put))]
fn put_lost(out: &mut Vec<u8>, packet: &Taken) -> Result<(), NoMemory>
    ensures { OnOk result (out.new.items ≡ out.old.items ++ also (codes "took") (taken_json packet.now)) }
{
    put_name(out, b",\"took\":")?;
    put_taken(out, packet)
}

#[tactic(auto, using(crate::proofs::Members::member_put))]
fn put_took_ack(out: &mut Vec<u8>, upto: u32) -> Result<(), NoMemory>
    ensures { OnOk result (out.new.items ≡ out.old.items ++ also (codes "took") (ack_json upto)) }
{
    put_name(out, b",\"took\":")?;
    put_ack(out, upto)
}

fn put_arrived(out: &mut Vec<u8>, number: u32, delivered: u32) -> Result<(), NoMemory>
    ensures { OnOk result (
        out.new.items
        ≡ out.old.items
        ++ (also (codes "took") (decimal number) ++ also (codes "delivered") (decimal delivered))) }
{
    put_also(out, b",\"took\":", u64::from(number))?;
    put_also(out, b",\"delivered\":", u64::from(delivered))
}

fn put_acknowledged(out: &mut Vec<u8>, upto: u32, acked: u32) -> Result<(), NoMemory>
    ensures { OnOk result (
        out.new.items
        ≡ out.old.items
        ++ (also (codes "took") (ack_json upto) ++ also (codes "acked") (decimal acked))) }
{
    put_took_ack(out, upto)?;
    put_also(out, b",\"acked\":", u64::from(acked))
}

fn put_found(out: &mut Vec<u8>, found: &Found) -> Result<(), NoMemory>
    ensures { OnOk result (out.new.items ≡ out.old.items ++ found_members found.now) }
{
    match found {
        Found::Nothing => put_if(out, b",\"nothing\":true", true),
        Found::Something => Ok(()),
        Found::Lost(packet) => put_lost(out, packet),
        Found::Arrived { number, delivered } => put_arrived(out, *number, *delivered),
        Found::Acknowledged { upto, acked } => put_acknowledged(out, *upto, *acked),
    }
}

fn put_round(out: &mut Vec<u8>, round: Option<u32>) -> Result<(), NoMemory>
    ensures { OnOk result (out.new.items ≡ out.old.items ++ round_member round) }
{
    match round {
        Some(round) => put_also(out, b",\"round\":", u64::from(round)),
        None => Ok(()),
    }
}

impl ToJson for Handed {
    ghost json = { handed_json };

    fn tell(&self, out: &mut Vec<u8>, catalogue: &Catalogue, txns: &[Txn]) -> Result<(), NoMemory> {
        tell_triple(out, &self.from, &self.to, &self.upto, catalogue, txns)
    }
}

impl ToJson for Put {
    ghost json = { put_json };

    #[tactic(auto, using(crate::proofs::Members::last_of_three))]
    fn tell(&self, out: &mut Vec<u8>, catalogue: &Catalogue, txns: &[Txn]) -> Result<(), NoMemory> {
        tell_two(out, &self.from, &self.to, catalogue, txns)?;
        tell_array(out, self.packets.as_slice(), catalogue, txns)?;
        put(out, b"]")
    }
}

impl ToJson for QueueDelta {
    ghost json = { queue_json };

    #[tactic(auto, using(crate::proofs::Members::object_of_two))]
    fn tell(&self, out: &mut Vec<u8>, catalogue: &Catalogue, txns: &[Txn]) -> Result<(), NoMemory> {
        tell_first(out, b"{\"class\":", &self.class, catalogue, txns)?;
        tell_some(out, b",\"in\":[", &self.came, catalogue, txns)?;
        put_positive(out, b",\"out\":", self.gone)?;
        put(out, b"}")
    }
}

fn put_moves(
    out: &mut Vec<u8>,
    pipe: &PipeDelta,
    catalogue: &Catalogue,
    txns: &[Txn],
) -> Result<(), NoMemory>
    ensures { OnOk result (out.new.items ≡ out.old.items ++ pipe_moves catalogue.now txns.now pipe.now) }
{
    tell_some(out, b",\"in\":[", &pipe.came, catalogue, txns)?;
    put_positive(out, b",\"out\":", pipe.processed)?;
    put_also(out, b",\"passed\":", pipe.passed.0)
}

impl ToJson for PipeDelta {
    ghost json = { pipe_json };

    #[tactic(auto, using(crate::proofs::Members::object_of_two))]
    fn tell(&self, out: &mut Vec<u8>, catalogue: &Catalogue, txns: &[Txn]) -> Result<(), NoMemory> {
        tell_first(out, b"{\"at\":", &self.dm, catalogue, txns)?;
        tell_also(out, b",\"class\":", &self.class, catalogue, txns)?;
        put_moves(out, self, catalogue, txns)?;
        put(out, b"}")
    }
}

impl ToJson for RowDelta {
    ghost json = { row_delta_json };

    #[tactic(auto, using(crate::proofs::Members::last_of_four))]
    fn tell(&self, out: &mut Vec<u8>, catalogue: &Catalogue, txns: &[Txn]) -> Result<(), NoMemory> {
        tell_two(out, &self.dm, &self.item.frag, catalogue, txns)?;
        self.item.key.tell(out, catalogue, txns)?;
        tell_further(out, &self.item.row, catalogue, txns)?;
        put(out, b"]")
    }
}

fn put_places(out: &mut Vec<u8>, delta: &Delta) -> Result<(), NoMemory>
    ensures { OnOk result (out.new.items ≡ out.old.items ++ place_members delta.now) }
{
    put_also(out, b",\"of\":", u64::from(delta.scheduled))?;
    put_round(out, delta.round)
}

#[tactic(auto, using(crate::proofs::Members::member_put))]
fn put_do(out: &mut Vec<u8>, txns: &[Txn], event: Event) -> Result<(), NoMemory>
    ensures { OnOk result (out.new.items ≡ out.old.items ++ also (codes "do") (event_json txns.now event)) }
{
    put_name(out, b",\"do\":")?;
    put_event(out, txns, event)
}

fn put_event_members(out: &mut Vec<u8>, delta: &Delta, txns: &[Txn]) -> Result<(), NoMemory>
    ensures { OnOk result (out.new.items ≡ out.old.items ++ event_members txns.now delta.now) }
{
    put_do(out, txns, delta.event)?;
    put_found(out, &delta.found)
}

fn put_links(
    out: &mut Vec<u8>,
    delta: &Delta,
    catalogue: &Catalogue,
    txns: &[Txn],
) -> Result<(), NoMemory>
    ensures { OnOk result (out.new.items ≡ out.old.items ++ link_members catalogue.now txns.now delta.now) }
{
    tell_some(out, b",\"handed\":[", &delta.handed, catalogue, txns)?;
    tell_some(out, b",\"put\":[", &delta.put, catalogue, txns)
}

fn put_modules(
    out: &mut Vec<u8>,
    delta: &Delta,
    catalogue: &Catalogue,
    txns: &[Txn],
) -> Result<(), NoMemory>
    ensures { OnOk result (out.new.items ≡ out.old.items ++ module_members catalogue.now txns.now delta.now) }
{
    tell_some(out, b",\"queues\":[", &delta.queues, catalogue, txns)?;
    tell_some(out, b",\"pipes\":[", &delta.pipes, catalogue, txns)
}

fn put_sites(
    out: &mut Vec<u8>,
    delta: &Delta,
    catalogue: &Catalogue,
    txns: &[Txn],
) -> Result<(), NoMemory>
    ensures { OnOk result (out.new.items ≡ out.old.items ++ site_members catalogue.now txns.now delta.now) }
{
    tell_some(out, b",\"rows\":[", &delta.rows, catalogue, txns)?;
    tell_some(out, b",\"sites\":[", &delta.sites, catalogue, txns)
}

fn put_changes(
    out: &mut Vec<u8>,
    delta: &Delta,
    catalogue: &Catalogue,
    txns: &[Txn],
) -> Result<(), NoMemory>
    ensures { OnOk result (out.new.items ≡ out.old.items ++ changes_of catalogue.now txns.now delta.now) }
{
    put_links(out, delta, catalogue, txns)?;
    put_modules(out, delta, catalogue, txns)?;
    put_sites(out, delta, catalogue, txns)
}

/// Puts the line of an event. A number that names nothing has the empty name.
///
/// Costs time and memory linear in the line.
#[tactic(auto, using(crate::proofs::Members::line_of_three))]
pub fn put_line(
    out: &mut Vec<u8>,
    catalogue: &Catalogue,
    txns: &[Txn],
    delta: &Delta,
) -> Result<(), NoMemory>
    ensures { OnOk result (out.new.items ≡ out.old.items ++ line catalogue.now txns.now delta.now) }
{
    put_opening(out, b"{\"event\":", u64::from(delta.number))?;
    put_places(out, delta)?;
    put_event_members(out, delta, txns)?;
    put_changes(out, delta, catalogue, txns)?;
    put(out, b"}\n")
}

impl ToJson for CopyTable {
    ghost json = { copy_json };

    #[tactic(auto, using(crate::proofs::Members::object_of_two))]
    fn tell(&self, out: &mut Vec<u8>, catalogue: &Catalogue, txns: &[Txn]) -> Result<(), NoMemory> {
        tell_first(out, b"{\"at\":", &self.dm, catalogue, txns)?;
        tell_also(out, b",\"fragment\":", &self.frag, catalogue, txns)?;
        tell_list(out, b",\"rows\":[", self.rows.as_slice(), catalogue, txns)?;
        put(out, b"}")
    }
}

fn put_counts(out: &mut Vec<u8>, catalogue: &Catalogue) -> Result<(), NoMemory>
    ensures { OnOk result (out.new.items ≡ out.old.items ++ module_counts catalogue.now) }
{
    put_also(out, b",\"tms\":", u64::from(catalogue.tms()))?;
    put_also(out, b",\"dms\":", u64::from(catalogue.dms()))
}

/// Puts the first line: how many modules there are, and what the copies begin with, which ascend by
/// module and then by fragment.
///
/// Costs time linear in the line, and memory for it and one row.
#[tactic(auto, using(crate::proofs::Members::line_of_two))]
pub fn put_beginning(
    out: &mut Vec<u8>,
    catalogue: &Catalogue,
    txns: &[Txn],
    copies: &[CopyTable],
) -> Result<(), NoMemory>
    ensures { OnOk result (out.new.items ≡ out.old.items ++ beginning catalogue.now txns.now copies.now) }
{
    put_opening(out, b"{\"inside\":", 1)?;
    put_counts(out, catalogue)?;
    tell_list(out, b",\"copies\":[", copies, catalogue, txns)?;
    put(out, b"}\n")
}
