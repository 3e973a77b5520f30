//! What an event changed between two moments.
ghost use Rattle.std.specs.Prelude.{◌≡◌, ◌++◌, ◌∷◌, [], ◌⊎◌, List, map, drop, length, IfOk, OnOk, MatchOption};
ghost use Rattle.std.specs.List.{position};
ghost use Rattle.sdd_script.specs.base.Sites.{same_site};
ghost use Rattle.sdd_inside.specs.Differences.{changes, in_flight, takes_one, is_of_link, takes_from, left, on_link, put_between, handed_between, is_first, gone, queue_between, pipe_between, difference};
ghost use Rattle.sdd_inside.specs.declared.moment.Happened.{Happened as Turn};

use crate::delta::{Delta, Found, Handed, InFlight, PipeDelta, Put, QueueDelta};
use crate::moment::{Happened, LinkMoment, Moment, PipeMoment, QueueMoment};
use crate::to_json::split_head;
use sdd_net::Packet;
use sdd_script::{Event, Listed, NoMemory, Parcel, Site, TxnNo};
use sdd_wire::Msg;
use std::alloc::Global;

/// A part of a moment, of which an event may change what a `D` tells.
trait Part<D>: Sized {
    /// What is reported of the part before and after the event: one change, or none.
    ghost between: { Turn → Self → Self → List D };

    /// Adds it to the changes.
    fn add(&self, after: &Self, happened: &Happened, changes: &mut Vec<D>) -> Result<(), NoMemory>
        ensures { OnOk result (changes.new.items ≡ changes.old.items ++ between happened.now self.now after.now) };
}

/// The first item of each list and the others, or None exactly where one of the lists has none.
fn both<'a, T>(before: &'a [T], after: &'a [T]) -> Option<(&'a T, &'a [T], &'a T, &'a [T])>
    ensures { MatchOption result
        ((before.now ≡ []) ⊎ (after.now ≡ []))
        (λ p. (before.now ≡ p.0.now ∷ p.1.now) × (after.now ≡ p.2.now ∷ p.3.now)) }
{
    match split_head(before) {
        Some((old, olds)) => match split_head(after) {
            Some((new, news)) => Some((old, olds, new, news)),
            None => None,
        },
        None => None,
    }
}

/// What changed of each part, in order.
#[tactic(auto, using(crate::proofs::Changes::changes_more, crate::proofs::Changes::changes_end, crate::proofs::Changes::fewer))]
fn changes<D: Drop, P: Part<D>>(
    alloc: Global,
    happened: &Happened,
    before: &[P],
    after: &[P],
) -> Result<Listed<D>, NoMemory>
    ensures { IfOk result (λ l. l ≡ changes (P.between happened.now) before.now after.now) }
{
    let mut made = Vec::new(alloc);
    let mut old = before;
    let mut new = after;
    'parts: while let Some((one, olds, other, news)) = both(old, new) {
        one.add(other, happened, &mut made)?;
        old = olds;
        new = news;
    }
    Ok(Listed::from_vec(made))
}

fn is_site(a: Site, b: Site) -> bool
    ensures { result ≡ same_site a b }
{
    match (a, b) {
        (Site::U, Site::U) => true,
        (Site::T(a), Site::T(b)) => a.0 == b.0,
        (Site::D(a), Site::D(b)) => a.0 == b.0,
        _ => false,
    }
}

fn takes_one(found: &Found) -> bool
    ensures { result ≡ takes_one found.now }
{
    match found {
        Found::Nothing | Found::Something => false,
        Found::Lost(_) | Found::Arrived { .. } | Found::Acknowledged { .. } => true,
    }
}

fn is_of_link(from: Site, to: Site, event: Event) -> bool
    ensures { result ≡ is_of_link from to event }
{
    match event {
        Event::Deliver { from: a, to: b, .. } => is_site(a, from) && is_site(b, to),
        Event::Lose { from: a, to: b, .. } => is_site(a, from) && is_site(b, to),
        _ => false,
    }
}

fn takes_from(happened: &Happened, link: &LinkMoment) -> bool
    ensures { result ≡ takes_from happened.now link.now }
{
    takes_one(&happened.found) && is_of_link(link.from, link.to, happened.event)
}

/// How many packets of the flight before are left.
fn count_left(happened: &Happened, link: &LinkMoment) -> usize
    ensures { result ≡ left happened.now link.now }
{
    let length = link.flight.as_slice().len();
    if takes_from(happened, link) {
        length.saturating_sub(1)
    } else {
        length
    }
}

/// The items from this place on, counted from 0.
fn tail<T>(items: &[T], from: usize) -> &[T]
    ensures { result.now ≡ drop from items.now }
{
    if from < items.len() {
        let (_, rest) = items.split_at(from);
        rest
    } else {
        &[]
    }
}

fn in_flight(packet: &Packet<Msg>, sent: u32) -> Result<InFlight, NoMemory>
    ensures { IfOk result (λ p. p ≡ in_flight sent packet.now) }
{
    match packet {
        Packet::Message(number, message) => {
            if *number <= sent {
                Ok(InFlight::Again(*number))
            } else {
                Ok(InFlight::First(*number, message.copy()?))
            }
        }
        Packet::Ack(upto) => Ok(InFlight::Ack(*upto)),
    }
}

#[tactic(auto, using(crate::proofs::Changes::packet_more, crate::proofs::Changes::packets_end))]
fn all_in_flight(
    alloc: Global,
    flight: &[Packet<Msg>],
    sent: u32,
) -> Result<Vec<InFlight>, NoMemory>
    ensures { IfOk result (λ v. v.items ≡ map (in_flight sent) flight.now) }
{
    let mut packets = Vec::new(alloc);
    'flight: for packet in flight {
        packets.push(in_flight(packet, sent)?)?;
    }
    Ok(packets)
}

#[tactic(auto, using(crate::proofs::Changes::no_packets, crate::proofs::Changes::some_packets))]
fn add_packets(
    changes: &mut Vec<Put>,
    from: Site,
    to: Site,
    packets: Vec<InFlight>,
) -> Result<(), NoMemory>
    ensures { OnOk result (changes.new.items ≡ changes.old.items ++ on_link from to packets.items) }
{
    if packets.is_empty() {
        return Ok(());
    }
    changes.push(Put {
        from,
        to,
        packets: Listed::from_vec(packets),
    })?;
    Ok(())
}

impl Part<Put> for LinkMoment {
    ghost between = { put_between };

    fn add(
        &self,
        after: &Self,
        happened: &Happened,
        changes: &mut Vec<Put>,
    ) -> Result<(), NoMemory> {
        let news = tail(after.flight.as_slice(), count_left(happened, self));
        let packets = all_in_flight(*changes.allocator(), news, self.sent)?;
        add_packets(changes, after.from, after.to, packets)
    }
}

impl Part<Handed> for LinkMoment {
    ghost between = { handed_between };

    fn add(
        &self,
        after: &Self,
        _happened: &Happened,
        changes: &mut Vec<Handed>,
    ) -> Result<(), NoMemory> {
        if self.handed == after.handed {
            return Ok(());
        }
        changes.push(Handed {
            from: after.from,
            to: after.to,
            upto: after.handed,
        })?;
        Ok(())
    }
}

fn is_first(queue: &[TxnNo], txn: &TxnNo) -> bool
    ensures { result ≡ is_first queue.now txn.now }
{
    match queue {
        [first, ..] => first.0 == txn.0,
        [] => false,
    }
}

/// Where in a queue the first of it stood that is still in it.
fn first_left(before: &[TxnNo], after: &[TxnNo]) -> Option<usize>
    ensures { result ≡ position (is_first after.now) before.now }
{
    before.iter().position(|txn| is_first(after, txn))
}

/// How many transactions are gone from the front of a queue.
fn count_gone(before: &[TxnNo], after: &[TxnNo]) -> usize
    ensures { result ≡ gone before.now after.now }
{
    match first_left(before, after) {
        Some(place) => place,
        None => before.len(),
    }
}

impl Part<QueueDelta> for QueueMoment {
    ghost between = { queue_between };

    fn add(
        &self,
        after: &Self,
        _happened: &Happened,
        changes: &mut Vec<QueueDelta>,
    ) -> Result<(), NoMemory> {
        let before = self.queue.as_slice();
        let gone = count_gone(before, after.queue.as_slice());
        let came = tail(after.queue.as_slice(), before.len().saturating_sub(gone));
        if came.is_empty() && gone == 0 {
            return Ok(());
        }
        let came = TxnNo::copy_all(*changes.allocator(), came)?;
        changes.push(QueueDelta {
            class: after.class,
            came: Listed::from_vec(came),
            gone: gone as u64,
        })?;
        Ok(())
    }
}

impl Part<PipeDelta> for PipeMoment {
    ghost between = { pipe_between };

    fn add(
        &self,
        after: &Self,
        _happened: &Happened,
        changes: &mut Vec<PipeDelta>,
    ) -> Result<(), NoMemory> {
        let came = tail(after.came.as_slice(), self.came.as_slice().len());
        let processed = after.processed.saturating_sub(self.processed);
        if came.is_empty() && processed == 0 {
            return Ok(());
        }
        let came = u32::copy_all(*changes.allocator(), came)?;
        changes.push(PipeDelta {
            dm: after.dm,
            class: after.class,
            came: Listed::from_vec(came),
            processed,
            passed: after.passed,
        })?;
        Ok(())
    }
}

/// What an event changed: of the lists that may be long the difference of the moments before and
/// after it, and what it tells of the rest.
///
/// Costs time linear in the numbers of links, queues and pipes, in the queues that changed, and in
/// what is reported, and memory for that.
pub fn difference(
    alloc: Global,
    happened: Happened,
    before: &Moment,
    after: &Moment,
) -> Result<Delta, NoMemory>
    ensures { IfOk result (λ d. d ≡ difference happened before.now after.now) }
{
    let links = after.links.as_slice();
    let handed = changes(alloc, &happened, before.links.as_slice(), links)?;
    let put = changes(alloc, &happened, before.links.as_slice(), links)?;
    let queues = changes(
        alloc,
        &happened,
        before.queues.as_slice(),
        after.queues.as_slice(),
    )?;
    let pipes = changes(
        alloc,
        &happened,
        before.pipes.as_slice(),
        after.pipes.as_slice(),
    )?;
    Ok(Delta {
        number: happened.number,
        scheduled: happened.scheduled,
        round: happened.round,
        event: happened.event,
        found: happened.found,
        handed,
        put,
        queues,
        pipes,
        rows: happened.rows,
        sites: happened.sites,
    })
}
