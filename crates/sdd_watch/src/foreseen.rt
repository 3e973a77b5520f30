//! What an event finds.
ghost use Rattle.std.specs.Prelude.{◌≡◌, ◌≤◌};
ghost use Rattle.sdd_moments.specs.obligations.All.{Input, IsLinkOf, Log, delivered, is_empty, link_of, packet_at};
ghost use Rattle.sdd_moments.specs.obligations.net.Links.{unacked};
ghost use Rattle.sdd_moments.specs.schedule.world.Represents.{Calm};
ghost use Rattle.sdd_moments.specs.AtEvent.{arrived_of, found_by, taken};
ghost use Rattle.sdd_watch.specs.Watching.{IsTellable, foresee_act, foresee_take, foreseen_by, taken_at};

use sdd_inside::{Found, Taken};
use sdd_moments::{Event, Packet, Site, Spelling, World};

/// What an event is about to find.
#[derive(Drop)]
pub(crate) enum Foreseen {
    /// Nothing that could be done.
    Nothing,
    /// What it says is done, and no packet is taken off a flight.
    Something,
    /// A packet, which is taken off its flight.
    Takes(Taken),
}

/// The number of a packet.
fn as_taken(packet: &Packet<Spelling>) -> Taken
    ensures { result ≡ taken packet.now }
{
    match packet {
        Packet::Message(number, _) => Taken::Message(*number),
        Packet::Ack(upto) => Taken::Ack(*upto),
    }
}

/// The packet at a place of a flight, by its number.
fn packet_at(world: &World<'_>, from: Site, to: Site, place: u32) -> Option<Taken>
    requires { (g : Input) × (log : Log) × Calm world.now g log × IsLinkOf g from to × (1 ≤ place) }
    ensures { (g : Input) (log : Log) → Calm world.now g log → IsLinkOf g from to
        → result ≡ taken_at (packet_at place (link_of from to log)) }
{
    match world.mail().direction(from, to).flight.packet(place) {
        Some(packet) => Some(as_taken(packet)),
        None => None,
    }
}

/// Whether each message of a link is acknowledged.
fn is_acknowledged(world: &World<'_>, from: Site, to: Site) -> bool
    requires { (g : Input) × (log : Log) × Calm world.now g log × IsLinkOf g from to }
    ensures { (g : Input) (log : Log) → Calm world.now g log → IsLinkOf g from to
        → result ≡ is_empty (unacked (link_of from to log).there) }
{
    world.mail().direction(from, to).sender.is_done()
}

/// The messages from 1 to this number of a link have arrived.
fn delivered_upto(world: &World<'_>, from: Site, to: Site) -> u32
    requires { (g : Input) × (log : Log) × Calm world.now g log × IsLinkOf g from to }
    ensures { (g : Input) (log : Log) → Calm world.now g log → IsLinkOf g from to
        → result ≡ delivered (link_of from to log).there }
{
    world.mail().direction(from, to).receiver.count()
}

/// The messages from 1 to this number of the link back are acknowledged.
fn acknowledged_upto(world: &World<'_>, from: Site, to: Site) -> u32
    requires { (g : Input) × (log : Log) × Calm world.now g log × IsLinkOf g from to }
    ensures { (g : Input) (log : Log) → Calm world.now g log → IsLinkOf g from to
        → result ≡ (link_of to from log).there.acked }
{
    world.mail().direction(to, from).sender.acked_upto()
}

fn foresee_take(packet: Option<Taken>) -> Foreseen
    ensures { result ≡ foresee_take packet }
{
    match packet {
        Some(packet) => Foreseen::Takes(packet),
        None => Foreseen::Nothing,
    }
}

fn foresee_act(can_do: bool) -> Foreseen
    ensures { result ≡ foresee_act can_do }
{
    if can_do {
        Foreseen::Something
    } else {
        Foreseen::Nothing
    }
}

/// What an event finds that is next. Takes no memory.
pub(crate) fn foresee(world: &World<'_>, event: &Event) -> Foreseen
    requires { (g : Input) × (log : Log) × Calm world.now g log × IsTellable g event.now }
    ensures { (g : Input) (log : Log) → Calm world.now g log → IsTellable g event.now
        → result ≡ foreseen_by event.now log }
{
    match event {
        Event::Deliver { from, to, place } => foresee_take(packet_at(world, *from, *to, *place)),
        Event::Lose { from, to, place } => foresee_take(packet_at(world, *from, *to, *place)),
        Event::Repeat { from, to, place } => {
            foresee_act(packet_at(world, *from, *to, *place).is_some())
        }
        Event::Resend { from, to } => foresee_act(!is_acknowledged(world, *from, *to)),
        Event::Down(at) => foresee_act(!world.is_down(*at)),
        Event::Up(at) => foresee_act(world.is_down(*at)),
        _ => Foreseen::Something,
    }
}

/// What a delivery found, once it is carried out.
fn find_delivery(world: &World<'_>, from: Site, to: Site, packet: Taken) -> Found
    requires { (g : Input) × (log : Log) × Calm world.now g log × IsLinkOf g from to }
    ensures { (g : Input) (log : Log) → Calm world.now g log → IsLinkOf g from to
        → result ≡ arrived_of from to packet log }
{
    match packet {
        Taken::Message(number) => Found::Arrived {
            number,
            delivered: delivered_upto(world, from, to),
        },
        Taken::Ack(upto) => Found::Acknowledged {
            upto,
            acked: acknowledged_upto(world, from, to),
        },
    }
}

/// What an event found that is carried out. Takes no memory.
pub(crate) fn find_outcome(world: &World<'_>, event: &Event, foreseen: Foreseen) -> Found
    requires { (g : Input) × (log : Log) × Calm world.now g log × IsTellable g event.now }
    ensures { (g : Input) (old new : Log) → Calm world.now g new → IsTellable g event.now
        → foreseen ≡ foreseen_by event.now old → result ≡ found_by event.now old new }
{
    match foreseen {
        Foreseen::Nothing => Found::Nothing,
        Foreseen::Something => Found::Something,
        Foreseen::Takes(packet) => match event {
            Event::Deliver { from, to, .. } => find_delivery(world, *from, *to, packet),
            _ => Found::Lost(packet),
        },
    }
}
