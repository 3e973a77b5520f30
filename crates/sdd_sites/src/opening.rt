ghost use Rattle.std.specs.Prelude.{◌≡◌, drop, map, IfOk};
ghost use Rattle.std.specs.List.{AllByRecursion};
ghost use Rattle.sdd_needs.specs.All.{Delivered as Handed, FitsMsg, Msg as Message, packet_as, spelled};
ghost use Rattle.sdd_sites.specs.Carries.{IsPacketSpelling, IsSpelling, PacketFits, Spells};

use sdd_base::NoMemory;
use sdd_net::{Delivered, Flight, Packet, Packets, Parcels};
use sdd_wire::{Msg, Spelling, WireFault, decode};
use std::alloc::Global;

/// What is handed on, read from its spellings.
pub(crate) fn open(alloc: Global, given: Delivered<Spelling>) -> Result<Delivered<Msg>, NoMemory>
    requires { (found : Handed Message) × Spells given found }
    ensures { IfOk result (λ found. Spells given found) }
{
    match given {
        Delivered::Nothing => Ok(Delivered::Nothing),
        Delivered::Acked => Ok(Delivered::Acked),
        Delivered::Messages(spellings) => Ok(Delivered::Messages(open_all(alloc, spellings)?)),
    }
}

#[tactic(auto, using(crate::proofs::ReadMessages::opened_more, crate::proofs::ReadMessages::fit_more, crate::proofs::ReadMessages::spelling_at))]
fn open_all(alloc: Global, spellings: Parcels<Spelling>) -> Result<Parcels<Msg>, NoMemory>
    requires { AllByRecursion IsSpelling spellings }
    ensures spelled { IfOk result (λ messages. spellings ≡ map spelled messages) }
    ensures fit { IfOk result (λ messages. AllByRecursion FitsMsg messages) }
{
    let mut messages = Vec::with_capacity(alloc, spellings.as_slice().len())?;
    'spellings: for spelling in spellings.as_slice() {
        messages.push(open_one(alloc, spelling)?)?;
    }
    Ok(Parcels::from_vec(messages))
}

/// The packets of a flight after so many, read from their spellings.
pub(crate) fn open_behind(
    alloc: Global,
    flight: &Flight<Spelling>,
    count: usize,
) -> Result<Packets<Msg>, NoMemory>
    requires { AllByRecursion IsPacketSpelling flight.now.value }
    ensures spelled { IfOk result (λ packets.
        drop count flight.now.value ≡ map (packet_as spelled) packets) }
    ensures fit { IfOk result (λ packets. AllByRecursion PacketFits packets) }
{
    let mut packets = Vec::new(alloc);
    let mut place = count;
    'flying: while let Some(packet) = flight.behind(place) {
        if place == usize::MAX {
            return Err(NoMemory);
        }
        let opened = open_packet(alloc, packet)?;
        packets.push(opened)?;
        place += 1;
    }
    Ok(Packets::from_vec(packets))
}

/// A packet, read from its spelling.
fn open_packet(alloc: Global, packet: &Packet<Spelling>) -> Result<Packet<Msg>, NoMemory>
    requires { IsPacketSpelling packet.now }
    ensures { IfOk result (λ p. PacketFits p × (packet.now ≡ packet_as spelled p)) }
{
    match packet {
        Packet::Message(number, spelling) => {
            let msg = open_one(alloc, spelling)?;
            Ok(Packet::Message(*number, msg))
        }
        Packet::Ack(upto) => Ok(Packet::Ack(*upto)),
    }
}

fn open_one(alloc: Global, spelling: &Spelling) -> Result<Msg, NoMemory>
    requires { IsSpelling spelling.now }
    ensures { IfOk result (λ msg. FitsMsg msg × (spelling.now ≡ spelled msg)) }
{
    match decode(alloc, spelling.as_slice()) {
        Ok(msg) => Ok(msg),
        Err(WireFault::NoMemory) => Err(NoMemory),
        Err(WireFault::Bad(_)) => unreachable!(),
    }
}
