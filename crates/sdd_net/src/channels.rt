ghost use Rattle.std.specs.Prelude.{◌≡◌, ◌+◌, ◌-◌, ◌^◌, ◌≤◌, ◌<◌, [], ◌∷◌, ◌++◌, nat_lt, length, slice_get, true, false, IsTrue, IfOk, OnOk, Some, None};
ghost use Rattle.sdd_net.specs.Links.{Way, Link, delivered, newly_delivered, packet_at, deliver, unacked, without_at, with_message, with_flight, with_arrival, with_ack, delivery};
ghost use Rattle.sdd_net.specs.Sending.{last_number};
ghost use Rattle.sdd_net.specs.Sound.{IsSoundLink};
ghost use Rattle.sdd_net.specs.Nets.{FitsWay, IsLiveAt, Changes, ArePair, ChangesPair, sent_by};

use crate::channel::Channel;
use crate::delivered::Delivered;
use crate::packet::Packet;
use sdd_base::{MAX_LINK_MESSAGES, NoMemory, Parcel};
use sdd_receiver::Parcels;

// Each function changes the channel at one place, and its clause says which way that channel
// represents afterwards.

/// Puts a message on the direction at a place.
#[tactic(auto, using(crate::proofs::Places::live_places))]
pub fn put_at<M: Parcel>(channels: &mut Vec<Channel<M>>, at: usize, msg: M) -> Result<(), NoMemory>
    requires live { IsLiveAt (slice_get channels.old.items at) }
    requires room { sent_by (slice_get channels.old.items at) < MAX_LINK_MESSAGES }
    ensures { OnOk result (
        (w : Way M) → w.acked ≤ length w.sent → FitsWay (slice_get channels.old.items at) w
        → Changes channels.old.items channels.new.items at (with_message msg w)) }
{
    let channel = &mut channels[at];
    channel.put(msg)
}

/// Takes the packet at a place of a flight away.
#[tactic(auto, using(crate::proofs::Places::live_places))]
pub fn take_at<M: Parcel>(
    channels: &mut Vec<Channel<M>>,
    at: usize,
    place: u32,
) -> Option<Packet<M>>
    requires live { IsLiveAt (slice_get channels.old.items at) }
    requires place { 1 ≤ place }
    ensures packet { (w : Way M) → FitsWay (slice_get channels.old.items at) w
        → result ≡ slice_get w.flight (place - 1) }
    ensures some { (w : Way M) → FitsWay (slice_get channels.old.items at) w
        → Changes channels.old.items channels.new.items at
        (with_flight (without_at w.flight (place - 1)) w) }
{
    let channel = &mut channels[at];
    channel.flight.take(place)
}

/// Puts a packet at the end of a flight.
#[tactic(auto, using(crate::proofs::Places::live_places))]
fn send_at<M: Parcel>(
    channels: &mut Vec<Channel<M>>,
    at: usize,
    packet: Packet<M>,
) -> Result<(), NoMemory>
    requires live { IsLiveAt (slice_get channels.old.items at) }
    ensures { OnOk result (
        (w : Way M) → FitsWay (slice_get channels.old.items at) w
        → Changes channels.old.items channels.new.items at (with_flight (w.flight ++ packet ∷ []) w)) }
{
    let channel = &mut channels[at];
    channel.flight.send(packet)
}

/// Puts a copy of the packet at a place of a flight at its end, where it is there.
#[tactic(auto, using(crate::proofs::Places::live_places))]
pub fn repeat_at<M: Parcel>(
    channels: &mut Vec<Channel<M>>,
    at: usize,
    place: u32,
) -> Result<bool, NoMemory>
    requires live { IsLiveAt (slice_get channels.old.items at) }
    requires place { 1 ≤ place }
    ensures some { result ≡ Ok true → (w : Way M) (packet : Packet M)
        → FitsWay (slice_get channels.old.items at) w → slice_get w.flight (place - 1) ≡ Some packet
        → Changes channels.old.items channels.new.items at (with_flight (w.flight ++ packet ∷ []) w) }
    ensures there { result ≡ Ok true → (w : Way M) → FitsWay (slice_get channels.old.items at) w
        → place ≤ length w.flight }
    ensures none { result ≡ Ok false → (w : Way M) → FitsWay (slice_get channels.old.items at) w
        → Changes channels.old.items channels.new.items at w × (length w.flight < place) }
{
    let channel = &mut channels[at];
    channel.flight.repeat(place)
}

/// Sends a packet for each unacknowledged message, and returns whether there was one.
#[tactic(auto, using(crate::proofs::Places::live_places))]
pub fn resend_at<M: Parcel>(channels: &mut Vec<Channel<M>>, at: usize) -> Result<bool, NoMemory>
    requires live { IsLiveAt (slice_get channels.old.items at) }
    ensures some { IfOk result (λ some.
        (w : Way M) → FitsWay (slice_get channels.old.items at) w
        → some ≡ nat_lt w.acked (length w.sent)) }
    ensures law { OnOk result (
        (w : Way M) → FitsWay (slice_get channels.old.items at) w
        → Changes channels.old.items channels.new.items at (with_flight (w.flight ++ unacked w) w)) }
{
    let channel = &mut channels[at];
    channel.resend()
}

/// Takes an acknowledgement in.
#[tactic(auto, using(crate::proofs::Places::live_places))]
fn acknowledge_at<M: Parcel>(channels: &mut Vec<Channel<M>>, at: usize, k: u32)
    requires live { IsLiveAt (slice_get channels.old.items at) }
    requires known { k ≤ sent_by (slice_get channels.old.items at) }
    ensures { (w : Way M) → FitsWay (slice_get channels.old.items at) w
        → Changes channels.old.items channels.new.items at (with_ack k w) }
{
    let channel = &mut channels[at];
    channel.sender.acknowledge(k);
}

/// Takes a message in, and gives what it hands on and the number to acknowledge.
#[tactic(auto, using(crate::proofs::Places::live_places))]
fn receive_at<M: Parcel>(
    channels: &mut Vec<Channel<M>>,
    at: usize,
    no: u32,
    msg: M,
) -> Result<(Parcels<M>, u32), NoMemory>
    requires live { IsLiveAt (slice_get channels.old.items at) }
    requires number { 1 ≤ no }
    ensures handed { IfOk result (λ given.
        (w : Way M) → slice_get w.sent (no - 1) ≡ Some msg
        → FitsWay (slice_get channels.old.items at) w → given.0 ≡ newly_delivered w (with_arrival no w)) }
    ensures count { IfOk result (λ given.
        (w : Way M) → slice_get w.sent (no - 1) ≡ Some msg
        → FitsWay (slice_get channels.old.items at) w → given.1 ≡ delivered (with_arrival no w)) }
    ensures law { OnOk result (
        (w : Way M) → slice_get w.sent (no - 1) ≡ Some msg
        → FitsWay (slice_get channels.old.items at) w
        → Changes channels.old.items channels.new.items at (with_arrival no w)) }
{
    let channel = &mut channels[at];
    channel.receive(no, msg)
}

/// Delivers the packet at a place of the flight of one direction, where `back` is the direction back.
pub fn deliver_at<M: Parcel>(
    channels: &mut Vec<Channel<M>>,
    there: usize,
    back: usize,
    place: u32,
) -> Result<Delivered<M>, NoMemory>
    requires place { 1 ≤ place }
    requires pair { (l : Link M) × ArePair channels.old.items there back l × IsSoundLink l }
    ensures given { IfOk result (λ given.
        (l : Link M) → ArePair channels.old.items there back l → IsSoundLink l
        → given ≡ delivery place l) }
    ensures law { OnOk result (
        (l : Link M) → ArePair channels.old.items there back l → IsSoundLink l
        → ChangesPair channels.old.items channels.new.items there back (deliver place l)) }
{
    match take_at(channels, there, place) {
        None => Ok(Delivered::Nothing),
        Some(Packet::Ack(k)) => {
            acknowledge_at(channels, back, k);
            Ok(Delivered::Acked)
        }
        Some(Packet::Message(no, msg)) => {
            let (handed, count) = receive_at(channels, there, no, msg)?;
            send_at(channels, back, Packet::Ack(count))?;
            Ok(Delivered::Messages(handed))
        }
    }
}
