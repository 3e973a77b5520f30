ghost use Rattle.std.specs.Prelude.{◌≡◌, ◌+◌, ◌-◌, ◌^◌, ◌≤◌, ◌<◌, [], ◌∷◌, List, ℕ, take, drop, slice_get, true, false, IsTrue, IfOk, OnOk, OnErr, IfSome, Some, None};
ghost use Rattle.sdd_receiver.specs.Arrivals.{top};
ghost use Rattle.sdd_receiver.specs.Receiving.{HasReceived, nothing_received, in_turn, handed_on, received};

use sdd_base::{Listed, NoMemory, Parcel};
use std::alloc::Global;
use std::collections::BTreeMap;
use std::marker::Model;

/// Messages, in the order in which they were put on their link.
pub type Parcels<M> = Listed<M>;

/// The receiving end of one direction of a link: it hands on each message once, in the order of the
/// numbers, and keeps those that come early.
#[derive(Drop)]
pub struct Receiver<M> {
    count: u32,
    early: BTreeMap<u32, M>,
    live: bool,
    alloc: Global,
}

impl<M> Model for Receiver<M> {
    ghost use Rattle.sdd_base.specs.Kept.{Kept};
    ghost use Rattle.sdd_receiver.specs.Receiving.{Receiving};

    ghost Value = { Kept (Receiving M) };

    ghost view = { λ r. record { live = r.live; value = record { count = r.count; early = r.early.entries } } };
}

impl<M: Parcel> Receiver<M> {
    /// A receiver at which nothing arrived.
    pub fn new(alloc: Global) -> Self
        ensures value { result ≡ record { live = true; value = nothing_received } }
        ensures law { (sent : List M) → HasReceived result.value [] sent }
    {
        Receiver {
            count: 0,
            early: BTreeMap::new(alloc),
            live: true,
            alloc,
        }
    }

    /// False once a call ran out of memory; after that the receiver is only dropped.
    pub fn live(&self) -> bool
        ensures { result ≡ self.now.live }
    {
        self.live
    }

    /// The greatest k such that messages 1 to k have all arrived. Takes no memory.
    pub fn count(&self) -> u32
        ensures { result ≡ self.now.value.count }
    {
        self.count
    }

    /// Takes message `no` and gives the messages that have just come to belong to 1 to k, in order.
    ///
    /// Costs O(log w) for w messages that wait, and as much for each message that it gives. Where no
    /// message waits, the next one is handed on as it comes, in constant time.
    #[tactic(auto, using(crate::proofs::Turns::turns))]
    pub fn arrive(&mut self, no: u32, msg: M) -> Result<Parcels<M>, NoMemory>
        requires live { IsTrue self.old.live }
        requires number { 1 ≤ no }
        ensures handed { IfOk result (λ handed. handed ≡ handed_on no msg self.old.value) }
        ensures ok { OnOk result (
            self.new ≡ record { live = true; value = received no msg self.old.value }) }
        ensures err { OnErr result (self.new.live ≡ false) }

        // Where the receiver represents what arrived before, it represents one arrival more.
        ensures law { IfOk result (λ handed.
            (arrived : List ℕ) (sent : List M) → slice_get sent (no - 1) ≡ Some msg
            → HasReceived self.old.value arrived sent
            → HasReceived self.new.value (no ∷ arrived) sent
            × (handed ≡ drop (top arrived) (take (top (no ∷ arrived)) sent))) }
    {
        if self.is_next(no) {
            return self.hand_on(msg);
        }
        let mut handed = Vec::new(self.alloc);
        if no <= self.count {
            return Ok(Listed::from_vec(handed));
        }
        self.live = false;
        self.early.insert(no, msg)?;
        while let Some(next) = take_next(&mut self.early, self.count) {
            handed.push(next)?;
            self.count += 1;
        }
        self.live = true;
        Ok(Listed::from_vec(handed))
    }

    /// Whether nothing waits, and this number is the next.
    fn is_next(&self, no: u32) -> bool
        requires { 1 ≤ no }
        ensures { IsTrue result → (self.now.value.early ≡ []) × (no ≡ self.now.value.count + 1) }
    {
        self.early.is_empty() && no - 1 == self.count
    }

    /// Hands the next message on, which never waited.
    fn hand_on(&mut self, msg: M) -> Result<Parcels<M>, NoMemory>
        requires { self.old.value.count + 1 < 2 ^ 32 }
        ensures handed { IfOk result (λ handed. handed ≡ msg ∷ []) }
        ensures ok { OnOk result (
            self.new
            ≡ record {
              live = true;
              value = record self.old.value { count = self.old.value.count + 1 };
            }) }
        ensures err { OnErr result (self.new.live ≡ false) }
    {
        self.live = false;
        let mut handed = Vec::with_capacity(self.alloc, 1)?;
        handed.push(msg)?;
        self.count += 1;
        self.live = true;
        Ok(Listed::from_vec(handed))
    }
}

/// Takes message `count + 1` out, where it is the first of those that wait.
#[tactic(auto, using(crate::proofs::Turns::turns))]
fn take_next<M: Parcel>(early: &mut BTreeMap<u32, M>, count: u32) -> Option<M>
    ensures some { IfSome result (λ m. early.old.entries ≡ (count + 1, m) ∷ early.new.entries) }
    ensures room { IfSome result (λ m. count + 1 < 2 ^ 32) }
    ensures none { result ≡ None
        → (early.new.entries ≡ early.old.entries) × (in_turn count early.old.entries ≡ []) }
{
    let Some((number, _)) = early.first_key_value() else {
        return None;
    };
    let Some(1) = number.checked_sub(count) else {
        return None;
    };
    match early.pop_first() {
        Some((_, msg)) => Some(msg),
        None => None,
    }
}
