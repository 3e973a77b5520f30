//! The messages of a link that aren't handed over.
ghost use Rattle.std.specs.Prelude.{◌≡◌, ◌≤◌, ◌++◌, ◌∷◌, [], filter_map, IfOk, MatchOption, OnOk};
ghost use Rattle.sdd_moments.specs.Awaiting.{behind, purpose_of, purposed_above, up_to};

use sdd_progress::{ClassNo, Msg, NoMemory, Packet, Ts};
use std::alloc::Global;
use std::collections::VecDeque;
use std::marker::Model;

/// What a message is for at the site where its link ends, as far as that is reported.
#[derive(Clone, Copy)]
pub enum Purpose {
    /// It goes through the pipe of a class.
    Piped(ClassNo),
    /// It says that what was committed with this timestamp is applied.
    Applied(Ts),
}

/// For what a message is.
fn purpose_of(msg: &Msg) -> Option<Purpose>
    ensures { result ≡ purpose_of msg.now }
{
    match msg {
        Msg::Read { class, .. } => Some(Purpose::Piped(*class)),
        Msg::Write { class, .. } => Some(Purpose::Piped(*class)),
        Msg::Null { class, .. } => Some(Purpose::Piped(*class)),
        Msg::Done { ts } => Some(Purpose::Applied(*ts)),
        _ => None,
    }
}

/// With its number, of a packet of a message whose number is above this one.
fn purposed_above(sent: u32, packet: &Packet<Msg>) -> Option<(u32, Purpose)>
    ensures { result ≡ purposed_above sent packet.now }
{
    match packet {
        Packet::Message(number, msg) => {
            if *number <= sent {
                return None;
            }
            match purpose_of(msg) {
                Some(purpose) => Some((*number, purpose)),
                None => None,
            }
        }
        Packet::Ack(_) => None,
    }
}

/// The messages of a link that aren't handed over, with their numbers: those that have a purpose, in
/// order. Contracts see the list of them.
#[derive(Drop)]
pub(crate) struct Waiting {
    messages: VecDeque<(u32, Purpose)>,
}

impl Model for Waiting {
    ghost use Rattle.std.specs.Prelude.{ℕ, List};
    ghost use Rattle.sdd_moments.specs.declared.waiting.Purpose.{Purpose};

    ghost Value = { List (ℕ × Purpose) };

    ghost view = { λ w. w.messages.items };
}

impl Waiting {
    pub(crate) fn new(alloc: Global) -> Waiting
        ensures { result ≡ [] }
    {
        Waiting {
            messages: VecDeque::new(alloc),
        }
    }

    /// Adds the message of a packet, where its number is above this one.
    fn note(&mut self, sent: u32, packet: &Packet<Msg>) -> Result<(), NoMemory>
        ensures { OnOk result (self.new
            ≡ self.old ++ filter_map (purposed_above sent) (packet.now ∷ [])) }
    {
        if let Some(message) = purposed_above(sent, packet) {
            self.messages.push_back(message)?;
        }
        Ok(())
    }

    /// Adds the messages of packets whose numbers are above this one.
    #[tactic(auto, using(crate::proofs::Loops::filtered_more, crate::proofs::Loops::filtered_end))]
    pub(crate) fn note_all(&mut self, sent: u32, packets: &[Packet<Msg>]) -> Result<(), NoMemory>
        ensures { OnOk result (self.new
            ≡ self.old ++ filter_map (purposed_above sent) packets.now) }
    {
        'packets: for packet in packets {
            self.note(sent, packet)?;
        }
        Ok(())
    }

    /// Takes the first message, where its number is this one at most.
    fn take_next(&mut self, upto: u32) -> Option<(u32, Purpose)>
        ensures { MatchOption result
            ((up_to upto self.old ≡ []) × (behind upto self.old ≡ self.new))
            (λ x. (self.old ≡ x ∷ self.new) × (x.0 ≤ upto)) }
    {
        match self.messages.front() {
            Some((number, _)) => {
                if *number > upto {
                    return None;
                }
            }
            None => return None,
        }
        self.messages.pop_front()
    }

    /// Takes the messages up to this number.
    #[tactic(auto, using(crate::proofs::Awaited::taken_more, crate::proofs::Awaited::left_more, crate::proofs::Awaited::taken_end, crate::proofs::Awaited::shorter))]
    pub(crate) fn take_up_to(
        &mut self,
        alloc: Global,
        upto: u32,
    ) -> Result<Vec<(u32, Purpose)>, NoMemory>
        ensures taken { IfOk result (λ taken. taken.items ≡ up_to upto self.old) }
        ensures left { OnOk result (self.new ≡ behind upto self.old) }
    {
        let mut taken = Vec::new(alloc);
        'taking: while let Some(message) = self.take_next(upto) {
            taken.push(message)?;
        }
        Ok(taken)
    }
}
