ghost use Rattle.std.specs.Prelude.{◌≡◌, ◌<◌, ◌^◌, ℕ, List, Ok, IfOk, All};
ghost use Rattle.sdd_base.specs.Readings.{GivesReading};
ghost use Rattle.sdd_wire.specs.declared.msg.Msg.{Msg as Message};
ghost use Rattle.sdd_wire.specs.Spelling.{spelled};
ghost use Rattle.sdd_wire.specs.Fits.{FitsMsg};
ghost use Rattle.sdd_wire.specs.Reading.{message_in, fault_in};

use crate::fault::WireFault;
use crate::msg::Msg;
use crate::source::Source;
use crate::spelled::Spelled;
use std::alloc::Global;

#[tactic(auto, unfolding(crate::specs::Reading::message_in))]
fn whole_message(alloc: Global, bytes: &[u8]) -> Result<Msg, WireFault>
    ensures { GivesReading fault_in (λ msg. msg) result (message_in bytes.now) }
{
    let mut source = Source::new(bytes);
    let msg = Msg::read(alloc, &mut source)?;
    if source.is_empty() {
        Ok(msg)
    } else {
        Err(WireFault::Bad(source.place()))
    }
}

/// The message of which the bytes are the whole spelling, or else the place where they break it.
///
/// Costs time and memory linear in the bytes, whatever counts and lengths they name: for what isn't
/// there, it takes only room for the first few items of a list.
pub fn decode(alloc: Global, bytes: &[u8]) -> Result<Msg, WireFault>
    // What is read is spelled so.
    ensures spelled { IfOk result (λ msg. FitsMsg msg × (bytes.now ≡ spelled msg)) }
    // What is spelled so is read, unless memory runs out.
    ensures read { (msg : Message) → FitsMsg msg → bytes.now ≡ spelled msg
        → GivesReading fault_in (λ found. found) result (Ok msg) }
    // Where the bytes break it.
    ensures exact { GivesReading fault_in (λ msg. msg) result (message_in bytes.now) }
{
    whole_message(alloc, bytes)
}

/// A law: each message is read back from its spelling, and what is read is spelled so.
pub fn law_spelling()
    ensures read_back { (msg : Message) → FitsMsg msg → message_in (spelled msg) ≡ Ok msg }
    ensures spelled_so { (bytes : List ℕ) (msg : Message) → All (λ byte. byte < 2 ^ 8) bytes
        → message_in bytes ≡ Ok msg → FitsMsg msg × (bytes ≡ spelled msg) }
{}
