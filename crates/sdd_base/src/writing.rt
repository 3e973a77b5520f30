ghost use Rattle.std.specs.Prelude.{◌≡◌, ℕ, ◌≤◌, ◌-◌, List, length, take, OnOk, OnErr, IsOk};
ghost use Rattle.sdd_base.specs.Outside.{HasCause, with_end};

use crate::shelf::Failed;
use crate::sink::Sink;

/// Writes a finished text to its end. After a fault the sink took its first part. Takes no memory.
pub fn write_text<O: Sink>(out: &mut O, text: &[u8]) -> Result<(), Failed>
    ensures done { OnOk result (O.taken out.new ≡ with_end (O.taken out.old) text.now) }
    ensures front { OnErr result ((n : ℕ) × (O.taken out.new ≡ with_end (O.taken out.old) (take n text.now))) }
    ensures cause { HasCause (O.faults out.old) (O.faults out.new) result }
    ensures surely { (room : ℕ) → length text.now ≤ room → O.sure out.old room → IsOk result × (O.faults out.new ≡ O.faults out.old) }
    ensures room { (room : ℕ) → length text.now ≤ room → O.sure out.old room → O.sure out.new (room - length text.now) }
{
    let mut at = 0;
    'put: while at < text.len() {
        let (_, rest) = text.split_at(at);
        let n = out.write(rest)?;
        at += n;
    }
    Ok(())
}
