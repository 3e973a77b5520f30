ghost use Rattle.std.specs.Prelude.{◌≡◌, ℕ, ◌≤◌, ◌<◌, ◌-◌, List, length, take, Option, IfOk, OnErr, IsOk};
ghost use Rattle.sdd_base.specs.Outside.{HasCause, with_end};

use crate::shelf::Failed;

/// A place that takes bytes, as standard output.
///
/// What it took is known or not, and no call changes which. Of the system's streams it is unknown.
pub trait Sink {
    // The bytes taken so far, where they are known.
    ghost taken: { Self → Option (List ℕ) };
    // How often a call has failed. The count stands still at its type's end.
    ghost faults: { Self → ℕ };
    // So many more bytes are taken without a fault.
    ghost sure: { Self → ℕ → Type 0 };

    /// Takes some bytes from the front of the piece, at least one where there is one, and gives how
    /// many. Takes no memory.
    fn write(&mut self, bytes: &[u8]) -> Result<usize, Failed>
        ensures bound { IfOk result (λ n. n ≤ length bytes.now) }
        ensures progress { IfOk result (λ n. 0 < length bytes.now → 0 < n) }
        ensures taken { IfOk result (λ n. taken self.new ≡ with_end (taken self.old) (take n bytes.now)) }
        ensures kept { OnErr result (taken self.new ≡ taken self.old) }
        ensures cause { HasCause (faults self.old) (faults self.new) result }
        ensures surely { (room : ℕ) → length bytes.now ≤ room → sure self.old room → IsOk result × (faults self.new ≡ faults self.old) }
        ensures room { (room : ℕ) → sure self.old room → IfOk result (λ n. sure self.new (room - n)) };
}
