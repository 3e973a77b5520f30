ghost use Rattle.std.specs.Prelude.{◌≡◌, ◌++◌, List, ℕ, OnOk};
ghost use Rattle.sdd_base.specs.Readings.{GivesReading};
ghost use Rattle.sdd_wire.specs.Source.{Reading};
ghost use Rattle.sdd_wire.specs.Reading.{fault_in};

use crate::fault::WireFault;
use crate::source::Source;
use sdd_base::NoMemory;
use std::alloc::Global;

/// A part of a message, which has one spelling in bytes.
pub(crate) trait Spelled: Sized + Drop {
    /// Its bytes.
    ghost spelling: { Self → List ℕ };

    /// What bytes spell it, and where others break.
    ghost reading: { Reading Self };

    /// Holds of every value that a program has of the type: each is read back from its spelling.
    ghost fits: { Self → Type 0 };

    /// Puts its spelling at the end.
    fn put(&self, out: &mut Vec<u8>) -> Result<(), NoMemory>
        ensures spelling { OnOk result (out.new.items ≡ out.old.items ++ spelling self.now) }
        ensures fits { OnOk result (fits self.now) };

    /// Reads it from the front of what is left.
    fn read(alloc: Global, source: &mut Source<'_>) -> Result<Self, WireFault>
        ensures { GivesReading fault_in (λ x. (x, source.new)) result (reading source.old) };
}
