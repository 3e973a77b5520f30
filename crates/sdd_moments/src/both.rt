//! Parts of a moment, as they were before an event and as they are after it.
ghost use Rattle.std.specs.Prelude.{◌≡◌, ◌++◌, ◌∷◌, [], OnOk};

use sdd_progress::NoMemory;
use std::alloc::Global;

/// Parts of a moment, as they were before an event and as they are after it.
#[derive(Drop)]
pub struct Both<T> {
    pub before: Vec<T>,
    pub after: Vec<T>,
}

impl<T: Drop> Both<T> {
    pub(crate) fn new(alloc: Global) -> Both<T>
        ensures before { result.before.items ≡ [] }
        ensures after { result.after.items ≡ [] }
    {
        Both {
            before: Vec::new(alloc),
            after: Vec::new(alloc),
        }
    }

    /// Adds a part, as it was and as it is.
    pub(crate) fn add(&mut self, before: T, after: T) -> Result<(), NoMemory>
        ensures before { OnOk result (self.new.before.items ≡ self.old.before.items ++ before ∷ []) }
        ensures after { OnOk result (self.new.after.items ≡ self.old.after.items ++ after ∷ []) }
    {
        self.before.push(before)?;
        self.after.push(after)?;
        Ok(())
    }
}
