use sdd_module::{ClassNo, NoMemory};
use std::alloc::Global;

/// By class what kept the head of its pipe from acting when it was looked at last: of a READ that
/// waits the place of a condition that wasn't met, of a held WRITE the class of the READ that held
/// it back. It is tested first, which mostly saves the other tests; it decides nothing.
#[derive(Drop)]
pub struct Hints {
    hints: Vec<u32>,
}

impl Hints {
    /// No hints, for so many classes.
    pub fn new(alloc: Global, classes: u32) -> Result<Hints, NoMemory> {
        let mut hints = Vec::with_capacity(alloc, classes as usize)?;
        for _ in 0..classes {
            hints.push(0)?;
        }
        Ok(Hints { hints })
    }

    pub fn at(&self, class: ClassNo) -> u32 {
        match self.hints.get(class.0 as usize) {
            Some(hint) => *hint,
            None => 0,
        }
    }

    pub fn set(&mut self, class: ClassNo, hint: u32) {
        let at = class.0 as usize;
        if at < self.hints.len() {
            self.hints[at] = hint;
        }
    }
}
