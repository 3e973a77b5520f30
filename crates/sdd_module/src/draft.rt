ghost use Rattle.std.specs.Prelude.{◌≡◌, ◌++◌, ◌∷◌, [], OnOk};
ghost use Rattle.sdd_module.specs.Notes.{nothing_noted};

use sdd_history::{Rec, Recs};
use sdd_lang::{NoMemory, Site};
use sdd_wire::{Msg, Outcome, Outs};
use std::alloc::Global;
use std::marker::Model;

/// The outcome of a call as far as it has come: what it recorded and sent until now.
#[derive(Drop)]
pub struct Draft {
    recs: Vec<Rec>,
    out: Vec<(Site, Msg)>,
}

impl Model for Draft {
    ghost use Rattle.sdd_module.specs.Notes.{Notes};

    ghost Value = { Notes };

    ghost view = { λ d. record { recs = d.recs.items; out = d.out.items } };
}

impl Draft {
    /// Nothing is recorded or sent yet. Takes no memory.
    pub fn new(alloc: Global) -> Draft
        ensures { result ≡ nothing_noted }
    {
        Draft {
            recs: Vec::new(alloc),
            out: Vec::new(alloc),
        }
    }

    /// Adds a record after the others.
    pub fn record(&mut self, rec: Rec) -> Result<(), NoMemory>
        ensures { OnOk result (self.new ≡ record self.old { recs = self.old.recs ++ rec ∷ [] }) }
    {
        self.recs.push(rec)?;
        Ok(())
    }

    /// Adds a message after the others.
    pub fn send(&mut self, to: Site, msg: Msg) -> Result<(), NoMemory>
        ensures { OnOk result (
            self.new ≡ record self.old { out = self.old.out ++ (to, msg) ∷ [] }) }
    {
        self.out.push((to, msg))?;
        Ok(())
    }

    /// The outcome. Takes no memory.
    pub fn finish(self) -> Outcome
        ensures recs { result.recs ≡ self.recs }
        ensures out { result.out ≡ self.out }
    {
        let Draft { recs, out } = self;
        Outcome {
            out: Outs::from_vec(out),
            recs: Recs::from_vec(recs),
        }
    }
}
