ghost use Rattle.std.specs.Prelude.{◌≡◌, ◌++◌, ◌∷◌, [], length, OnOk};
ghost use Rattle.sdd_control.specs.declared.stage.Stage.TheVariants.{First};

use crate::stage::Stage;
use sdd_backups::{Act, Acts};
use sdd_script::NoMemory;
use std::alloc::Global;
use std::marker::Model;

/// What the lines so far have said.
#[derive(Drop)]
pub struct Draft {
    stage: Stage,
    acts: Vec<Act>,
}

impl Model for Draft {
    ghost use Rattle.sdd_control.specs.Draft.{Draft};

    ghost Value = { Draft };

    ghost view = { λ d. record { stage = d.stage; acts = d.acts.items } };
}

impl Draft {
    /// Before the first line. Takes no memory.
    pub fn new(alloc: Global) -> Draft
        ensures { result ≡ record { stage = First; acts = [] } }
    {
        Draft {
            stage: Stage::First,
            acts: Vec::new(alloc),
        }
    }

    pub fn stage(&self) -> Stage
        ensures { result ≡ self.now.stage }
    {
        self.stage
    }

    pub fn set_stage(&mut self, stage: Stage)
        ensures { self.new ≡ record self.old { stage = stage } }
    {
        self.stage = stage;
    }

    /// How many events there are.
    pub fn len(&self) -> usize
        ensures { result ≡ length self.now.acts }
    {
        self.acts.len()
    }

    pub fn push(&mut self, act: Act) -> Result<(), NoMemory>
        ensures { OnOk result (self.new ≡ record self.old { acts = self.old.acts ++ act ∷ [] }) }
    {
        match self.acts.push(act) {
            Ok(()) => Ok(()),
            Err(_) => Err(NoMemory),
        }
    }

    /// The events. Takes no memory.
    pub fn into_acts(self) -> Acts
        ensures { result ≡ self.acts }
    {
        Acts::from_vec(self.acts)
    }
}
