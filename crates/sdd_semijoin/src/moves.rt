ghost use Rattle.std.specs.Prelude.{◌≡◌};

use crate::step::Step;
use sdd_lang::Ref;
use std::marker::Model;

/// A reducer step with its two columns, each of a use of the query.
#[derive(Drop)]
pub struct Move {
    step: Step,
    source: Ref,
    target: Ref,
}

impl Model for Move {
    ghost use Rattle.sdd_semijoin.specs.Steps as steps;

    ghost Value = { steps.Move };

    ghost view = { λ m. record { step = m.step; source = m.source; target = m.target } };
}

impl Move {
    pub(crate) fn new(step: Step, source: Ref, target: Ref) -> Move
        ensures { result ≡ record { step = step; source = source; target = target } }
    {
        Move {
            step,
            source,
            target,
        }
    }

    /// The step.
    pub fn step(&self) -> Step
        ensures { result ≡ self.now.step }
    {
        self.step
    }

    /// The column that gives the values.
    pub fn source(&self) -> Ref
        ensures { result ≡ self.now.source }
    {
        self.source
    }

    /// The column that is reduced: of its use the rows stay that have one of the values.
    pub fn target(&self) -> Ref
        ensures { result ≡ self.now.target }
    {
        self.target
    }
}
