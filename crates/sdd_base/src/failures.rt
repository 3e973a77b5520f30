ghost use Rattle.std.specs.Prelude.{◌≡◌, ◌↔◌, IsTrue};
ghost use Rattle.sdd_base.specs.Memory.{IsListed, called};

use crate::files::CallNos;
use std::marker::Model;

/// How an object in memory is made to fail: the listed calls do, and a call moves at most so many bytes.
#[derive(Drop)]
pub struct Failures {
    most: usize,
    fails: CallNos,
    calls: u64,
}

impl Model for Failures {
    ghost use Rattle.sdd_base.specs.Memory.{Failing};

    ghost Value = { Failing };

    ghost view = { λ f. record { most = f.most; fails = f.fails; calls = f.calls } };
}

impl Failures {
    pub fn new(most: usize, fails: CallNos) -> Self
        ensures { result ≡ record { most = most; fails = fails; calls = 0 } }
    {
        Failures {
            most,
            fails,
            calls: 0,
        }
    }

    /// Counts a call, and says whether it is a listed one.
    pub fn next_call_fails(&mut self) -> bool
        ensures listed { IsTrue result ↔ IsListed self.old }
        ensures called { self.new ≡ called self.old }
    {
        self.calls = self.calls.saturating_add(1);
        self.fails.as_slice().contains(&self.calls)
    }

    pub fn most(&self) -> usize
        ensures { result ≡ self.now.most }
    {
        self.most
    }
}
