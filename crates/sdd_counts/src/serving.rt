ghost use Rattle.std.specs.Prelude.{◌≡◌, ◌<◌, ◌+◌, ◌^◌};
ghost use Rattle.sdd_rules.specs.umod.Views.{turn};
ghost use Rattle.sdd_counts.specs.Serving.{committed, done_after_message, is_applied, nothing_served};

use sdd_rules::Ts;
use std::marker::Model;

/// How many attempts committed, the timestamp of the last, and how many data modules said that
/// they applied it.
#[derive(Drop)]
pub struct Serving {
    commits: u64,
    ts: Ts,
    dones: u32,
}

impl Model for Serving {
    ghost use Rattle.std.specs.Prelude.{◌<◌, ◌^◌};
    ghost use Rattle.sdd_rules.specs.umod.Views.{Served};

    ghost Value = { Served };

    ghost view = { λ v. record { commits = v.commits; ts = v.ts.0; dones = v.dones } };

    ghost invariant = { λ v. v.commits < 2 ^ 60 };
}

impl Serving {
    /// Nothing was served yet.
    pub fn new() -> Serving
        ensures { result ≡ nothing_served }
    {
        Serving {
            commits: 0,
            ts: Ts(0),
            dones: 0,
        }
    }

    /// How many attempts committed.
    pub fn commits(&self) -> u64
        ensures { result ≡ self.now.commits }
    {
        self.commits
    }

    /// The number of the transaction that is served next, from 1.
    pub fn turn(&self) -> u64
        ensures { result ≡ turn self.now }
    {
        self.commits + 1
    }

    /// The timestamp of the last one.
    pub fn ts(&self) -> Ts
        ensures { result.0 ≡ self.now.ts }
    {
        self.ts
    }

    /// Whether all of so many data modules applied it.
    pub fn is_applied(&self, dms: u32) -> bool
        ensures { result ≡ is_applied dms self.now }
    {
        self.dones == dms
    }

    /// Counts the Commit of the attempt with this timestamp.
    pub fn commit(&mut self, ts: Ts)
        requires { self.old.commits + 1 < 2 ^ 60 }
        ensures { self.new ≡ committed ts.0 self.old }
    {
        self.commits += 1;
        self.ts = ts;
        self.dones = 0;
    }

    /// Counts a DONE for the attempt with this timestamp, where that is the last one.
    pub fn done(&mut self, ts: Ts)
        ensures { self.new ≡ done_after_message ts.0 self.old }
    {
        if ts.0 == self.ts.0 {
            self.dones = self.dones.saturating_add(1);
        }
    }
}
