//! What holds of all made input.
ghost use Rattle.std.specs.Prelude.{◌≤◌};
ghost use Rattle.sdd_script.specs.All.{IsValid, MAX_TXNS};
ghost use Rattle.sdd_make.specs.Bank.{bank};
ghost use Rattle.sdd_make.specs.Turns.{workload_of};

/// The bank allows each made workload: what its transactions and events name is there, values are of
/// their kinds, no name stands twice and no transaction is submitted twice, and counts keep their
/// limits.
pub fn law_workload_allowed(seed: u32, n: u32)
    requires { n ≤ MAX_TXNS }
    ensures { IsValid bank (workload_of seed n) }
{}
