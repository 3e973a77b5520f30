ghost use Rattle.sdd_obligations.specs.invariants.All.{AreSubmittedOnce, Input};
ghost use Rattle.sdd_progress.specs.Ends.{Ends, Settles};

/// A law: a run ends. There is the lawful log of what is given, complete and within the limits, or
/// one whose next entry would pass a limit; that memory may be out is left aside.
pub fn law_run_ends()
    ensures { (given : Input) → AreSubmittedOnce given.events → Ends given }
{}

/// A law: a settle at the end of what is given ends, with quiet links, or the limit ends the run.
pub fn law_settle_ends()
    ensures { (given : Input) → AreSubmittedOnce given.events → Settles given }
{}
