//! What transaction control promises for every list of events.
ghost use Rattle.sdd_control.specs.Laws.{AllWritten, LeaderEnds, NeverUnknown, NoneWritten, OneValue};
ghost use Rattle.sdd_backups.specs.Steps.{FitAll, log_of};

use sdd_backups::Act;

/// Two sites that finish have one value. Does nothing when it runs.
#[tactic(auto, using(crate::proofs::Promises::one_value_of))]
pub fn law_one_value(backups: u32, writes: u32, acts: &[Act])
    requires { FitAll backups acts.now }
    ensures { OneValue (log_of backups writes acts.now) }
{}

/// Where a site finished with all, every write was made; where one finished with none, no write was
/// made, before or after; and no site finishes with another value. Does nothing when it runs.
pub fn law_all_or_none(backups: u32, writes: u32, acts: &[Act])
    requires { FitAll backups acts.now }
    ensures all { AllWritten writes (log_of backups writes acts.now) }
    ensures none { NoneWritten (log_of backups writes acts.now) }
    ensures known { NeverUnknown (log_of backups writes acts.now) }
{}

/// Where nothing is left to do, the lowest site that hasn't stopped has finished. Does nothing when
/// it runs.
pub fn law_leader(backups: u32, writes: u32, acts: &[Act])
    requires { FitAll backups acts.now }
    ensures { LeaderEnds backups writes (log_of backups writes acts.now) }
{}
