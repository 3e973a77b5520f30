//! WRITEs that the conditions of a READ hold back.
ghost use Rattle.std.specs.Prelude.{◌≡◌};
ghost use Rattle.std.specs.List.{list_any};
ghost use Rattle.sdd_conditions.specs.Conditions.{holds};

use sdd_base::{Change, ClassNo, Cond, Ts};
use sdd_pipe::touches;

/// Whether a condition of a waiting READ holds back a WRITE of the class with this timestamp and
/// these changes: it is on that class, up to the WRITE's timestamp or to a time before, for a
/// fragment that the WRITE changes. Costs time in the fragments of the condition times the
/// changes.
fn holds(cond: &Cond, class: ClassNo, write: Ts, changes: &[Change]) -> bool
    ensures { result ≡ holds class.0 write.0 changes.now cond.now }
{
    cond.class.0 == class.0 && cond.time.0 <= write.0 && touches(cond.frags.as_slice(), changes)
}

/// Whether one of these conditions holds it back.
pub fn any_holds(conds: &[Cond], class: ClassNo, write: Ts, changes: &[Change]) -> bool
    ensures { result ≡ list_any (holds class.0 write.0 changes.now) conds.now }
{
    conds.iter().any(|cond| holds(cond, class, write, changes))
}
