ghost use Rattle.std.specs.Prelude.{◌≡◌, ℕ, true, Some};
ghost use Rattle.sdd_invariants.specs.All.{Attempt, Input, IsPermitted, Log, active, base_of, home, is_over, local_of, modules_asked, setting_of};
ghost use Rattle.sdd_serving.specs.Freezing.{HasCopies};
ghost use Rattle.sdd_needs.specs.Inputs.{FitsInput};
ghost use Rattle.sdd_obligations.specs.Reading.{copies_read};
ghost use Rattle.sdd_needs.specs.Inputs.{HasEras};

/// Once the exchange of an active attempt is over, the database of its snapshots has the copies
/// that the modules which it asked had just before their Answers.
pub fn law_copies_read()
    ensures { (given : Input) (class : ℕ) (log : Log) (attempt : Attempt)
        → FitsInput given → HasEras given → IsPermitted given log
        → active (setting_of given (home given.catalogue class)) class
        (local_of given (home given.catalogue class) log) ≡ Some attempt
        → is_over attempt.exchange.phase ≡ true
        → HasCopies given.catalogue class attempt.text
        (modules_asked (setting_of given (home given.catalogue class)) class attempt.text)
        (copies_read given log attempt.ts) (base_of given log attempt.ts) }
{}
