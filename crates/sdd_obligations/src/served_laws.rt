ghost use Rattle.std.specs.Prelude.{◌≡◌, ◌∷◌, ℕ, List, Some};
ghost use Rattle.sdd_invariants.specs.All.{Attempt, ClassNo, D, DmNo, Hand, Input, IsPermitted, Log, Row, Rows, ServesIfLast, Ts, active, base_of, home, local_of, setting_of, without};
ghost use Rattle.sdd_needs.specs.Inputs.{FitsInput};
ghost use Rattle.sdd_needs.specs.Inputs.{HasEras};

/// When the last ROWS of an active attempt may be handed over next, the rows that came before and
/// these serve the database of its snapshots.
pub fn law_rows_serve()
    ensures { (given : Input) (class : ℕ) (log : Log) (attempt : Attempt) (d : DmNo) (n : ℕ)
        (ts : Ts) (of : ClassNo) (rows : List (ℕ × Row))
        → FitsInput given → HasEras given
        → IsPermitted given (Hand (D d) (home given.catalogue class) n (Rows ts of rows) ∷ log)
        → active (setting_of given (home given.catalogue class)) class
        (local_of given (home given.catalogue class) log) ≡ Some attempt
        → ts.0 ≡ attempt.ts → of.0 ≡ class
        → ServesIfLast (setting_of given (home given.catalogue class))
        (base_of given (Hand (D d) (home given.catalogue class) n (Rows ts of rows) ∷ log))
        attempt rows (without attempt.exchange.lacks d.0) }
{}
