ghost use Rattle.std.specs.List.{list_all};
ghost use Rattle.std.specs.Prelude.{◌≡◌, ◌≤◌, ◌⊎◌, ◌++◌, ◌∷◌, ℕ, List, None, Some, false, length, true};
ghost use Rattle.sdd_obligations.specs.invariants.All.{ClassNo, Cond, D, DmNo, Entry, Input, IsLawful, IsTheLog, Log, Read, Ts, TxnNo, Use, head, is_met, local_of, pipe_at, setting_of, spoiler, view_of, waits};
ghost use Rattle.sdd_progress.specs.Answers.{EndsAnEvent, IsEventOver, begins_event};
ghost use Rattle.sdd_progress.specs.Answers.{IsAnsweredIn, IsRejectedAfter};

/// An event is over just before each entry of a lawful log that begins another one, and at the end
/// of the log of what is given.
pub fn law_event_over()
    ensures before_next { (given : Input) (entry : Entry) (log : Log)
        → IsLawful given (entry ∷ log) → begins_event entry ≡ true → IsEventOver given log }
    ensures at_end { (given : Input) (log : Log) → IsTheLog given log → IsEventOver given log }
{}

/// Once each class that the conditions of a READ that waits name has passed their times, the READ
/// is answered before the event is over: up to any point where one is over, and so up to the first.
pub fn law_answered()
    ensures { (given : Input) (d : DmNo) (class : ℕ) (later log : Log) (ts : Ts) (of : ClassNo)
        (txn : TxnNo) (attempt : ℕ) (conds : List Cond) (uses : List Use)
        → EndsAnEvent given (later ++ log) → class ≤ length given.catalogue.classes
        → 1 ≤ d.0 → d.0 ≤ given.catalogue.dms → waits class (local_of given (D d) log) ≡ true
        → head (pipe_at given class d log) ≡ Some (Read ts of txn attempt conds uses)
        → list_all (is_met (view_of (setting_of given (D d)) (local_of given (D d) log))) conds
        ≡ true
        → IsAnsweredIn d class txn attempt later }
{}

/// A READ at the head of its pipe that doesn't wait and isn't spoilt, where each class that its
/// conditions name has passed their times, is answered before the event is over, or rejected after
/// an Apply that spoils it.
pub fn law_answered_or_rejected()
    ensures { (given : Input) (d : DmNo) (class : ℕ) (later log : Log) (ts : Ts) (of : ClassNo)
        (txn : TxnNo) (attempt : ℕ) (conds : List Cond) (uses : List Use)
        → EndsAnEvent given (later ++ log) → class ≤ length given.catalogue.classes
        → 1 ≤ d.0 → d.0 ≤ given.catalogue.dms → waits class (local_of given (D d) log) ≡ false
        → head (pipe_at given class d log) ≡ Some (Read ts of txn attempt conds uses)
        → list_all (is_met (view_of (setting_of given (D d)) (local_of given (D d) log))) conds
        ≡ true
        → spoiler (view_of (setting_of given (D d)) (local_of given (D d) log)) conds ≡ None
        → IsAnsweredIn d class txn attempt later
        ⊎ IsRejectedAfter given log d class txn attempt conds later }
{}
