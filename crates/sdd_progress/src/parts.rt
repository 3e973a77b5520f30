ghost use Rattle.std.specs.Prelude.{◌≡◌, ◌<◌, ◌≤◌, ℕ, true, List, Some, slice_get};
ghost use Rattle.sdd_obligations.specs.All.{Attempt, Change, ClassNo, Cond, DmNo, FitsInput, Input, IsClass, IsModule, IsPermitted, IsSoundCatalogue, Log, Read, Site, Ts, TxnNo, Use, Write, active, hands_from, head, home, is_link, local_of, pipe_at, puts_to, redeclares, setting_of};
ghost use Rattle.sdd_progress.specs.AwaitedModules.{IsUnanswered};
ghost use Rattle.sdd_progress.specs.Going.{IsGoing};
ghost use Rattle.sdd_progress.specs.Premises.{IsIdleAtRedeclares, IsSoundList};
ghost use Rattle.sdd_progress.specs.Quiet.{IsQuiet, at_home};
ghost use Rattle.sdd_progress.specs.Waiting.{IsReader};

/// A law: where nothing goes on, each message that was put on a link is handed over, in the order of
/// the puts.
pub fn law_handed()
    ensures { (given : Input) (log : Log) (from to : Site) → IsQuiet given log
        → is_link given.catalogue.tms given.catalogue.dms from to ≡ true
        → hands_from from (local_of given to log) ≡ puts_to to (local_of given from log) }
{}

/// A law: an attempt under way goes on as long as answers come: where its exchange isn't over, it
/// waits for the answer of a module, or has something to send.
pub fn law_exchanges()
    ensures { (given : Input) (log : Log) (class : ℕ) (attempt : Attempt) → IsPermitted given log
        → FitsInput given → IsClass given.catalogue class
        → active (setting_of given (home given.catalogue class)) class (at_home given class log)
        ≡ Some attempt → IsGoing attempt.exchange }
{}

/// A law: where nothing goes on, a module has the READ of each attempt under way, and hasn't
/// processed it.
pub fn law_unanswered()
    ensures { (given : Input) (log : Log) (class : ℕ) (attempt : Attempt) → IsQuiet given log
        → FitsInput given → IsClass given.catalogue class
        → active (setting_of given (home given.catalogue class)) class (at_home given class log)
        ≡ Some attempt → IsUnanswered given log class attempt.ts }
{}

/// A law: a READ of class 0 that is next at a module comes after the WRITEs of other classes that are
/// next there, and its conditions have its own time. So it holds none of them back.
pub fn law_class_zero()
    ensures after_writes { (given : Input) (log : Log) (class : ℕ) (d : DmNo) (ts : Ts)
        (of : ClassNo) (txn : TxnNo) (attempt : ℕ) (conds : List Cond) (uses : List Use)
        (write : Ts) (by : ClassNo) (writer : TxnNo) (changes : List Change)
        → IsSoundCatalogue given.catalogue → IsPermitted given log → 1 ≤ class
        → IsClass given.catalogue class → IsModule given.catalogue d.0
        → head (pipe_at given 0 d log) ≡ Some (Read ts of txn attempt conds uses)
        → head (pipe_at given class d log) ≡ Some (Write write by writer changes)
        → write.0 < ts.0 }
    ensures own_time { (given : Input) (log : Log) (d : DmNo) (ts : Ts) (of : ClassNo)
        (txn : TxnNo) (attempt : ℕ) (conds : List Cond) (uses : List Use) (place : ℕ)
        (cond : Cond) → IsPermitted given log
        → head (pipe_at given 0 d log) ≡ Some (Read ts of txn attempt conds uses)
        → slice_get conds place ≡ Some cond → cond.time.0 ≡ ts.0 }
{}

/// A law: where nothing goes on, no READ waits: each has conditions of the class list in force.
pub fn law_none_waits()
    ensures { (given : Input) (log : Log) → IsQuiet given log
        → IsSoundList given (redeclares log) → IsIdleAtRedeclares given log → (class ts : ℕ) (conds : List Cond)
        → IsReader given log class ts conds → ⊥ }
{}
