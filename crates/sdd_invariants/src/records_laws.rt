ghost use Rattle.std.specs.Prelude.{◌≡◌, ◌≤◌, ◌<◌, ◌==◌, ◌⊎◌, ◌++◌, ◌∷◌, ℕ, List, true, length, Some, None};
ghost use Rattle.sdd_log.specs.All.{Act, Answer, Apply, Attempt, Bases, Change, ClassNo, Cond, D, DmNo, Does, Input, IsPermitted, Log, Msg, Queued, Read, Records, Site, T, TmNo, Ts, TxnNo, U, Use, Write, active, base_of, commit_act, contains, head, head_of, local_of, number_of, queue, setting_of, time_of};
ghost use Rattle.sdd_invariants.specs.Steps.{home, modules_asked};
ghost use Rattle.sdd_invariants.specs.OfRecords.{Says};
ghost use Rattle.sdd_invariants.specs.Seen.{IsApplied, changes_to, pipe_at};
ghost use Rattle.sdd_invariants.specs.Causes.{HasAnswer, IsAgain, IsApplyOf, IsBased, IsReadOf};

/// What a Start and a Commit say of the log of their site before them.
pub fn law_starts()
    ensures { (given : Input) (class : ℕ) (log : Log) (act : Act)
        → IsPermitted given (Does (home given.catalogue class) act ∷ log)
        → number_of (home given.catalogue class) ≤ 63
        → Says (setting_of given (home given.catalogue class))
        (local_of given (home given.catalogue class) log) act }
{}

/// A READ at the head of a pipe was put by the Start of its attempt; it is answered once; and a
/// Commit has an Answer of its attempt at each module that it reads.
pub fn law_answers()
    ensures started { (given : Input) (class : ℕ) (d : DmNo) (log : Log) (ts : Ts) (of : ClassNo)
        (txn : TxnNo) (attempt : ℕ) (conds : List Cond) (uses : List Use)
        → IsPermitted given log
        → head (pipe_at given class d log) ≡ Some (Read ts of txn attempt conds uses)
        → (of.0 ≡ class) × IsReadOf given log class txn.0 attempt ts.0 }
    ensures once { (given : Input) (class : ℕ) (d : DmNo) (later before : Log) (dm : DmNo)
        (sends : List (Site × Msg)) (ts1 ts2 : Ts) (of1 of2 : ClassNo) (txn1 txn2 : TxnNo)
        (attempt1 attempt2 : ℕ) (conds1 conds2 : List Cond) (uses1 uses2 : List Use)
        → IsPermitted given
        (later ++ Does (D d) (Records class (Answer txn1 attempt1 dm) sends) ∷ before)
        → number_of (home given.catalogue class) ≤ 63
        → head (pipe_at given class d before)
        ≡ Some (Read ts1 of1 txn1 attempt1 conds1 uses1)
        → head (pipe_at given class d
        (later ++ Does (D d) (Records class (Answer txn1 attempt1 dm) sends) ∷ before))
        ≡ Some (Read ts2 of2 txn2 attempt2 conds2 uses2)
        → txn1.0 ≡ txn2.0 → attempt1 ≡ attempt2 → ⊥ }
    ensures before_commit { (given : Input) (class : ℕ) (log : Log) (bases : Bases)
        (attempt : Attempt) (d : DmNo)
        → IsPermitted given
        (Does (home given.catalogue class) (commit_act given.catalogue bases class attempt) ∷ log)
        → active (setting_of given (home given.catalogue class)) class
        (local_of given (home given.catalogue class) log) ≡ Some attempt
        → contains (modules_asked (setting_of given (home given.catalogue class)) class
        attempt.text) d.0 ≡ true
        → HasAnswer given log d class attempt }
{}

/// The reply and the changes of a Commit are those of the effect on the database of its attempt's
/// snapshots, and its counts those of its exchange.
pub fn law_effects()
    ensures declared { (given : Input) (t : TmNo) (log : Log) (act : Act)
        → IsPermitted given (Does (T t) act ∷ log)
        → IsBased (setting_of given (T t)) (base_of given log) (local_of given (T t) log) act }
    ensures undeclared { (given : Input) (log : Log) (act : Act)
        → IsPermitted given (Does U act ∷ log)
        → IsBased (setting_of given U) (base_of given log) (local_of given U log) act }
{}

/// An Apply follows the Commit of its transaction; of a class what a module applied before has
/// smaller timestamps; and where a module has a message of a class at the head of its pipe, what
/// is committed anywhere in the log and touches the module is applied if it has a smaller
/// timestamp, and isn't if it has a greater one.
pub fn law_applies()
    ensures follows { (given : Input) (log : Log) (d : DmNo) (class : ℕ) (txn : TxnNo)
        (of : ClassNo) (dm : DmNo) (ts : Ts) (sends : List (Site × Msg))
        → IsPermitted given (Does (D d) (Records class (Apply txn of dm ts) sends) ∷ log)
        → (of.0 ≡ class) × IsApplyOf given log d class txn.0 ts.0 }
    ensures rise { (given : Input) (log : Log) (d : DmNo) (class : ℕ) (ts : Ts) (of : ClassNo)
        (txn : TxnNo) (changes : List Change) (attempt : Attempt)
        → IsPermitted given log → number_of (home given.catalogue class) ≤ 63
        → head (pipe_at given class d log) ≡ Some (Write ts of txn changes)
        → IsApplied given log d class attempt → attempt.ts < ts.0 }
    ensures around { (given : Input) (class : ℕ) (d : DmNo) (later log after before : Log)
        (msg : Msg) (bases : Bases) (attempt : Attempt)
        → IsPermitted given (later ++ log) → number_of (home given.catalogue class) ≤ 63
        → 1 ≤ d.0 → d.0 ≤ given.catalogue.dms
        → head (pipe_at given class d log) ≡ Some msg
        → later ++ log
        ≡ after ++ Does (home given.catalogue class)
        (commit_act given.catalogue bases class attempt) ∷ before
        → ((class == 0) ≡ true) ⊎ (0 < length (changes_to given bases attempt d))
        → (attempt.ts < time_of msg → IsApplied given log d class attempt)
        × (time_of msg < attempt.ts → IsApplied given log d class attempt → ⊥) }
{}

/// Where the head of an idle class's queue was started before, a module rejected its last attempt,
/// by a WRITE that it had processed though one of the attempt's conditions kept it back, and whose
/// time lies below the class's bound now.
pub fn law_again()
    ensures { (given : Input) (class : ℕ) (log : Log) (queued : Queued) → IsPermitted given log
        → ((k : ℕ) → number_of (home given.catalogue k) ≤ 62)
        → active (setting_of given (home given.catalogue class)) class
        (local_of given (home given.catalogue class) log) ≡ None
        → head_of (queue (setting_of given (home given.catalogue class)) class
        (local_of given (home given.catalogue class) log)) ≡ Some queued
        → 0 < queued.tries → IsAgain given log class queued }
{}
