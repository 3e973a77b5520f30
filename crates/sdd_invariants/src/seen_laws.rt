ghost use Rattle.std.specs.Prelude.{◌≡◌, ◌≢◌, ◌≤◌, ◌<◌, ◌++◌, ◌∷◌, ℕ, List, length, slice_get, Some, true};
ghost use Rattle.sdd_log.specs.All.{Act, Attempt, Bases, Cond, D, DmNo, Does, Input, IsPermitted, Log, Msg, commit_act, head, number_of, time_of, touches};
ghost use Rattle.sdd_invariants.specs.Steps.{home};
ghost use Rattle.sdd_invariants.specs.Seen.{all_of, class_puts, pipe_at, IsAnswerWith, IsApplied, changes_to};

/// What came to the pipe of a class is a first part of what its site puts there, in this log and
/// in every one that goes on from it.
pub fn law_pipes()
    ensures { (given : Input) (class : ℕ) (d : DmNo) (later log : Log) → IsPermitted given log
        → (more : List Msg)
        × (class_puts given class d (later ++ log) ≡ all_of (pipe_at given class d log) ++ more) }
{}

/// When `m` is at the head of the pipe of its class, exactly the messages of the class with smaller
/// times have been processed, also of those that are put later in the log.
pub fn law_class_order()
    ensures { (given : Input) (class : ℕ) (d : DmNo) (later log : Log) (place : ℕ) (x m : Msg)
        → IsPermitted given (later ++ log) → number_of (home given.catalogue class) ≤ 63
        → head (pipe_at given class d log) ≡ Some m
        → slice_get (class_puts given class d (later ++ log)) place ≡ Some x
        → (time_of x < time_of m → place < length (pipe_at given class d log).processed)
        × (time_of m < time_of x → length (pipe_at given class d log).processed < place) }
{}

/// At an Answer with a condition: a transaction of the condition's class that is committed
/// anywhere in the log, and changes one of the condition's fragments of which the module has a
/// copy, is applied there before the Answer exactly where its timestamp is below the condition's
/// time.
pub fn law_split()
    ensures { (given : Input) (d : DmNo) (cond : Cond) (act : Act) (later log after before : Log)
        (bases : Bases) (attempt : Attempt) → IsPermitted given (later ++ Does (D d) act ∷ log)
        → number_of (home given.catalogue cond.class.0) ≤ 63
        → 1 ≤ d.0 → d.0 ≤ given.catalogue.dms
        → IsAnswerWith given log d cond act → cond.class.0 ≢ 0
        → later ++ Does (D d) act ∷ log
        ≡ after ++ Does (home given.catalogue cond.class.0)
        (commit_act given.catalogue bases cond.class.0 attempt) ∷ before
        → touches cond.frags (changes_to given bases attempt d) ≡ true
        → (IsApplied given log d cond.class.0 attempt → attempt.ts < cond.time.0)
        × (attempt.ts < cond.time.0 → IsApplied given log d cond.class.0 attempt) }
{}
