ghost use Rattle.std.specs.List.{list_any};
ghost use Rattle.std.specs.Prelude.{◌≡◌, ◌++◌, ◌∷◌, ℕ, false, true, Bool, List, [], Some, length, slice_get};
ghost use Rattle.sdd_obligations.specs.All.{AreAllApplied, AreSubmittedOnce, Change, Commit, D, Event, History, Input, IsLawful, IsModuleOf, IsSerial, Log, Rec, RelNo, Reply, Rests, Row, Settle, Site, TxnNo, all_links, calls_of, contents, copy_at, dated, dm_no, has_copy, history, is_down, items_of, local_of, quiet, redeclares, rows_in_fragment, run, setting_of, txn_no};
ghost use Rattle.sdd_lawful.specs.SoundInput.{AreErasOf, AreNumbered, HasSoundData, SubmitGiven};
ghost use Rattle.sdd_progress.specs.Committed.{AllCommitted, IsNotLeft, WasCommitted};
ghost use Rattle.sdd_progress.specs.Eras.{eras_of};
ghost use Rattle.sdd_progress.specs.Finished.{IsFinished, IsIdle};
ghost use Rattle.sdd_progress.specs.Premises.{HasSoundLists, IsIdleAtRedeclares, IsSoundList, IsUpAtRedeclares};
ghost use Rattle.sdd_progress.specs.Quiet.{IsQuiet};
ghost use Rattle.sdd_progress.specs.Settled.{IsAtEnd, IsSettled};

/// A law: where nothing goes on, each message of each pipe is processed and no attempt is under way;
/// no transaction waits in a queue, no transaction module is on hold. This assumes that all was idle
/// where the class lists were put in force, of which `law_idle_at_redeclares` speaks.
pub fn law_finished()
    ensures idle { (given : Input) (log : Log) → IsQuiet given log
        → IsSoundList given (redeclares log) → IsIdleAtRedeclares given log → IsIdle given log }
    ensures finished { (given : Input) (log : Log) → IsQuiet given log
        → IsSoundList given (redeclares log) → IsIdleAtRedeclares given log → IsFinished given log }
{}

/// A law: wherever a lawful log put a further class list in force nothing went on and all was
/// idle, if no module was down there.
pub fn law_idle_at_redeclares()
    ensures { (given : Input) (log : Log) → AreSubmittedOnce given.events → IsLawful given log
        → HasSoundLists given log → IsUpAtRedeclares given log → IsIdleAtRedeclares given log }
{}

/// A law: the class lists that a log put in force are its eras.
pub fn law_eras_of_log()
    ensures { (given : Input) (log : Log) → HasSoundLists given log
        → AreErasOf given log (eras_of given log) }
{}

/// A law: where nothing goes on, every transaction that was submitted is committed.
pub fn law_committed()
    ensures { (given : Input) (log : Log) → IsQuiet given log → HasSoundLists given log
        → IsIdleAtRedeclares given log → AreNumbered given log → AllCommitted (history log) }
{}

/// A law: so no entry of the history submits what isn't committed; and a test that
/// each Commit of a transaction passes, passes some entry where it is committed.
pub fn law_none_left()
    ensures none { (h : History) (k : ℕ) (x : ℕ × Rec) → AllCommitted h → slice_get h k ≡ Some x
        → IsNotLeft h x }
    ensures any { (h : History) (test : ℕ × Rec → Bool) (n : ℕ)
        → ((event attempt : ℕ) (reply : Reply) (changes : List Change) (values rows : ℕ)
        → test (event, Commit (txn_no n) attempt reply changes values rows) ≡ true)
        → WasCommitted h n → list_any test h ≡ true }
{}

/// A law: where nothing goes on, what was committed is applied at each copy of what it changes, and
/// each data module has what the history says. So each copy has what one plain database leaves that
/// runs the transactions along a serial order.
pub fn law_copies()
    ensures applied { (given : Input) (log : Log) (f d : ℕ) → IsQuiet given log
        → HasSoundLists given log → IsIdleAtRedeclares given log
        → has_copy given.catalogue d f ≡ true
        → AreAllApplied (history log) f d (length (history log)) }
    ensures own { (given : Input) (rows : List (RelNo × Row)) (log : Log) (f d : ℕ)
        → IsQuiet given log → HasSoundLists given log
        → HasSoundData given rows → has_copy given.catalogue d f ≡ true
        → contents f (dated (setting_of given (D (dm_no d))) (local_of given (D (dm_no d)) log))
        ≡ copy_at given.catalogue rows (history log) d (length (history log)) f }
    ensures serial { (given : Input) (rows : List (RelNo × Row)) (log : Log) (order : List TxnNo)
        (f d : ℕ) → IsQuiet given log → HasSoundLists given log → IsIdleAtRedeclares given log
        → HasSoundData given rows → IsSerial given.catalogue (history log) order
        → has_copy given.catalogue d f ≡ true
        → rows_in_fragment given.catalogue (run given.catalogue rows given.txns order).1 f
        ≡ items_of given.catalogue f (contents f
        (dated (setting_of given (D (dm_no d))) (local_of given (D (dm_no d)) log))) }
{}

/// A law: between events, where no note, act or hand is due, a lawful log at which the links are
/// quiet and no module is down is one at which nothing goes on.
pub fn law_resting()
    ensures { (given : Input) (log : Log) → AreSubmittedOnce given.events → Rests given log
        → quiet (all_links given) (calls_of log) ≡ true
        → ((at : Site) → IsModuleOf given at → is_down at log ≡ false) → IsQuiet given log }
{}

/// A law: a complete log at whose end the links are quiet and no module is down is one at which
/// nothing goes on. So all is finished, and all that was submitted is committed. Where the last event
/// is a settle, the links are quiet.
pub fn law_settled()
    ensures quiet { (given : Input) (log : Log) → AreSubmittedOnce given.events
        → IsSettled given log → IsQuiet given log }
    ensures finished { (given : Input) (log : Log) → HasSoundLists given log
        → AreSubmittedOnce given.events → IsSettled given log → IsFinished given log }
    ensures committed { (given : Input) (log : Log) → HasSoundLists given log → SubmitGiven given
        → IsSettled given log → AllCommitted (history log) }
    ensures behind_settle { (given : Input) (log : Log) (events : List Event)
        → given.events ≡ events ++ Settle ∷ [] → IsAtEnd given log → IsSettled given log }
{}
