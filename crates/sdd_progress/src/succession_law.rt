ghost use Rattle.std.specs.Prelude.{◌≤◌, ◌<◌, ◌^◌, List, length};
ghost use Rattle.sdd_obligations.specs.All.{AllFewTicks, AreSubmittedOnce, HasNoCycle, Input, IsLawful, IsOrderable, KeepsEras, KeepsLaws, Log, MAX_TXNS, RelNo, Row, attempts, history, redeclares};
ghost use Rattle.sdd_lawful.specs.SoundInput.{HasSoundData, IsSoundInput, SubmitGiven};
ghost use Rattle.sdd_progress.specs.Few.{AreFewRejected};
ghost use Rattle.sdd_progress.specs.Eras.{eras_of};
ghost use Rattle.sdd_progress.specs.Premises.{HasSoundLists, IsUpAtRedeclares};
ghost use Rattle.sdd_progress.specs.Timely.{AreTimely};

/// A law: the history of a lawful log keeps the law of eras, that is what one class list submits
/// is done before what a later one submits begins. So it keeps all laws, has no cycle, and has a serial
/// order.
pub fn law_lawful()
    ensures eras { (given : Input) (rows : List (RelNo × Row)) (log : Log) → IsSoundInput given
        → HasSoundData given rows → SubmitGiven given → IsLawful given log
        → HasSoundLists given log → IsUpAtRedeclares given log
        → KeepsEras given.catalogue (eras_of given log) (history log) }
    ensures laws { (given : Input) (rows : List (RelNo × Row)) (log : Log) → IsSoundInput given
        → HasSoundData given rows → SubmitGiven given → IsLawful given log
        → HasSoundLists given log → IsUpAtRedeclares given log
        → KeepsLaws given.catalogue (eras_of given log) rows given.txns (history log) }
    ensures acyclic { (given : Input) (rows : List (RelNo × Row)) (log : Log) → IsSoundInput given
        → HasSoundData given rows → SubmitGiven given → IsLawful given log
        → HasSoundLists given log → IsUpAtRedeclares given log
        → HasNoCycle given.catalogue (history log) }
    ensures orderable { (given : Input) (rows : List (RelNo × Row)) (log : Log) → IsSoundInput given
        → HasSoundData given rows → SubmitGiven given → IsLawful given log
        → HasSoundLists given log → IsUpAtRedeclares given log
        → IsOrderable given.catalogue (history log) }
{}

/// A law: where each `redeclare` of the events is given when it may be, no module is down where
/// the log puts a class list in force, and the log puts none in force beyond those that are given.
pub fn law_timely()
    ensures up { (given : Input) (log : Log) → AllFewTicks given.events → IsLawful given log
        → AreTimely given → IsUpAtRedeclares given log }
    ensures listed { (given : Input) (log : Log) → AllFewTicks given.events → IsLawful given log
        → AreTimely given → 1 ≤ length given.eras → redeclares log < length given.eras }
{}

/// A law: of a lawful log a transaction's rejected attempts are at most the Commits of other
/// transactions; and where there are no more transactions than a workload may have, there are at most
/// 2^22 attempts.
pub fn law_few_attempts_across_lists()
    ensures rejected { (given : Input) (log : Log) → IsSoundInput given
        → AreSubmittedOnce given.events → IsLawful given log → HasSoundLists given log
        → AreFewRejected (history log) }
    ensures limit { (given : Input) (rows : List (RelNo × Row)) (log : Log) → IsSoundInput given
        → HasSoundData given rows → SubmitGiven given → IsLawful given log
        → HasSoundLists given log
        → length given.txns ≤ MAX_TXNS → length (attempts (history log)) ≤ 2 ^ 22 }
{}
