ghost use Rattle.std.specs.Prelude.{◌≡◌, ◌≤◌, ◌*◌, ◌^◌, List, length};
ghost use Rattle.sdd_obligations.specs.All.{AreSubmittedOnce, Eras, Input, IsEra, IsLawful, IsPermitted, Log, MAX_TXNS, RelNo, Row, attempts, history, nth_era, redeclares};
ghost use Rattle.sdd_lawful.specs.SoundInput.{AreErasOf, AreNumbered, HasSoundData, IsSoundInput, SubmitGiven};
ghost use Rattle.sdd_progress.specs.Few.{AreFewRejected};
ghost use Rattle.sdd_progress.specs.Rejects.{KeepsRejects};

/// A law: each Reject is of an attempt that started, by a write of another transaction at or after
/// the time of one of the attempt's conditions.
pub fn law_rejects()
    ensures { (given : Input) (log : Log) (eras : Eras) → IsSoundInput given
        → IsPermitted given log → AreErasOf given log eras
        → KeepsRejects given.catalogue eras (history log) }
{}

/// A law: a transaction's rejected attempts are at most the Commits of other transactions, where an
/// attempt that several modules reject counts once. For a lawful log with one class list nothing
/// is assumed of eras.
pub fn law_few_rejected()
    ensures permitted { (given : Input) (log : Log) (eras : Eras) → IsSoundInput given
        → IsPermitted given log → AreErasOf given log eras → AreFewRejected (history log) }
    ensures lawful { (given : Input) (log : Log) → IsSoundInput given
        → AreSubmittedOnce given.events → IsLawful given log
        → IsEra (nth_era given 0) → (nth_era given 0).catalogue ≡ given.catalogue
        → redeclares log ≡ 0 → AreFewRejected (history log) }
{}

/// A law: a run has at most the square of the number of its transactions of attempts, so at most
/// 2^22 where there are no more transactions than a workload may have.
pub fn law_few_attempts()
    ensures square { (given : Input) (rows : List (RelNo × Row)) (log : Log) (eras : Eras)
        → IsSoundInput given → HasSoundData given rows → IsPermitted given log
        → AreErasOf given log eras → AreNumbered given log
        → length (attempts (history log)) ≤ length given.txns * length given.txns }
    ensures limit { (given : Input) (rows : List (RelNo × Row)) (log : Log) (eras : Eras)
        → IsSoundInput given → HasSoundData given rows → IsPermitted given log
        → AreErasOf given log eras → AreNumbered given log
        → length given.txns ≤ MAX_TXNS → length (attempts (history log)) ≤ 2 ^ 22 }
    ensures lawful { (given : Input) (rows : List (RelNo × Row)) (log : Log)
        → IsSoundInput given → HasSoundData given rows → SubmitGiven given → IsLawful given log
        → IsEra (nth_era given 0) → (nth_era given 0).catalogue ≡ given.catalogue
        → redeclares log ≡ 0
        → length given.txns ≤ MAX_TXNS → length (attempts (history log)) ≤ 2 ^ 22 }
{}
