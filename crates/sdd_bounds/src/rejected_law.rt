ghost use Rattle.std.specs.Prelude.{◌≡◌, false};
ghost use Rattle.sdd_progress.specs.obligations.All.{AreSubmittedOnce, Committed, Eras, Input, IsCommitted, IsEra, IsLawful, IsPermitted, Log, history, nth_era, redeclares};
ghost use Rattle.sdd_progress.specs.Few.{is_rejected};
ghost use Rattle.sdd_progress.specs.lawful.SoundInput.{AreErasOf, IsSoundInput};
ghost use Rattle.sdd_bounds.specs.ClassRejections.{AreFewRejectedOfClasses};

/// A law: all rejected attempts of a class together are at most the committed transactions of other
/// classes, where an attempt that several modules reject counts once. Each beginning of a permitted log
/// is one, so this holds at every moment. For a lawful log with one class list nothing is assumed of
/// eras.
pub fn law_few_rejected_of_class()
    ensures permitted { (given : Input) (log : Log) (eras : Eras) → IsSoundInput given
        → IsPermitted given log → AreErasOf given log eras → AreFewRejectedOfClasses (history log) }
    ensures lawful { (given : Input) (log : Log) → IsSoundInput given
        → AreSubmittedOnce given.events → IsLawful given log
        → IsEra (nth_era given 0) → (nth_era given 0).catalogue ≡ given.catalogue
        → redeclares log ≡ 0 → AreFewRejectedOfClasses (history log) }
{}

/// A law: no module rejects an attempt that is committed, before its Commit or after.
pub fn law_committed_not_rejected()
    ensures { (given : Input) (log : Log) (txn : Committed) → IsSoundInput given
        → IsPermitted given log → IsCommitted (history log) txn
        → is_rejected (history log) txn.start.txn txn.start.number ≡ false }
{}
