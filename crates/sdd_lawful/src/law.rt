ghost use Rattle.std.specs.Prelude.{◌≡◌, ◌<◌, ◌++◌, ◌∷◌, ℕ, List, length, Some};
ghost use Rattle.sdd_invariants.specs.All.{Entry, Input, IsEra, IsPermitted, Log, Rec, RelNo, Row, history, marks, nth_era, redeclares};
ghost use Rattle.sdd_laws.specs.All.{Eras, IsRecordAt, KeepsAnswers, KeepsApplies, KeepsConditions, KeepsEras, KeepsRejections, KeepsStarts, KeepsUndeclared, event_at};
ghost use Rattle.sdd_lawful.specs.SoundInput.{AreErasOf, HasSoundData, IsSoundInput, one_era};
ghost use Rattle.sdd_lawful.specs.Made.{IsBefore, IsMadeAt, record_of};

/// A record of a history was made by an entry of its log, and every entry that makes one has it
/// there, with the number of events till then; of two records the earlier one is that of the
/// earlier entry.
pub fn law_places()
    ensures made { (log : Log) (k : ℕ) (r : Rec) → IsRecordAt (history log) k r → IsMadeAt log k r }
    ensures is_recorded { (later : Log) (entry : Entry) (before : Log) (r : Rec)
        → record_of entry ≡ Some r
        → IsRecordAt (history (later ++ entry ∷ before)) (length (history before)) r }
    ensures event { (later : Log) (entry : Entry) (before : Log) (r : Rec)
        → record_of entry ≡ Some r
        → event_at (history (later ++ entry ∷ before)) (length (history before)) ≡ marks before }
    ensures in_order { (log : Log) (j k : ℕ) (q r : Rec) (a : IsMadeAt log j q) (b : IsMadeAt log k r)
        → j < k → IsBefore a.entry a.before b.before }
{}

/// The law of Starts: which attempts there are, in which order they start, and with which times.
pub fn law_starts()
    ensures { (given : Input) (log : Log) (eras : Eras) → IsSoundInput given
        → IsPermitted given log → AreErasOf given log eras
        → KeepsStarts given.catalogue eras given.txns (history log) }
{}

/// The law of Applies: each is of a committed transaction, and of a class they come in the order of
/// timestamps, with none left out.
pub fn law_applies()
    ensures { (given : Input) (log : Log) → IsSoundInput given → IsPermitted given log
        → KeepsApplies given.catalogue (history log) }
{}

/// The law of read conditions: of the writers that a condition names a reader sees exactly those
/// before its time.
pub fn law_conditions()
    ensures { (given : Input) (log : Log) (eras : Eras) → IsSoundInput given
        → IsPermitted given log → AreErasOf given log eras
        → KeepsConditions given.catalogue eras (history log) }
{}

/// The law of rejections: a transaction starts again only if a write came before one of its READs
/// and should have come after it.
pub fn law_rejections()
    ensures { (given : Input) (log : Log) (eras : Eras) → IsSoundInput given
        → IsPermitted given log → AreErasOf given log eras
        → KeepsRejections given.catalogue eras (history log) }
{}

/// The law of undeclared transactions: each runs while no other does.
pub fn law_undeclared()
    ensures { (given : Input) (rows : List (RelNo × Row)) (eras : Eras) (log : Log)
        → IsSoundInput given → HasSoundData given rows → IsPermitted given log
        → AreErasOf given log eras → KeepsUndeclared given.catalogue (history log) }
{}

/// Where no further class list is put in force there is one era, that of the catalogue, and the
/// history keeps the law of eras.
pub fn law_one_era()
    ensures eras { (given : Input) (log : Log) → IsEra (nth_era given 0)
        → (nth_era given 0).catalogue ≡ given.catalogue → redeclares log ≡ 0
        → AreErasOf given log (one_era given.catalogue) }
    ensures kept { (given : Input) (log : Log)
        → KeepsEras given.catalogue (one_era given.catalogue) (history log) }
{}

/// The law of Answers and Commits: one Answer of an attempt at a module, before the Commit one at
/// each that is asked, and the reply and changes of the transaction on the database of these
/// snapshots.
pub fn law_answers()
    ensures { (given : Input) (rows : List (RelNo × Row)) (eras : Eras) (log : Log)
        → IsSoundInput given → HasSoundData given rows → IsPermitted given log
        → AreErasOf given log eras
        → KeepsAnswers given.catalogue rows given.txns (history log) }
{}
