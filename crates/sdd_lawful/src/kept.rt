ghost use Rattle.std.specs.Prelude.{◌≡◌, ℕ, List, length};
ghost use Rattle.std.specs.List.{AllZip};
ghost use Rattle.sdd_invariants.specs.All.{Input, IsEra, IsLawful, IsPermitted, Log, RelNo, Row, TxnNo, history, nth_era, redeclares, rows_in_fragment};
ghost use Rattle.sdd_laws.specs.All.{AreAllApplied, AreFew, Eras, HasNoCycle, IsOrderable, IsReplyOf, IsSerial, KeepsEras, KeepsLaws, NumbersExist, TxnsExist, copy_at, items_of, run};
ghost use Rattle.sdd_lawful.specs.SoundInput.{AreErasOf, AreNumbered, HasSoundData, IsSoundInput, SubmitGiven, one_era};

/// All laws that give a serial order. That of eras is assumed: it holds of lawful logs alone.
pub fn law_kept()
    ensures { (given : Input) (rows : List (RelNo × Row)) (eras : Eras) (log : Log)
        → IsSoundInput given → HasSoundData given rows → IsPermitted given log
        → AreErasOf given log eras → KeepsEras given.catalogue eras (history log)
        → KeepsLaws given.catalogue eras rows given.txns (history log) }
{}

/// Every class, module and transaction number in the history exists.
pub fn law_named()
    ensures numbers { (given : Input) (rows : List (RelNo × Row)) (eras : Eras) (log : Log)
        → IsSoundInput given → HasSoundData given rows → IsPermitted given log
        → AreErasOf given log eras → AreNumbered given log
        → NumbersExist given.catalogue (history log) }
    ensures txns { (given : Input) (rows : List (RelNo × Row)) (eras : Eras) (log : Log)
        → IsSoundInput given → HasSoundData given rows → IsPermitted given log
        → AreErasOf given log eras → AreNumbered given log
        → TxnsExist (length given.txns) (history log) }
{}

/// No cycle of precedence among the committed transactions, and so a serial order.
pub fn law_ordered()
    ensures acyclic { (given : Input) (rows : List (RelNo × Row)) (eras : Eras) (log : Log)
        → IsSoundInput given → HasSoundData given rows → IsPermitted given log
        → AreErasOf given log eras → KeepsEras given.catalogue eras (history log)
        → AreNumbered given log
        → HasNoCycle given.catalogue (history log) }
    ensures orderable { (given : Input) (rows : List (RelNo × Row)) (eras : Eras) (log : Log)
        → IsSoundInput given → HasSoundData given rows → IsPermitted given log
        → AreErasOf given log eras → KeepsEras given.catalogue eras (history log)
        → AreNumbered given log
        → IsOrderable given.catalogue (history log) }
{}

/// The same where no further class list is put in force: then nothing is assumed of eras.
pub fn law_one_list()
    ensures acyclic { (given : Input) (rows : List (RelNo × Row)) (log : Log)
        → IsSoundInput given → HasSoundData given rows → IsPermitted given log
        → IsEra (nth_era given 0) → (nth_era given 0).catalogue ≡ given.catalogue
        → redeclares log ≡ 0 → AreNumbered given log
        → HasNoCycle given.catalogue (history log) }
    ensures orderable { (given : Input) (rows : List (RelNo × Row)) (log : Log)
        → IsSoundInput given → HasSoundData given rows → IsPermitted given log
        → IsEra (nth_era given 0) → (nth_era given 0).catalogue ≡ given.catalogue
        → redeclares log ≡ 0 → AreNumbered given log
        → IsOrderable given.catalogue (history log) }
{}

/// Of a lawful log whose events submit each transaction once, where no further class list is
/// put in force: its history keeps all laws, and has a serial order.
pub fn law_lawful()
    ensures laws { (given : Input) (rows : List (RelNo × Row)) (log : Log)
        → IsSoundInput given → HasSoundData given rows → SubmitGiven given → IsLawful given log
        → IsEra (nth_era given 0) → (nth_era given 0).catalogue ≡ given.catalogue
        → redeclares log ≡ 0
        → KeepsLaws given.catalogue (one_era given.catalogue) rows given.txns (history log) }
    ensures acyclic { (given : Input) (rows : List (RelNo × Row)) (log : Log)
        → IsSoundInput given → HasSoundData given rows → SubmitGiven given → IsLawful given log
        → IsEra (nth_era given 0) → (nth_era given 0).catalogue ≡ given.catalogue
        → redeclares log ≡ 0
        → HasNoCycle given.catalogue (history log) }
    ensures orderable { (given : Input) (rows : List (RelNo × Row)) (log : Log)
        → IsSoundInput given → HasSoundData given rows → SubmitGiven given → IsLawful given log
        → IsEra (nth_era given 0) → (nth_era given 0).catalogue ≡ given.catalogue
        → redeclares log ≡ 0
        → IsOrderable given.catalogue (history log) }
{}

/// One plain database that runs the transactions along a serial order gives the replies of their
/// Commits, and leaves what the copies have at which all are applied.
pub fn law_replayed()
    ensures replies { (given : Input) (rows : List (RelNo × Row)) (eras : Eras) (log : Log)
        (order : List TxnNo) → IsSoundInput given → HasSoundData given rows
        → IsPermitted given log → AreErasOf given log eras
        → IsSerial given.catalogue (history log) order
        → AllZip (IsReplyOf (history log)) order (run given.catalogue rows given.txns order).0 }
    ensures copies { (given : Input) (rows : List (RelNo × Row)) (eras : Eras) (log : Log)
        (order : List TxnNo) → IsSoundInput given → HasSoundData given rows
        → IsPermitted given log → AreErasOf given log eras
        → IsSerial given.catalogue (history log) order
        → (f d k : ℕ) → AreAllApplied (history log) f d k
        → rows_in_fragment given.catalogue (run given.catalogue rows given.txns order).1 f
        ≡ items_of given.catalogue f (copy_at given.catalogue rows (history log) d k f) }
{}

/// A transaction starts at most once more often than others commit.
pub fn law_few()
    ensures { (given : Input) (eras : Eras) (log : Log) → IsSoundInput given
        → IsPermitted given log → AreErasOf given log eras → AreFew (history log) }
{}
