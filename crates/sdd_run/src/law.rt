//! What holds of every run of a workload, reported or not.
ghost use Rattle.std.specs.Prelude.{ℕ, ◌≡◌, ◌≤◌, ◌++◌, ◌∷◌, ◌⊎◌, List, None};
ghost use Rattle.sdd_progress.specs.obligations.All.{AreSubmittedOnce, Catalogue, ClassNo, Cond, D, DmNo, FitsInput, Hand, Input, IsLawful, IsPermitted, IsSoundCatalogue, IsTheLog, Log, Read, Site, Ts, TxnNo, Use, history, local_of, marks, setting_of, site_due};
ghost use Rattle.sdd_schedule.specs.world.sites.Standings.{standing_of};
ghost use Rattle.sdd_run.specs.Standings.{IsStanding};
ghost use Rattle.sdd_progress.specs.Free.{IsFreeClass};
ghost use Rattle.sdd_run.specs.Free.{IsAnsweredWithin};
ghost use Rattle.sdd_script.specs.declared.workload.Workload.{Workload};
ghost use Rattle.sdd_progress.specs.obligations.protocol.declared.entry.Entry.{Entry};
ghost use Rattle.sdd_script.specs.All.{IsValid};
ghost use Rattle.sdd_run.specs.Clocks.{HasLowClocks};
ghost use Rattle.sdd_run.specs.Runs.{AreTables, EndsAtLimit, IsReportOn, IsSummaryOn, input_of};

/// A law: there is one report on the run of a workload at most, and one summary; and none where the
/// limit ends the run.
pub fn law_one_report()
    ensures report { (catalogue : Catalogue) (work : Workload) (text other : List ℕ) → IsReportOn catalogue work text
        → IsReportOn catalogue work other → text ≡ other }
    ensures summary { (catalogue : Catalogue) (work : Workload) (text other : List ℕ)
        → IsSummaryOn catalogue work text → IsSummaryOn catalogue work other → text ≡ other }
    ensures not_both { (catalogue : Catalogue) (work : Workload) (text : List ℕ) → IsReportOn catalogue work text
        → EndsAtLimit catalogue work → ⊥ }
{}

/// A law: every workload has a report and a summary of its run, unless the limit ends the run. That
/// memory may be out is left aside.
pub fn law_has_report()
    ensures report { (catalogue : Catalogue) (work : Workload) → IsSoundCatalogue catalogue → IsValid catalogue work
        → ((text : List ℕ) × IsReportOn catalogue work text) ⊎ EndsAtLimit catalogue work }
    ensures summary { (catalogue : Catalogue) (work : Workload) → IsValid catalogue work
        → ((text : List ℕ) × IsSummaryOn catalogue work text) ⊎ EndsAtLimit catalogue work }
{}

/// A law: at each moment of the run of a workload each clock stands below 2^39 ticks, whether the run
/// ends with its last event or at the limit.
pub fn law_low_clocks()
    ensures { (catalogue : Catalogue) (work : Workload) (tables : List (List Entry)) (log : Log) → IsSoundCatalogue catalogue
        → IsValid catalogue work → AreTables catalogue work tables → IsLawful (input_of catalogue tables work) log
        → HasLowClocks (input_of catalogue tables work) log }
{}

/// A law: where nothing is due at any site, a transaction that is under way at its site lacks a message
/// of a transaction or data module, never of U; and one that is queued there has a place from 1 in a class.
/// The site may be down.
pub fn law_standings()
    ensures { (given : Input) (log : Log) (at : Site) (n : ℕ) → FitsInput given → AreSubmittedOnce given.events
        → IsLawful given log → site_due given log ≡ None
        → IsStanding given.catalogue (standing_of at (setting_of given at) (local_of given at log) n) }
{}

/// A law: in the log of a run each READ of a class that lies on no simple cycle is answered in the
/// event in which it is handed over.
pub fn law_free_answered()
    ensures { (given : Input) (log : Log) → IsSoundCatalogue given.catalogue → AreSubmittedOnce given.events → IsTheLog given log
        → (after before : Log) (from : Site) (number : ℕ) (d : DmNo) (ts : Ts) (class : ClassNo) (txn : TxnNo)
        (attempt : ℕ) (conds : List Cond) (uses : List Use)
        → log ≡ after ++ Hand from (D d) number (Read ts class txn attempt conds uses) ∷ before
        → 1 ≤ d.0 → d.0 ≤ given.catalogue.dms → IsFreeClass given class.0
        → IsAnsweredWithin (history log) d txn attempt (marks before) }
{}
