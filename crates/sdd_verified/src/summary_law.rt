//! The summary of a run that leaves nothing undone.
ghost use Rattle.std.specs.Prelude.{ℕ, ◌≡◌, ◌≤◌, List, length};
ghost use Rattle.sdd_run.specs.progress.obligations.All.{Catalogue, IsSoundCatalogue, MAX_TXNS};
ghost use Rattle.sdd_run.specs.make.Bank.{bank};
ghost use Rattle.sdd_run.specs.make.Turns.{workload_of};
ghost use Rattle.sdd_run.specs.Runs.{IsSummaryOn};
ghost use Rattle.sdd_run.specs.script.Valid.{IsValid};
ghost use Rattle.sdd_run.specs.script.declared.workload.Workload.{Workload};
ghost use Rattle.sdd_verified.specs.Summaries.{SettleAll, TellsAllDone};

/// A law: where the events submit each transaction, take no module down and end with a settle
/// or a redeclare, the summary of the run counts as many committed as there are transactions.
pub fn law_all_committed()
    ensures { (catalogue : Catalogue) (work : Workload) (text : List ℕ) → IsSoundCatalogue catalogue → IsValid catalogue work
        → SettleAll (length work.txns) work.events → IsSummaryOn catalogue work text
        → TellsAllDone (length work.txns) text }
{}

/// A law: the summary of each made input says that all its transactions are committed.
pub fn law_made_all_committed()
    ensures { (seed n : ℕ) (text : List ℕ) → n ≤ MAX_TXNS → IsSummaryOn bank (workload_of seed n) text
        → TellsAllDone n text }
{}
