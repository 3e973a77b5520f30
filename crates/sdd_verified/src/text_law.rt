//! What the text of a report gives back.
ghost use Rattle.std.specs.Prelude.{ℕ, ◌≡◌, List};
ghost use Rattle.sdd_run.specs.progress.obligations.All.{Catalogue, IsSoundCatalogue};
ghost use Rattle.sdd_run.specs.progress.obligations.catalog.Naming.{AreNamed};
ghost use Rattle.sdd_run.specs.Runs.{IsReportOn};
ghost use Rattle.sdd_run.specs.script.Valid.{IsValid};
ghost use Rattle.sdd_run.specs.script.declared.workload.Workload.{Workload};
ghost use Rattle.sdd_verified.specs.Tellings.{TellAlike, TellOfTheSame};

/// A law: two reports with the same text have the same order, replies, pending transactions and
/// copies, whatever the workloads; by their names, and where they are of the same transactions by
/// their numbers too.
pub fn law_one_text()
    ensures names { (catalogue : Catalogue) (work other : Workload) (text : List ℕ) → IsSoundCatalogue catalogue → AreNamed catalogue
        → IsValid catalogue work → IsValid catalogue other
        → (one : IsReportOn catalogue work text) → (two : IsReportOn catalogue other text) → TellAlike catalogue work other text one two }
    ensures numbers { (catalogue : Catalogue) (work other : Workload) (text : List ℕ) → IsSoundCatalogue catalogue → AreNamed catalogue
        → IsValid catalogue work → IsValid catalogue other
        → work.txns ≡ other.txns → (one : IsReportOn catalogue work text) → (two : IsReportOn catalogue other text)
        → TellOfTheSame catalogue work other text one two }
{}
