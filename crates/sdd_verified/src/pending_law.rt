//! The lines of pending transactions in a report.
ghost use Rattle.std.specs.Prelude.{ℕ, ◌≡◌, [], false, Contains, List, count_by, length};
ghost use Rattle.sdd_run.specs.progress.obligations.All.{Catalogue, IsSoundCatalogue};
ghost use Rattle.sdd_run.specs.progress.obligations.catalog.Naming.{AreNamed};
ghost use Rattle.sdd_run.specs.Runs.{IsReportOn, report};
ghost use Rattle.sdd_run.specs.script.Valid.{IsValid};
ghost use Rattle.sdd_run.specs.script.declared.workload.Workload.{Workload};
ghost use Rattle.sdd_verify.specs.Lines.{lines_of};
ghost use Rattle.sdd_verified.specs.Lines.{tells_pending};

/// A law: a report has as many lines that begin with `pending ` as transactions are pending; so where
/// none is, it has no such line.
pub fn law_pending_lines()
    ensures as_many { (catalogue : Catalogue) (work : Workload) (text : List ℕ) → IsSoundCatalogue catalogue → AreNamed catalogue → IsValid catalogue work
        → (reported : IsReportOn catalogue work text)
        → count_by tells_pending (lines_of text) ≡ length (report reported.of_run).pending }
    ensures no_line { (catalogue : Catalogue) (work : Workload) (text : List ℕ) → IsSoundCatalogue catalogue → AreNamed catalogue → IsValid catalogue work
        → (reported : IsReportOn catalogue work text)
        → (report reported.of_run).pending ≡ []
        → (line : List ℕ) → Contains (lines_of text) line → tells_pending line ≡ false }
{}
