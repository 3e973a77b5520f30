ghost use Rattle.std.specs.Prelude.{ℕ, ◌≡◌, ◌≤◌, List, length};
ghost use Rattle.sdd_run.specs.Runs.{IsReportOn};
ghost use Rattle.sdd_run.specs.script.Valid.{IsValid};
ghost use Rattle.sdd_run.specs.script.declared.workload.Workload.{Workload};
ghost use Rattle.sdd_verify.specs.Verdict.{verdict};
ghost use Rattle.sdd_verify.specs.declared.limits.TheConstants.{MAX_REPORT_BYTES};
ghost use Rattle.sdd_verify.specs.declared.verdict.Verdict.TheVariants.{Yes};

use sdd_catalog::Catalogue;

/// The verdict on the report on the run of a workload is Yes, where the report isn't too long to be
/// judged, whatever class lists the workload puts in force. Takes no time and no memory.
pub fn law_verified(catalogue: &Catalogue)
    ensures { (work : Workload) (text : List ℕ) → IsValid catalogue.now work → IsReportOn catalogue.now work text
        → length text ≤ MAX_REPORT_BYTES → verdict catalogue.now work text ≡ Yes }
{
    catalogue.law_is_sound();
}
