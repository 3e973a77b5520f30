ghost use Rattle.std.specs.Prelude.{ℕ, ◌≡◌, ◌≤◌, List, length};
ghost use Rattle.sdd_certify.specs.Complete.{complete};
ghost use Rattle.sdd_certify.specs.declared.finding.Finding.TheVariants.{Yes};
ghost use Rattle.sdd_certify.specs.verifying.declared.limits.TheConstants.{MAX_REPORT_BYTES};
ghost use Rattle.sdd_verified.specs.run.Runs.{IsReportOn};
ghost use Rattle.sdd_verified.specs.script.Valid.{IsValid};
ghost use Rattle.sdd_verified.specs.script.declared.workload.Workload.{Workload};

use sdd_lang::Catalogue;

/// The report on the run of a workload is found complete, where it isn't too long to be judged,
/// whatever class lists the workload puts in force. Takes no time and no memory.
pub fn law_run_complete(catalogue: &Catalogue)
    ensures { (work : Workload) (text : List ℕ) → IsValid catalogue.now work → IsReportOn catalogue.now work text
        → length text ≤ MAX_REPORT_BYTES → complete text ≡ Yes }
{
    catalogue.law_is_sound();
}
