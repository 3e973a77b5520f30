//! What a verdict means.
ghost use Rattle.std.specs.Prelude.{ℕ, ◌≡◌, List};
ghost use Rattle.sdd_script.specs.All.{Catalogue, IsValid};
ghost use Rattle.sdd_script.specs.declared.workload.Workload.{Workload};
ghost use Rattle.sdd_verify.specs.Verdict.{verdict};
ghost use Rattle.sdd_verify.specs.Verified.{IsVerified};
ghost use Rattle.sdd_verify.specs.declared.verdict.Verdict.TheVariants.{Yes};

/// A verdict is Yes exactly where the report is verified: where it has an order of submitted
/// transactions, none twice and those of one class by submission, and after it, as a whole, the
/// replies of the one plain database that begins with the workload's rows and runs these
/// transactions in that order.
pub fn law_yes()
    ensures verified { (catalogue : Catalogue) (work : Workload) (report : List ℕ)
        → verdict catalogue work report ≡ Yes → IsVerified catalogue work report }
    ensures yes { (catalogue : Catalogue) (work : Workload) (report : List ℕ)
        → IsValid catalogue work → IsVerified catalogue work report
        → verdict catalogue work report ≡ Yes }
{}
