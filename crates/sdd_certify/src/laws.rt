//! What the lines of a certificate mean.
ghost use Rattle.std.specs.Prelude.{ℕ, ◌≡◌, ◌-◌, List, Some, false, slice_get, take};
ghost use Rattle.sdd_certify.specs.Complete.{complete};
ghost use Rattle.sdd_certify.specs.Due.{due};
ghost use Rattle.sdd_certify.specs.Kept.{IsComplete, IsStrict};
ghost use Rattle.sdd_certify.specs.Strict.{strict};
ghost use Rattle.sdd_certify.specs.declared.due.Due.TheVariants.{Line, NoReply};
ghost use Rattle.sdd_certify.specs.declared.finding.Finding.TheVariants.{Yes};
ghost use Rattle.sdd_script.specs.All.{Catalogue, IsValid};
ghost use Rattle.sdd_script.specs.declared.workload.Workload.{Workload};
ghost use Rattle.sdd_verify.specs.Lines.{lines_of, tells_reply};
ghost use Rattle.sdd_verify.specs.Verdict.{verdict};
ghost use Rattle.sdd_verify.specs.Verified.{IsVerified};
ghost use Rattle.sdd_verify.specs.declared.verdict.Verdict.TheVariants as verdicts;

/// A report is found complete exactly where its order names each transaction whose commit is told
/// before the order line.
pub fn law_complete()
    ensures complete { (report : List ℕ) → complete report ≡ Yes → IsComplete report }
    ensures yes { (report : List ℕ) → IsComplete report → complete report ≡ Yes }
{}

/// A report is found strict exactly where the commit of a transaction is never told before the
/// submission of one that stands before it in the order.
pub fn law_strict()
    ensures strict { (report : List ℕ) → strict report ≡ Yes → IsStrict report }
    ensures yes { (report : List ℕ) → IsStrict report → strict report ≡ Yes }
{}

/// The line that is due at the line with a number stands there in each report that is verified and has
/// the same lines before it. Where all replies have come when a report is found at fault, a line that
/// is of no reply stands there.
pub fn law_expected()
    ensures line { (catalogue : Catalogue) (work : Workload) (report other line : List ℕ) (number : ℕ)
        → IsValid catalogue work → due catalogue work report (verdicts.No number) ≡ Line line
        → IsVerified catalogue work other → take (number - 1) (lines_of report) ≡ take (number - 1) (lines_of other)
        → slice_get (lines_of other) (number - 1) ≡ Some line }
    ensures no_reply { (catalogue : Catalogue) (work : Workload) (report other : List ℕ) (number : ℕ)
        → IsValid catalogue work → verdict catalogue work report ≡ verdicts.No number
        → due catalogue work report (verdicts.No number) ≡ NoReply
        → IsVerified catalogue work other → take (number - 1) (lines_of report) ≡ take (number - 1) (lines_of other)
        → (next : List ℕ) × (slice_get (lines_of other) (number - 1) ≡ Some next) × (tells_reply next ≡ false) }
{}
