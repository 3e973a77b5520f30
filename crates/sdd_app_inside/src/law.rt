//! What a text of what happens inside a run is.
ghost use Rattle.std.specs.Prelude.{ℕ, ◌≡◌, ◌⊎◌, List};
ghost use Rattle.sdd_run.specs.Runs.{EndsAtLimit};
ghost use Rattle.sdd_run.specs.script.Valid.{IsValid};
ghost use Rattle.sdd_run.specs.script.declared.workload.Workload.{Workload};
ghost use Rattle.sdd_watch.specs.obligations.All.{Catalogue};
ghost use Rattle.sdd_app_inside.specs.Text.{IsInsideOf};

/// A law: there is one text of what happens inside the run of a workload at most, and none where the
/// limit ends the run.
pub fn law_one_inside()
    ensures text { (catalogue : Catalogue) (work : Workload) (text other : List ℕ) → IsInsideOf catalogue work text
        → IsInsideOf catalogue work other → text ≡ other }
    ensures not_both { (catalogue : Catalogue) (work : Workload) (text : List ℕ) → IsInsideOf catalogue work text
        → EndsAtLimit catalogue work → ⊥ }
{}

/// A law: every workload has a text of what happens inside its run, unless the limit ends the run. That
/// memory may be out is left aside.
pub fn law_has_inside()
    ensures { (catalogue : Catalogue) (work : Workload) → IsValid catalogue work
        → ((text : List ℕ) × IsInsideOf catalogue work text) ⊎ EndsAtLimit catalogue work }
{}
