ghost use Rattle.std.specs.Prelude.{◌≡◌};
ghost use Rattle.sdd_run.specs.progress.obligations.All.{dm_no, txn_no};
ghost use Rattle.sdd_run.specs.progress.obligations.laws.Copied.{AreAppliedAlike};
ghost use Rattle.sdd_run.specs.progress.obligations.links.Examples.{reads_before, starts_again, waits_for_other};
ghost use Rattle.sdd_run.specs.progress.Free.{IsFree};
ghost use Rattle.sdd_run.specs.ComesBefore.{IsSubmittedBefore};
ghost use Rattle.sdd_run.specs.Free.{IsAnsweredWithin, IsUndisturbed};
ghost use Rattle.sdd_run.specs.Runs.{IsFreeInEach};
ghost use Rattle.sdd_run_examples.specs.Catalogues.{three_classes, crosses_later};
ghost use Rattle.sdd_run_examples.specs.Histories.{applied_at_two, asked, first_put, later_put, rejected, waited};

/// Worked: of three classes two read what the other writes, so that their edges lie on a cycle, and the
/// third one is free; it stays so where a further list has two classes more that do the same. Those of
/// the cycle aren't free, in the list in which they are.
pub fn law_free_beside_a_cycle()
    ensures free { IsFree three_classes 3 }
    ensures first_not { IsFree three_classes 1 → ⊥ }
    ensures second_not { IsFree three_classes 2 → ⊥ }
    ensures in_each { IsFreeInEach three_classes crosses_later 3 }
    ensures in_one_not { IsFreeInEach three_classes crosses_later 4 → ⊥ }
{}

/// Worked: an attempt is undisturbed where no module lets it wait and none rejects it; one that is rejected and
/// never waits isn't, nor one that waits and is never rejected.
pub fn law_undisturbed()
    ensures neither { IsUndisturbed reads_before asked }
    ensures not_rejected { IsUndisturbed starts_again rejected → ⊥ }
    ensures not_waiting { IsUndisturbed waits_for_other waited → ⊥ }
{}

/// Worked: an attempt is answered in event 4, and in no other one; at this module, and at no other one.
pub fn law_answered_within()
    ensures here { IsAnsweredWithin reads_before (dm_no 1) (txn_no 2) 1 4 }
    ensures not_later { IsAnsweredWithin reads_before (dm_no 1) (txn_no 2) 1 5 → ⊥ }
    ensures not_there { IsAnsweredWithin reads_before (dm_no 2) (txn_no 2) 1 4 → ⊥ }
    ensures not_the_other { IsAnsweredWithin reads_before (dm_no 1) (txn_no 1) 1 4 → ⊥ }
{}

/// Worked: of two committed transactions the first one was submitted before the second one, and not the other
/// way round, nor before itself.
pub fn law_submitted_before()
    ensures first { IsSubmittedBefore applied_at_two first_put later_put }
    ensures not_turned { IsSubmittedBefore applied_at_two later_put first_put → ⊥ }
    ensures not_itself { IsSubmittedBefore applied_at_two first_put first_put → ⊥ }
{}

/// Worked: two modules applied alike what changes the first fragment, though one of them applied more that
/// changes the second one; of that they aren't alike, nor before both had applied the first.
pub fn law_applied_alike()
    ensures alike { AreAppliedAlike applied_at_two 1 1 9 2 9 }
    ensures other_not { AreAppliedAlike applied_at_two 2 1 9 2 9 → ⊥ }
    ensures before_not { AreAppliedAlike applied_at_two 1 1 7 2 7 → ⊥ }
{}
