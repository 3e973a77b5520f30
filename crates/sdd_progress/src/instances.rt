ghost use Rattle.std.specs.Prelude.{◌∷◌, ◌≡◌, ◌⊎◌, List, Some, true};
ghost use Rattle.sdd_obligations.specs.invariants.All.{D, Does, IsApplied, IsPermitted, Msg, Read, Records, Site, Write, class_no, dm_no, head, pipe_at, time_at, txn_no, u_stamp};
ghost use Rattle.sdd_obligations.specs.history.declared.record.Rec.TheVariants.{Reject as Rejected};
ghost use Rattle.sdd_obligations.specs.dm.Due.{holds_back};
ghost use Rattle.sdd_obligations.specs.invariants.Barrier.{IsLow};
ghost use Rattle.sdd_progress.specs.Answers.{IsAnsweredIn, IsRejectedAfter, IsRejectedIn};
ghost use Rattle.sdd_progress.specs.WaitExamples.{changes_of_put, conds_of_query, given_put_first, given_put_later};
ghost use Rattle.sdd_progress.specs.WaitExamples.{conds_of_spoilt, given_spoilt, in_its_event, put_attempt, put_commits};
ghost use Rattle.sdd_progress.specs.WaitExamples.{put_first, put_handed, read_handed, uses_of_query};

/// Worked: a put is committed before an undeclared query starts, and so with a smaller timestamp;
/// it is applied where the query is answered, which can't be rejected there.
pub fn law_put_first()
    ensures low { IsLow given_put_first 1 1 (put_first 27) (put_first 12) put_attempt put_commits
        (u_stamp given_put_first (put_first 12)) }
    ensures seen { IsApplied given_put_first (put_first 25) (dm_no 1) 1 put_attempt }
    ensures not_rejected { (sends : List (Site × Msg))
        → IsPermitted given_put_first (Does (D (dm_no 1))
        (Records 0 (Rejected (txn_no 2) 1 (dm_no 1) (class_no 1) (time_at 65)) sends) ∷ put_first 25)
        → ⊥ }
{}

/// Worked: the put's WRITE comes while the undeclared query's READ waits, and isn't held back by it.
pub fn law_put_later()
    ensures read { head (pipe_at given_put_later 0 (dm_no 1) put_handed)
        ≡ Some (Read (time_at 128) (class_no 0) (txn_no 2) 1 conds_of_query uses_of_query) }
    ensures write { head (pipe_at given_put_later 1 (dm_no 1) put_handed)
        ≡ Some (Write (time_at 65) (class_no 1) (txn_no 1) changes_of_put) }
    ensures not_held { holds_back 1 65 changes_of_put
        (Some (Read (time_at 128) (class_no 0) (txn_no 2) 1 conds_of_query uses_of_query)) ≡ true
        → ⊥ }
{}

/// Worked: a READ that comes while its conditions are met and none is spoilt is rejected all the
/// same, after an Apply in the same event.
pub fn law_spoilt_when_it_comes()
    ensures judged { IsAnsweredIn (dm_no 1) 3 (txn_no 3) 1 in_its_event
        ⊎ IsRejectedAfter given_spoilt read_handed (dm_no 1) 3 (txn_no 3) 1 conds_of_spoilt
        in_its_event }
    ensures rejected { IsRejectedIn (dm_no 1) 3 (txn_no 3) 1 in_its_event }
{}
