ghost use Rattle.std.specs.Prelude.{ℕ, ◌<◌, ◌≡◌, List, Some, slice_get};
ghost use Rattle.sdd_obligations.specs.All.{Change, ClassNo, Cond, Ts, TxnNo, Write, dm_no, head, history, pipe_at};
ghost use Rattle.sdd_progress.specs.WaitExamples.{conds_of_query, given_put_later, put_handed};
ghost use Rattle.sdd_progress.specs.Committed.{AllCommitted};
ghost use Rattle.sdd_progress.specs.Examples.{given_all_lost, given_late_query, log_of_all_lost, log_of_late_query};
ghost use Rattle.sdd_progress.specs.Finished.{IsFinished};
ghost use Rattle.sdd_progress.specs.Settled.{IsSettled};

/// Worked: a query comes after a later put, is rejected, starts again, and waits; a settle ends the
/// run. So both transactions are committed.
pub fn law_late_query()
    ensures settled { IsSettled given_late_query log_of_late_query }
    ensures finished { IsFinished given_late_query log_of_late_query }
    ensures committed { AllCommitted (history log_of_late_query) }
{}

/// Worked: all that was sent of the two is lost; a settle ends the run. So both are committed.
pub fn law_all_lost()
    ensures settled { IsSettled given_all_lost log_of_all_lost }
    ensures finished { IsFinished given_all_lost log_of_all_lost }
    ensures committed { AllCommitted (history log_of_all_lost) }
{}

/// Worked: an undeclared query's READ and a put's WRITE are both next at a data module. The WRITE has
/// the smaller timestamp, and each condition of the READ has the READ's own.
pub fn law_read_and_put()
    ensures after_write { (write : Ts) (by : ClassNo) (writer : TxnNo) (changes : List Change)
        → head (pipe_at given_put_later 1 (dm_no 1) put_handed)
        ≡ Some (Write write by writer changes) → write.0 < 128 }
    ensures own_time { (place : ℕ) (cond : Cond) → slice_get conds_of_query place ≡ Some cond
        → cond.time.0 ≡ 128 }
{}
