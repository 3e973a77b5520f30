ghost use Rattle.std.specs.Prelude.{◌≡◌, ◌≤◌, ◌*◌, length};
ghost use Rattle.sdd_history_examples.specs.Catalogues.{crossing};
ghost use Rattle.sdd_obligations.specs.All.{attempts, history};
ghost use Rattle.sdd_lawful.specs.SoundInput.{one_era};
ghost use Rattle.sdd_progress.specs.Examples.{given_late_query, log_of_late_query};
ghost use Rattle.sdd_progress.specs.Few.{AreFewRejected, rejected_of};
ghost use Rattle.sdd_progress.specs.Rejects.{KeepsRejects};

/// Worked: a query comes after a later put, is rejected, and starts again. Its Reject is what the
/// laws say, its one rejected attempt is matched by the put's Commit, and there are three attempts of
/// two transactions.
pub fn law_one_rejected()
    ensures rejects { KeepsRejects crossing (one_era crossing) (history log_of_late_query) }
    ensures few { AreFewRejected (history log_of_late_query) }
    ensures once { rejected_of (history log_of_late_query) 1 ≡ 1 }
    ensures three { length (attempts (history log_of_late_query)) ≡ 3 }
    ensures square { length (attempts (history log_of_late_query))
        ≤ length given_late_query.txns * length given_late_query.txns }
{}
