ghost use Rattle.std.specs.Prelude.{◌≡◌, ◌≤◌, ◌≢◌, ◌++◌, ℕ, List, None, Some, slice_get, true};
ghost use Rattle.sdd_obligations.specs.invariants.All.{ClassNo, Cond, DmNo, Each, Input, IsClassHere, IsDueEach, IsPermitted, Log, Read, Setting, Ts, TxnNo, Use, all_of, head, home, home_of, number_of, pipe, pipe_at, view_of, waits};
ghost use Rattle.sdd_obligations.specs.site_module.SiteLog as site;
ghost use Rattle.sdd_obligations.specs.pipe.Pipe.{passed};
ghost use Rattle.sdd_obligations.specs.dm.Due.{due};
ghost use Rattle.sdd_progress.specs.Conditions.{AreConditionsOf};
ghost use Rattle.sdd_progress.specs.Heads.{IsStuck};
ghost use Rattle.sdd_progress.specs.Waited.{WaitsSince};

/// What a pipe has passed, it has passed in every log that goes on from this one.
pub fn law_passed_lasts()
    ensures { (given : Input) (class : ℕ) (d : DmNo) (time : ℕ) (later log : Log)
        → IsPermitted given (later ++ log) → number_of (home given.catalogue class) ≤ 63
        → passed (pipe_at given class d log) time ≡ true
        → passed (pipe_at given class d (later ++ log)) time ≡ true }
{}

/// Where nothing is due at a data module, at the head of each pipe stands nothing, a READ that
/// waits and isn't ready, or a WRITE that is held.
pub fn law_heads()
    ensures { (setting : Setting) (log : site.Log) (class : ℕ) → IsClassHere setting class
        → due (home_of setting) (view_of setting log) ≡ None
        → IsStuck setting log class (head (pipe class log)) }
{}

/// A READ that waits began to by a Wait, with which an ASK was sent for each condition that wasn't
/// met then; since then nothing of its pipe was processed.
pub fn law_since()
    ensures { (setting : Setting) (class : ℕ) (log : site.Log) → Each (IsDueEach setting) log
        → waits class log ≡ true → WaitsSince setting class log }
{}

/// Each condition of an attempt of a declared class comes from diagonals of P2 or P3 of the
/// protocol table that was in force at its Start: its time is the attempt's own under P3, and the
/// time of P2 under P2.
pub fn law_conditions_in_table()
    ensures { (given : Input) (log : Log) (class : ℕ) (d : DmNo) (place : ℕ) (ts : Ts)
        (of : ClassNo) (txn : TxnNo) (attempt : ℕ) (conds : List Cond) (uses : List Use)
        → IsPermitted given log → class ≢ 0
        → slice_get (all_of (pipe_at given class d log)) place
        ≡ Some (Read ts of txn attempt conds uses)
        → AreConditionsOf given log class ts.0 conds }
{}
