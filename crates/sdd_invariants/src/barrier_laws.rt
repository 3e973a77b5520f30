ghost use Rattle.std.specs.Prelude.{◌≡◌, ◌≤◌, ◌≢◌, ◌<◌, ◌⊎◌, ◌++◌, ◌∷◌, ℕ, List, true, false, slice_get, Some};
ghost use Rattle.sdd_log.specs.All.{Answer, Attempt, Bases, ClassNo, Cond, D, DmNo, Does, Input, IsPermitted, Log, Msg, Queued, Read, Records, Site, T, Ts, TxnNo, U, Use, commit_act, dm_no, head, local_of, number_of, numbers_to, runs, setting_of, spoils, tm_no, touches, view_of};
ghost use Rattle.sdd_graph.specs.Graph.{classes_of};
ghost use Rattle.sdd_invariants.specs.Steps.{home};
ghost use Rattle.sdd_invariants.specs.Seen.{IsApplied, changes_to, pipe_at};
ghost use Rattle.sdd_invariants.specs.AtU.{starts};
ghost use Rattle.sdd_invariants.specs.Releases.{dones_of};
ghost use Rattle.sdd_invariants.specs.Barrier.{HasApply, IsCommitT, IsHigh, IsHoldChain, IsLow, start_u, u_stamp, zero_cond};

/// Between U and each T the HOLDs, HELDs, Starts, Commits and RELEASEs stand in one chain.
pub fn law_holds()
    ensures { (given : Input) (place t : ℕ) (log : Log)
        → slice_get (numbers_to given.catalogue.tms) place ≡ Some t
        → IsPermitted given log → IsHoldChain given t log }
{}

/// A declared transaction that commits anywhere in a log, against one undeclared Start: it is
/// committed before it, with a smaller timestamp; or it starts, with a greater one, once U was
/// handed as many DONEs for the undeclared one as there are data modules.
pub fn law_sides()
    ensures { (given : Input) (place t class run : ℕ) (full later log : Log) (queued : Queued)
        (attempt : Attempt) (committed : IsCommitT given t class full attempt)
        → slice_get (numbers_to given.catalogue.tms) place ≡ Some t
        → slice_get (runs (setting_of given (T (tm_no t)))) run ≡ Some class
        → number_of (T (tm_no t)) ≤ 63 → IsPermitted given full
        → full ≡ later ++ Does U (start_u given log queued) ∷ log
        → IsLow given t class full log attempt committed (u_stamp given log)
        ⊎ IsHigh given t class full log attempt committed (u_stamp given log)
        (starts (local_of given U log)) }
{}

/// Where U was handed as many DONEs for a timestamp as there are data modules, each of these has
/// an Apply of class 0 with it; and at the Start of an undeclared transaction every one before it
/// is applied everywhere, with a smaller timestamp.
pub fn law_undeclared()
    ensures applied { (given : Input) (log : Log) (ts place d : ℕ) → IsPermitted given log
        → given.catalogue.dms ≤ dones_of ts (local_of given U log)
        → slice_get (numbers_to given.catalogue.dms) place ≡ Some d
        → HasApply given log (dm_no d) ts }
    ensures before_start { (given : Input) (place t : ℕ) (log later before : Log)
        (queued first : Queued) → slice_get (numbers_to given.catalogue.tms) place ≡ Some t
        → IsPermitted given (Does U (start_u given log queued) ∷ log)
        → log ≡ later ++ Does U (start_u given before first) ∷ before
        → (given.catalogue.dms ≤ dones_of (u_stamp given before) (local_of given U log))
        × (u_stamp given before < u_stamp given log) }
{}

/// At an Answer to an undeclared transaction, a declared one that changes something of which the
/// module has a copy is applied there exactly where it has a smaller timestamp.
pub fn law_seen_by_undeclared()
    ensures { (given : Input) (d : DmNo) (class place : ℕ) (later log after before : Log)
        (of : ClassNo) (txn reader : TxnNo) (number tries : ℕ) (dm : DmNo)
        (sends : List (Site × Msg)) (ts : Ts) (conds : List Cond) (uses : List Use)
        (bases : Bases) (attempt : Attempt)
        → IsPermitted given (later ++ Does (D d) (Records 0 (Answer txn number dm) sends) ∷ log)
        → number_of (home given.catalogue class) ≤ 63
        → 1 ≤ d.0 → d.0 ≤ given.catalogue.dms → class ≢ 0
        → head (pipe_at given 0 d log) ≡ Some (Read ts of reader tries conds uses)
        → slice_get (classes_of given.catalogue) place ≡ Some class
        → later ++ Does (D d) (Records 0 (Answer txn number dm) sends) ∷ log
        ≡ after ++ Does (home given.catalogue class)
        (commit_act given.catalogue bases class attempt) ∷ before
        → touches (zero_cond given ts.0 class).frags (changes_to given bases attempt d) ≡ true
        → (IsApplied given log d class attempt → attempt.ts < ts.0)
        × (attempt.ts < ts.0 → IsApplied given log d class attempt) }
{}

/// No condition of an undeclared transaction's READ is spoilt where the READ is next.
pub fn law_never_spoilt()
    ensures { (given : Input) (place t run dm cond_place : ℕ) (d : DmNo) (log : Log) (ts : Ts)
        (of : ClassNo) (txn : TxnNo) (attempt : ℕ) (conds : List Cond) (uses : List Use)
        (cond : Cond) → IsPermitted given log
        → slice_get (numbers_to given.catalogue.tms) place ≡ Some t
        → slice_get (runs (setting_of given (T (tm_no t)))) run ≡ Some cond.class.0
        → number_of (T (tm_no t)) ≤ 63
        → home given.catalogue cond.class.0 ≡ T (tm_no t)
        → slice_get (numbers_to given.catalogue.dms) dm ≡ Some d.0
        → head (pipe_at given 0 d log) ≡ Some (Read ts of txn attempt conds uses)
        → slice_get conds cond_place ≡ Some cond
        → spoils (view_of (setting_of given (D d)) (local_of given (D d) log)) cond ≡ false }
{}
