ghost use Rattle.std.specs.Prelude.{◌≡◌, ℕ, slice_get, Some, None};
ghost use Rattle.sdd_log.specs.All.{Act, Each, IsDue, Msg, Setting, Site, home_of, piped, sends_of_act, view_of};
ghost use Rattle.sdd_log.specs.site_module.SiteLog.{Log};
ghost use Rattle.sdd_invariants.specs.ReadSteps.{IsDueEach};
ghost use Rattle.sdd_invariants.specs.Traffic.{to_site, puts_to};
ghost use Rattle.sdd_invariants.specs.Matched.{IsMatched};
ghost use Rattle.sdd_invariants.specs.Unspoilt.{IsWaiting};
ghost use Rattle.sdd_invariants.specs.PutsBy.{IsPutByD};

/// The k-th record that processes a message of a pipe belongs to the k-th message that is
/// processed.
pub fn law_processed()
    ensures { (setting : Setting) (class : ℕ) (log : Log) → Each (IsDueEach setting) log
        → IsMatched class log }
{}

/// While a READ waits, no WRITE at or after the time of one of its conditions, of that condition's
/// class and fragments, is processed.
pub fn law_waiting()
    ensures { (setting : Setting) (log : Log) → Each (IsDueEach setting) log → (class : ℕ)
        → IsWaiting setting class log }
{}

/// What a data module puts on a link answers a READ, a WRITE of class 0, or a question; nothing of
/// it goes through a pipe.
pub fn law_answers()
    ensures put_by { (setting : Setting) (log : Log) (act : Act)
        → IsDue (home_of setting) (view_of setting log) act
        → (to : Site) (place : ℕ) (msg : Msg)
        → slice_get (to_site to (sends_of_act act)) place ≡ Some msg
        → IsPutByD setting log to act msg }
    ensures through_no_pipe { (setting : Setting) (to : Site) (log : Log)
        → Each (IsDueEach setting) log → (place : ℕ) (msg : Msg)
        → slice_get (puts_to to log) place ≡ Some msg → piped msg ≡ None }
{}
