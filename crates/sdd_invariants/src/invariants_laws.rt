ghost use Rattle.std.specs.Prelude.{◌≡◌, ◌≤◌, ◌≢◌, ◌<◌, ℕ, slice_get, Some, None};
ghost use Rattle.sdd_log.specs.All.{Act, Each, Msg, Queued, Setting, Site, active, head_of, number_of, queue, sends_of_act};
ghost use Rattle.sdd_log.specs.site_module.SiteLog.{Log};
ghost use Rattle.sdd_invariants.specs.Steps.{IsFair, IsNew, IsStep, stamps};
ghost use Rattle.sdd_invariants.specs.Orders.{IsStrict};
ghost use Rattle.sdd_invariants.specs.Traffic.{to_site, puts_to};
ghost use Rattle.sdd_invariants.specs.Stamps.{IsClocked};
ghost use Rattle.sdd_invariants.specs.InQueues.{IsQueue};
ghost use Rattle.sdd_invariants.specs.OnLinks.{IsTimed, AllHomed, reads_in, writes_in};
ghost use Rattle.sdd_invariants.specs.Puts.{IsPutBy, IsPut};
ghost use Rattle.sdd_invariants.specs.OfRecords.{Says};
ghost use Rattle.sdd_invariants.specs.Rejections.{IsRejected};

/// A site's timestamps rise, and lie above all that it promised before; two sites with different
/// numbers never draw the same.
pub fn law_stamps()
    ensures rise { (setting : Setting) (log : Log) → number_of setting.site ≤ 63
        → Each (IsFair setting) log → IsClocked setting log }
    ensures differ { (one other : Setting) (log more : Log) (i j x y : ℕ)
        → number_of one.site ≤ 63 → number_of other.site ≤ 63
        → number_of one.site ≢ number_of other.site
        → Each (IsFair one) log → Each (IsFair other) more
        → slice_get (stamps log) i ≡ Some x → slice_get (stamps more) j ≡ Some y → x ≢ y }
{}

/// The queue of a class is what was submitted to it and isn't committed, in order, and its active
/// attempt is that of the queue's head.
pub fn law_queues()
    ensures { (setting : Setting) (class : ℕ) (log : Log) → Each (IsFair setting) log
        → Each IsNew log → IsQueue setting class log }
{}

/// On a link the times of a class never fall, and none is above the class's limit.
pub fn law_times()
    ensures { (setting : Setting) (class : ℕ) (to : Site) (log : Log)
        → number_of setting.site ≤ 63 → Each (IsFair setting) log
        → IsTimed setting class to log }
{}

/// A message on a link was put by an act; a READ by the Start of its attempt, a WRITE by its
/// Commit, a NULL at the class's limit; what goes through a pipe is put by the site that runs the
/// class; and on one link the READs of a class have rising times, as its WRITEs have.
pub fn law_puts()
    ensures was_put { (to : Site) (log : Log) (place : ℕ) (msg : Msg)
        → slice_get (puts_to to log) place ≡ Some msg → IsPut to log msg }
    ensures put_by { (setting : Setting) (to : Site) (log : Log) (act : Act) (place : ℕ) (msg : Msg)
        → IsStep setting log act → slice_get (to_site to (sends_of_act act)) place ≡ Some msg
        → IsPutBy setting log act msg }
    ensures homed { (setting : Setting) (to : Site) (log : Log) → Each (IsFair setting) log
        → AllHomed setting.catalogue setting.site (puts_to to log) }
    ensures reads_rise { (setting : Setting) (class : ℕ) (to : Site) (log : Log)
        → number_of setting.site ≤ 63 → Each (IsFair setting) log
        → IsStrict (reads_in class (puts_to to log)) }
    ensures writes_rise { (setting : Setting) (class : ℕ) (to : Site) (log : Log)
        → number_of setting.site ≤ 63 → Each (IsFair setting) log
        → IsStrict (writes_in class (puts_to to log)) }
{}

/// What a Start and a Commit say of the log before them.
pub fn law_records()
    ensures { (setting : Setting) (log : Log) (act : Act) → number_of setting.site ≤ 63
        → Each (IsFair setting) log → Each IsNew log → IsStep setting log act
        → Says setting log act }
{}

/// Where the head of an idle class's queue was started before, the REJECT of its last attempt was
/// handed to the site, and since then the class recorded nothing.
pub fn law_rejections()
    ensures { (setting : Setting) (class : ℕ) (log : Log) (queued : Queued)
        → Each (IsFair setting) log → Each IsNew log
        → active setting class log ≡ None → head_of (queue setting class log) ≡ Some queued
        → 0 < queued.tries → IsRejected setting class log queued.number queued.tries }
{}
