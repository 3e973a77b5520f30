ghost use Rattle.std.specs.Prelude.{◌≡◌, ◌≤◌, ◌<◌, ◌*◌, ◌+◌, ◌^◌, ℕ, length, slice_get, suc, Some};
ghost use Rattle.sdd_invariants.specs.All.{AllLt, Each, Input, IsFair, IsLawful, IsNew, IsWithin, Log, MAX_EVENTS, Msg, Setting, Site, clock, hands, history, local_of, puts_to, starts, submits};
ghost use Rattle.sdd_laws.specs.All.{attempts};
ghost use Rattle.sdd_invariants.specs.site_module.SiteLog as site;
ghost use Rattle.sdd_obligations.specs.Bounds.{IsNumbered, IsSmall, class_starts, greatest_height};
ghost use Rattle.sdd_obligations.specs.Heights.{IsUnder, height, times_of};

/// No clock stands above the height of a lawful log, and no message on a link or handed over has
/// a time above it.
pub fn law_height()
    ensures { (given : Input) (log : Log) → IsSmall given → IsLawful given log
        → IsUnder given (height log) log }
{}

/// A class starts no more attempts than transactions were given to its site and messages handed
/// to it, and a site no more than all its classes.
pub fn law_few_starts()
    ensures of_class { (setting : Setting) (class : ℕ) (log : site.Log)
        → Each (IsFair setting) log → Each IsNew log
        → class_starts class log ≤ length (submits log) + hands log }
    ensures of_site { (setting : Setting) (log : site.Log) → IsNumbered setting.site
        → Each (IsFair setting) log → Each IsNew log
        → starts log
        ≤ suc (length setting.catalogue.classes) * (length (submits log) + hands log) }
{}

/// Within the limits of a run the height is bounded.
pub fn law_bound()
    ensures within { (given : Input) (log : Log) → IsSmall given → IsLawful given log → IsWithin log
        → height log ≤ greatest_height }
    ensures low { greatest_height < 2 ^ 53 }
{}

/// So clocks stay below 2^53, and the times of messages below 2^60.
pub fn law_early()
    ensures clocks { (given : Input) (log : Log) (at : Site) → IsSmall given → IsLawful given log
        → IsWithin log → (clock at (local_of given at log)).ticks < 2 ^ 53 }
    ensures times { (given : Input) (log : Log) (from to : Site) (place : ℕ) (msg : Msg)
        → IsSmall given → IsLawful given log → IsWithin log
        → slice_get (puts_to to (local_of given from log)) place ≡ Some msg
        → AllLt (2 ^ 60) (times_of msg) }
{}

/// Where the schedule has no more events than a workload's may have, and the run no more attempts
/// than `law_few_attempts` of `sdd_progress` allows, clocks stay below 2^39.
pub fn law_low_clocks()
    ensures { (given : Input) (log : Log) (at : Site) → IsSmall given → IsLawful given log
        → length given.events ≤ MAX_EVENTS → length (attempts (history log)) ≤ 2 ^ 22
        → (clock at (local_of given at log)).ticks < 2 ^ 39 }
{}
