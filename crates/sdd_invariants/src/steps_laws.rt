ghost use Rattle.std.specs.Prelude.{◌≡◌};
ghost use Rattle.sdd_log.specs.All.{Act, Bases, Setting, T, TmNo, U, active, queue};
ghost use Rattle.sdd_log.specs.site_module.SiteLog.{Log};
ghost use Rattle.sdd_log.specs.tm.Due as tm;
ghost use Rattle.sdd_log.specs.tm.Views as tm_views;
ghost use Rattle.sdd_log.specs.umod.Due as um;
ghost use Rattle.sdd_log.specs.umod.Views as um_views;
ghost use Rattle.sdd_log.specs.dm.Due as dm;
ghost use Rattle.sdd_log.specs.dm.Views as dm_views;
ghost use Rattle.sdd_invariants.specs.Steps.{IsStep, IsServed};
ghost use Rattle.sdd_invariants.specs.ReadSteps.{IsReadStep};

/// What is due at a site is a step. At U this needs that the active attempt is that of the queue's
/// head.
pub fn law_due_is_step()
    ensures at_t { (setting : Setting) (t : TmNo) (bases : Bases) (log : Log) (act : Act)
        → setting.site ≡ T t → tm.IsDue setting.catalogue bases (tm_views.view_of setting log) act
        → IsStep setting log act }
    ensures at_u { (setting : Setting) (bases : Bases) (log : Log) (act : Act)
        → setting.site ≡ U → IsServed (active setting 0 log) (queue setting 0 log)
        → um.IsDue setting.catalogue bases (um_views.view_of setting log) act
        → IsStep setting log act }
    ensures at_d { (setting : Setting) (log : Log) (act : Act)
        → dm.IsDue (dm_views.home_of setting) (dm_views.view_of setting log) act
        → IsReadStep setting log act }
{}
