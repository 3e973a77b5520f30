ghost use Rattle.std.specs.Prelude.{◌≡◌, ℕ, suc, slice_get, Some};
ghost use Rattle.sdd_log.specs.All.{Act, Bases, Each, Queued, Setting, Site, counts, last_served, numbers_to};
ghost use Rattle.sdd_log.specs.site_module.SiteLog.{Log};
ghost use Rattle.sdd_log.specs.tm.Due as tm;
ghost use Rattle.sdd_log.specs.tm.Views as tm_views;
ghost use Rattle.sdd_invariants.specs.Steps.{start_at};
ghost use Rattle.sdd_invariants.specs.Traffic.{puts_to};
ghost use Rattle.sdd_invariants.specs.AtT.{HoldRule, IsFairT, IsStill};
ghost use Rattle.sdd_invariants.specs.AtU.{IsChain, IsFairU, IsStepU, starts};
ghost use Rattle.sdd_invariants.specs.Releases.{IsServing};
ghost use Rattle.sdd_invariants.specs.Turns.{NoneHold};

/// A T sends no more HELDs than HOLDs were handed to it, and between a HELD and its RELEASE its
/// classes are idle; what is due at it obeys the holds; and it puts no HOLD and no RELEASE.
pub fn law_still()
    ensures still { (setting : Setting) (log : Log) → Each (IsFairT setting) log
        → IsStill setting log }
    ensures rule { (setting : Setting) (bases : Bases) (log : Log) (act : Act)
        → tm.IsDue setting.catalogue bases (tm_views.view_of setting log) act
        → HoldRule setting log act }
    ensures none { (setting : Setting) (to : Site) (log : Log) → Each (IsFairT setting) log
        → NoneHold (puts_to to log) }
{}

/// At U, for each T: the RELEASEs sent, the Commits, the Starts and the HELDs handed stand in one
/// chain, and HOLDs and RELEASEs alternate.
pub fn law_chain()
    ensures { (setting : Setting) (place t : ℕ) (log : Log)
        → slice_get (numbers_to setting.catalogue.tms) place ≡ Some t
        → Each (IsFairU setting) log → IsChain setting t log }
{}

/// The RELEASEs to a T carry the timestamps of the Starts, in order, and each was sent once every
/// data module's DONE for its timestamp was handed.
pub fn law_releases()
    ensures { (setting : Setting) (place t : ℕ) (log : Log)
        → slice_get (numbers_to setting.catalogue.tms) place ≡ Some t
        → Each (IsFairU setting) log → IsServing setting t log }
{}

/// U starts a transaction when the one before it is committed and every T holds.
pub fn law_ready()
    ensures { (setting : Setting) (log : Log) (queued : Queued) → Each (IsFairU setting) log
        → IsStepU setting log (start_at setting 0 log queued)
        → (starts log ≡ (last_served setting log).commits)
        × ((place t : ℕ) → slice_get (numbers_to setting.catalogue.tms) place ≡ Some t
        → (counts t log).helds ≡ suc (last_served setting log).commits) }
{}
