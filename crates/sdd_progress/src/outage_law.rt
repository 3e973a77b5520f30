//! What an outage of modules costs.
ghost use Rattle.std.specs.Prelude.{◌≡◌, ℕ, None, false, length, true};
ghost use Rattle.sdd_lawful.specs.SoundInput.{AreNumbered};
ghost use Rattle.sdd_obligations.specs.All.{AreAllApplied, AreSubmittedOnce, Input, IsLawful, IsModuleOf, IsPermitted, IsSoundCatalogue, Log, Rests, Site, all_links, calls_of, has_copy, history, is_down, next, quiet};
ghost use Rattle.sdd_progress.specs.Committed.{AllCommitted};
ghost use Rattle.sdd_progress.specs.HangsOn.{HoldsUpUndeclared};
ghost use Rattle.sdd_progress.specs.Outage.{CostsNoMore};
ghost use Rattle.sdd_progress.specs.Premises.{HasSoundLists, IsIdleAtRedeclares};
ghost use Rattle.sdd_progress.specs.Quiet.{IsStill};

/// A law: where the links are quiet between two events, or at the end of a complete log, and modules
/// may be down, only this is left undone: a transaction whose class needs a module that is
/// down, or that comes while an undeclared one isn't done; and a change at a copy whose module is down,
/// or at which a read may hold it back that waits for a class that needs such a module.
pub fn law_outage()
    ensures between { (given : Input) (log : Log) → AreSubmittedOnce given.events → Rests given log
        → quiet (all_links given) (calls_of log) ≡ true → IsStill given log }
    ensures at_end { (given : Input) (log : Log) → AreSubmittedOnce given.events → IsLawful given log
        → next given log ≡ None → quiet (all_links given) (calls_of log) ≡ true → IsStill given log }
    ensures costs { (given : Input) (log : Log) → IsStill given log → HasSoundLists given log
        → IsIdleAtRedeclares given log → CostsNoMore given log }
{}

/// A law: an undeclared transaction that isn't committed hangs on a module that is down: on a data module
/// whose answer it lacks, or at which the undeclared transaction before it isn't applied; on a transaction
/// module that hasn't said HELD for it; on one that the passing of a class needs for which its READ waits;
/// or on one that an attempt of a declared class needs which has to end first. Where no module is down, all
/// is committed and applied, by this and by what `law_outage` says of declared classes.
pub fn law_hangs_on()
    ensures holds_up { (given : Input) (log : Log) → IsStill given log → HasSoundLists given log
        → IsIdleAtRedeclares given log → HoldsUpUndeclared given log }
    ensures settles { (given : Input) (log : Log) → IsPermitted given log → AreNumbered given log
        → CostsNoMore given log → HoldsUpUndeclared given log
        → ((at : Site) → IsModuleOf given at → is_down at log ≡ false) → AllCommitted (history log) }
    ensures leaves { (given : Input) (log : Log) (f d : ℕ) → IsSoundCatalogue given.catalogue
        → CostsNoMore given log → HoldsUpUndeclared given log
        → ((at : Site) → IsModuleOf given at → is_down at log ≡ false)
        → has_copy given.catalogue d f ≡ true → AreAllApplied (history log) f d (length (history log)) }
{}
