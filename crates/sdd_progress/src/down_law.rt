//! A module that is down.
ghost use Rattle.std.specs.List.{list_any};
ghost use Rattle.std.specs.Prelude.{◌≡◌, ◌++◌, ◌∷◌, ℕ, false};
ghost use Rattle.sdd_obligations.specs.All.{D, DmNo, Down, Input, IsLawful, IsModule, Log, Mark, T, TmNo, contents, dated, local_of, setting_of};
ghost use Rattle.sdd_obligations.specs.site_module.SiteLog as site;
ghost use Rattle.sdd_progress.specs.Down.{brings_up, takes_part_by};

/// A law: a data module that is down stays as it is. From its `down` until its `up` nothing is handed
/// to it and it does nothing, so that its log is that before the `down`, and its copies hold what
/// they held. Nor is anything handed to a transaction module that is down, and it does nothing: its
/// log gets only what is submitted, which waits, ticks, and class lists.
pub fn law_still_while_down()
    ensures log { (given : Input) (dm : DmNo) (later before : Log) → IsModule given.catalogue dm.0
        → IsLawful given (later ++ Mark (Down (D dm)) ∷ before)
        → list_any (brings_up (D dm)) later ≡ false
        → local_of given (D dm) (later ++ Mark (Down (D dm)) ∷ before) ≡ local_of given (D dm) before }
    ensures copies { (given : Input) (dm : DmNo) (later before : Log) (frag : ℕ)
        → IsModule given.catalogue dm.0
        → IsLawful given (later ++ Mark (Down (D dm)) ∷ before)
        → list_any (brings_up (D dm)) later ≡ false
        → contents frag (dated (setting_of given (D dm)) (local_of given (D dm) (later ++ Mark (Down (D dm)) ∷ before)))
        ≡ contents frag (dated (setting_of given (D dm)) (local_of given (D dm) before)) }
    ensures waits { (given : Input) (tm : TmNo) (later before : Log)
        → IsLawful given (later ++ Mark (Down (T tm)) ∷ before)
        → list_any (brings_up (T tm)) later ≡ false
        → (more : site.Log)
        × (local_of given (T tm) (later ++ Mark (Down (T tm)) ∷ before) ≡ more ++ local_of given (T tm) before)
        × (list_any takes_part_by more ≡ false) }
{}
