ghost use Rattle.std.specs.Prelude.{◌≡◌, ◌≤◌, ◌++◌, ◌∷◌, ℕ, length, take};
ghost use Rattle.sdd_log.specs.All.{Act, D, Did, DmNo, Each, Handed, Input, IsPermitted, Log, Msg, Site, Submits, Txn, handed, local_of, setting_of};
ghost use Rattle.sdd_log.specs.site_module.SiteLog as site;
ghost use Rattle.sdd_invariants.specs.Steps.{IsFair, IsNew, home};
ghost use Rattle.sdd_invariants.specs.ReadSteps.{IsDueEach};
ghost use Rattle.sdd_invariants.specs.Traffic.{puts_to, hands_from};
ghost use Rattle.sdd_invariants.specs.Made.{IsActAt, IsHandAt, IsSubmitAt};

/// The messages that were handed over at the end of a link are, in order, the first of those that
/// were put on it.
pub fn law_in_order()
    ensures first { (given : Input) (log : Log) (a b : Site) → IsPermitted given log
        → hands_from a (local_of given b log)
        ≡ take (handed a b log) (puts_to b (local_of given a log)) }
    ensures within { (given : Input) (log : Log) (a b : Site) → IsPermitted given log
        → handed a b log ≤ length (puts_to b (local_of given a log)) }
{}

/// An act, a hand or a transaction in the log of a site stands at a place of the log of everything.
pub fn law_places()
    ensures act { (given : Input) (at : Site) (log : Log) (later : site.Log) (act : Act)
        (before : site.Log) → local_of given at log ≡ later ++ Did act ∷ before
        → IsActAt given at log act before }
    ensures hand { (given : Input) (at : Site) (log : Log) (later : site.Log) (from : Site)
        (msg : Msg) (before : site.Log) → local_of given at log ≡ later ++ Handed from msg ∷ before
        → IsHandAt given at log from msg before }
    ensures submitted { (given : Input) (at : Site) (log : Log) (later : site.Log) (n : ℕ)
        (text : Txn) (before : site.Log)
        → local_of given at log ≡ later ++ Submits n text ∷ before
        → IsSubmitAt given at log n text before }
{}

/// In a permitted log the log of each site is made of steps, and submits no number twice.
pub fn law_steps()
    ensures of_class { (given : Input) (class : ℕ) (log : Log) → IsPermitted given log
        → Each (IsFair (setting_of given (home given.catalogue class)))
        (local_of given (home given.catalogue class) log) }
    ensures of_data { (given : Input) (d : DmNo) (log : Log) → IsPermitted given log
        → Each (IsDueEach (setting_of given (D d))) (local_of given (D d) log) }
    ensures new { (given : Input) (at : Site) (log : Log) → IsPermitted given log
        → Each IsNew (local_of given at log) }
{}
