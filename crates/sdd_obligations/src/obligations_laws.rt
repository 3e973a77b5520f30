ghost use Rattle.std.specs.Prelude.{◌≡◌, ◌≢◌, ◌∷◌, ℕ, slice_get, false, Some};
ghost use Rattle.sdd_invariants.specs.All.{Act, AllLinked, Bases, D, DmNo, Does, Hand, Input, IsLawful, IsPermitted, IsSiteOf, IsWithin, Log, Msg, Site, Submitted, T, TmNo, Txn, U, class_for, contains, current_era, local_of, next, puts_to, sends_of_act, setting_of, submits, txn_at};
ghost use Rattle.sdd_invariants.specs.dm.Fits as dm;
ghost use Rattle.sdd_invariants.specs.tm.Fits as tm;
ghost use Rattle.sdd_invariants.specs.umod.Fits as um;
ghost use Rattle.sdd_needs.specs.Obligations.{Obligations};
ghost use Rattle.sdd_obligations.specs.Runnable.{IsRunnable};
ghost use Rattle.sdd_obligations.specs.Routes.{IsRouted};
ghost use Rattle.sdd_obligations.specs.Upheld.{IsUpheldD, IsUpheldR};

/// Each message on a link goes from and to the kinds of sites of its kind.
pub fn law_routes()
    ensures { (given : Input) (log : Log) (from to : Site) (place : ℕ) (msg : Msg)
        → IsPermitted given log
        → slice_get (puts_to to (local_of given from log)) place ≡ Some msg
        → IsRouted from to msg }
{}

/// A message that is next to be handed over is what its module asks of it: it comes from the site
/// that may send it, in turn, with times that aren't late, as the first answer to what was asked.
/// What the laws of exchanges and databases prove is assumed here.
pub fn law_hands()
    ensures at_d { (given : Input) (log : Log) (from : Site) (d : DmNo) (number : ℕ) (msg : Msg)
        (bases : Bases) → IsRunnable given → IsLawful given log → IsWithin log
        → next given log ≡ Some (Hand from (D d) number msg)
        → IsUpheldD (setting_of given (D d)) (local_of given (D d) log) from msg
        → dm.fits (setting_of given (D d)) bases (local_of given (D d) log) from msg }
    ensures at_t { (given : Input) (log : Log) (from : Site) (t : TmNo) (number : ℕ) (msg : Msg)
        (bases : Bases) → IsRunnable given → IsLawful given log → IsWithin log
        → next given log ≡ Some (Hand from (T t) number msg)
        → IsUpheldR (setting_of given (T t)) bases (local_of given (T t) log) from msg
        → tm.fits_kind (setting_of given (T t)) bases (local_of given (T t) log) from msg }
    ensures at_u { (given : Input) (log : Log) (from : Site) (number : ℕ) (msg : Msg)
        (bases : Bases) → IsRunnable given → IsLawful given log → IsWithin log
        → next given log ≡ Some (Hand from U number msg)
        → IsUpheldR (setting_of given U) bases (local_of given U log) from msg
        → um.fits_kind (setting_of given U) bases (local_of given U log) from msg }
{}

/// A transaction that is next to be given to a module is new there, and of the module: declared
/// ones go to their own T, by the classes in force there; and each goes to a site of the network.
pub fn law_submits()
    ensures new { (given : Input) (log : Log) (at : Site) (number : ℕ) (txn : Txn) → IsRunnable given
        → IsLawful given log → next given log ≡ Some (Submitted at number)
        → txn_at given number ≡ Some txn
        → contains (submits (local_of given at log)) number ≡ false }
    ensures declared { (given : Input) (log : Log) (t : TmNo) (number : ℕ) (txn : Txn)
        → IsRunnable given → IsLawful given log → next given log ≡ Some (Submitted (T t) number)
        → txn_at given number ≡ Some txn
        → (T t ≡ T txn.tm)
        × (class_for (current_era (setting_of given (T t)) (local_of given (T t) log)).catalogue txn
        ≢ 0) }
    ensures home { (given : Input) (log : Log) (at : Site) (number : ℕ) → IsRunnable given
        → IsLawful given log → next given log ≡ Some (Submitted at number)
        → IsSiteOf given at }
{}

/// What an act sends goes along links of the network.
pub fn law_sends()
    ensures { (given : Input) (log : Log) (at : Site) (act : Act) → IsRunnable given
        → IsLawful given log → next given log ≡ Some (Does at act)
        → AllLinked given at (sends_of_act act) }
{}

/// What the modules ask of messages, transactions and ticks, and that what they send goes along
/// links, holds of what is next on the lawful logs of what is given so.
pub fn law_obligations()
    ensures { Obligations }
{}
