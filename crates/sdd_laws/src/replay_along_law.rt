//! The theorem of replay, carried by the contract of a function. A program has no need to call it.
ghost use Rattle.std.specs.Prelude.{List};
ghost use Rattle.sdd_lang.specs.All.{Database, IsDatabase};
ghost use Rattle.sdd_laws.specs.Ledger.{Ledger};
ghost use Rattle.sdd_laws.specs.Order.{IsOrder};
ghost use Rattle.sdd_laws.specs.Recorded.{AreRecorded};
ghost use Rattle.sdd_laws.specs.Replayed.{IsReplayed};

use sdd_lang::Catalogue;

/// One plain database, run along an order of the committed transactions that agrees with what they
/// did, gives the replies and the changes of their Commits, and leaves what the copies hold. The
/// transactions are of any type `T`.
pub fn law_replay_along<T>(catalogue: &Catalogue)
    ensures { (first : Database) (L : Ledger T) (commits order : List T)
        → IsDatabase catalogue.now first → AreRecorded catalogue.now first L commits
        → IsOrder catalogue.now L commits order → IsReplayed catalogue.now first L commits order }
{
    catalogue.law_is_sound();
}
