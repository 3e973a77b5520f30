ghost use Rattle.std.specs.Prelude.{ℕ, ◌≡◌};
ghost use Rattle.std.specs.List.{AllZip};
ghost use Rattle.sdd_lang.specs.All.{rows_in_fragment};
ghost use Rattle.sdd_order.specs.Orders.{IsSerial};
ghost use Rattle.sdd_laws.specs.Answers.{KeepsAnswers};
ghost use Rattle.sdd_laws.specs.Applies.{KeepsApplies};
ghost use Rattle.sdd_laws.specs.Kept.{FitTogether};
ghost use Rattle.sdd_laws.specs.Replay.{run, IsReplyOf, AreAllApplied};
ghost use Rattle.sdd_laws.specs.Snapshots.{copy_at, items_of};
ghost use Rattle.sdd_laws.specs.Starts.{KeepsStarts};

use crate::law::texts_held;
use sdd_history::Rec;
use sdd_lang::{Catalogue, RelNo, Row, Txn, TxnNo, law_rows_make_database};

/// Replay: one plain database that runs the transactions one by one along a serial order of the
/// history gives the replies of their Commits; and each copy at which all are applied that change
/// its fragment has the rows that the run leaves. It needs neither read conditions nor blocks.
/// Costs time in the values of the rows and of what the transactions put. Takes no memory.
pub fn law_replay(
    catalogue: &Catalogue,
    eras: &[(u32, Catalogue)],
    rows: &[(RelNo, Row)],
    txns: &[Txn],
    history: &[(u32, Rec)],
    order: &[TxnNo],
)
    requires fit { FitTogether catalogue.now eras.now rows.now txns.now history.now }
    requires starts { KeepsStarts catalogue.now eras.now txns.now history.now }
    requires answers { KeepsAnswers catalogue.now rows.now txns.now history.now }
    requires applies { KeepsApplies catalogue.now history.now }
    requires order { IsSerial catalogue.now history.now order.now }
    ensures replies { AllZip (IsReplyOf history.now) order.now
        (run catalogue.now rows.now txns.now order.now).0 }
    ensures copies { (f d k : ℕ) → AreAllApplied history.now f d k
        → rows_in_fragment catalogue.now (run catalogue.now rows.now txns.now order.now).1 f
        ≡ items_of catalogue.now f (copy_at catalogue.now rows.now history.now d k f) }
{
    catalogue.law_is_sound();
    law_rows_make_database(catalogue, rows);
    texts_held(txns);
}
