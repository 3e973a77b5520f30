ghost use Rattle.std.specs.Prelude.{ℕ, ◌≡◌};
ghost use Rattle.sdd_links.specs.Precedence as precedence;
ghost use Rattle.sdd_laws.specs.Copied.{AreAppliedAlike};
ghost use Rattle.sdd_laws.specs.Snapshots as snapshots;

use sdd_history::Rec;
use sdd_lang::{Catalogue, DmNo, RelNo, Row, TxnNo};

/// Equal copies: two copies of a fragment are equal, each before some place of the history, where of
/// the transactions that change the fragment the same are applied. Takes no memory.
pub fn law_copies(catalogue: &Catalogue, rows: &[(RelNo, Row)], history: &[(u32, Rec)])
    ensures { (f a j b k : ℕ) → AreAppliedAlike history.now f a j b k
        → snapshots.copy_at catalogue.now rows.now history.now a j f
        ≡ snapshots.copy_at catalogue.now rows.now history.now b k f }
{}

/// Whether a transaction is applied at a module before a place of the history: whether a snapshot
/// that is taken there at that place has its changes.
///
/// O(n) for n records.
pub fn is_applied(history: &[(u32, Rec)], dm: DmNo, place: usize, txn: TxnNo) -> bool
    ensures { result ≡ snapshots.is_applied history.now dm.0 place txn.0 }
{
    history
        .iter()
        .take(place)
        .any(|entry| is_apply(txn, dm, &entry.1))
}

fn is_apply(txn: TxnNo, dm: DmNo, rec: &Rec) -> bool
    ensures { result ≡ precedence.is_apply txn.0 dm.0 rec.now }
{
    match rec {
        Rec::Apply {
            txn: of,
            dm: at,
            ..
        } => of.0 == txn.0 && at.0 == dm.0,
        _ => false,
    }
}
