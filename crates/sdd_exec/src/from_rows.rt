ghost use Rattle.std.specs.Prelude.{◌≡◌, IfOk};
ghost use Rattle.sdd_lang.specs.catalog.Catalogue as catalogues;
ghost use Rattle.sdd_lang.specs.declared.transaction.Txn as transactions;
ghost use Rattle.sdd_lang.specs.All.{Database, FitsTxn, IsDatabase};
ghost use Rattle.sdd_lang.specs.Effect as of_databases;
ghost use Rattle.sdd_shipped.specs.Serves.{Serves};
ghost use Rattle.sdd_shipped.specs.Snapshots as snapshots;

use crate::snapshot::Snapshot;
use crate::source::Shipped;
use sdd_lang::{Catalogue, Effect, NoMemory, Txn, effect_over};
use std::alloc::Global;

/// The effect of a transaction on each database that the snapshot serves.
///
/// Queries are joins: at each step a part is taken that an equality ties to those taken before,
/// where there is one, and its rows are found by a hash of the tied columns. So it costs time with
/// the tuples that meet the equalities of the parts taken so far, and not with the product; beyond
/// that, with all rows of the snapshot once for each use, and a logarithmic step for each row that
/// is answered or changed.
pub fn effect(
    alloc: Global,
    catalogue: &Catalogue,
    txn: &Txn,
    snap: &Snapshot,
) -> Result<Effect, NoMemory>
    requires { FitsTxn catalogue.now txn.now }
    ensures { (db : Database) → IsDatabase catalogue.now db → Serves catalogue.now txn.now snap.now.value db → IfOk result (λ effect. effect ≡ of_databases.effect catalogue.now db txn.now) }
{
    effect_over(alloc, catalogue, txn, &Shipped { catalogue, snap })
}

/// A snapshot determines the effect: all databases that it serves for a transaction give the same.
pub fn law_one_effect()
    ensures { (catalogue : catalogues.Catalogue) (txn : transactions.Txn) (snap : snapshots.Shipped) (db other : Database)
        → IsDatabase catalogue db → IsDatabase catalogue other → Serves catalogue txn snap db → Serves catalogue txn snap other → of_databases.effect catalogue db txn ≡ of_databases.effect catalogue other txn }
{}
