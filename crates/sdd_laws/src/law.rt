//! The theorems, carried by the contracts of functions. A program has no need to call them.
//!
//! In each, `catalogue` has the classes of all eras, `eras` gives each catalogue with the event from which
//! it is in force, `rows` are those with which every data module begins, and `txns` are the
//! transactions by their numbers, from 1.
ghost use Rattle.std.specs.Prelude.{All};
ghost use Rattle.sdd_lang.specs.All.{PutsHeld};
ghost use Rattle.sdd_links.specs.Orderable.{IsOrderable};
ghost use Rattle.sdd_links.specs.Precedence.{HasNoCycle};
ghost use Rattle.sdd_laws.specs.Few.{AreFew};
ghost use Rattle.sdd_laws.specs.Kept.{FitTogether, KeepsLaws};
ghost use Rattle.sdd_laws.specs.Rejections.{KeepsRejections};
ghost use Rattle.sdd_laws.specs.Starts.{KeepsStarts};

use sdd_history::Rec;
use sdd_lang::{Catalogue, RelNo, Row, Txn, law_puts_held, law_rows_make_database};

/// No cycle: a history that keeps its laws has no list of committed transactions, each preceding the
/// next, that comes back to its first; so it has a serial order. Costs time in the values of the rows
/// and of what the transactions put. Takes no memory.
#[tactic(auto, using(crate::proofs::Acyclic::acyclic, crate::proofs::Acyclic::orderable))]
pub fn law_acyclic(
    catalogue: &Catalogue,
    eras: &[(u32, Catalogue)],
    rows: &[(RelNo, Row)],
    txns: &[Txn],
    history: &[(u32, Rec)],
)
    requires fit { FitTogether catalogue.now eras.now rows.now txns.now history.now }
    requires laws { KeepsLaws catalogue.now eras.now rows.now txns.now history.now }
    ensures acyclic { HasNoCycle catalogue.now history.now }
    ensures orderable { IsOrderable catalogue.now history.now }
{
    catalogue.law_is_sound();
    law_rows_make_database(catalogue, rows);
    texts_held(txns);
}

/// Few attempts: where a transaction starts again only as the law of rejections says, its Starts are
/// at most one more than the Commits of other transactions. Takes no memory.
#[tactic(auto, using(crate::proofs::Few::are_few))]
pub fn law_attempts(
    catalogue: &Catalogue,
    eras: &[(u32, Catalogue)],
    txns: &[Txn],
    history: &[(u32, Rec)],
)
    requires starts { KeepsStarts catalogue.now eras.now txns.now history.now }
    requires rejections { KeepsRejections catalogue.now eras.now history.now }
    ensures { AreFew history.now }
{}

/// The rows that transactions put hold numbers of 64 bits.
pub fn texts_held(txns: &[Txn])
    ensures { All (λ t. All PutsHeld t.statements) txns.now }
{
    for txn in txns {
        law_puts_held(txn);
    }
}
