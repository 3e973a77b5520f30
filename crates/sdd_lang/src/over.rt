ghost use Rattle.std.specs.Prelude.{◌≡◌, IfOk};
ghost use Rattle.sdd_lang.specs.Effect.{failed_effect};
ghost use Rattle.sdd_lang.specs.Fits.{FitsTxn};
ghost use Rattle.sdd_lang.specs.Source.{effect_over};

use crate::effect::Effect;
use crate::run::Run;
use crate::source::Source;
use crate::transaction::Txn;
use sdd_base::{Changes, NoMemory, Reply};
use sdd_catalog::Catalogue;
use std::alloc::Global;

/// The effect of a transaction that fails: it changes nothing.
fn failed_effect(alloc: Global, reply: Reply) -> Effect
    ensures { result ≡ failed_effect reply }
{
    Effect {
        reply,
        changes: Changes::from_vec(Vec::new(alloc)),
    }
}

/// The effect of a transaction over the rows that a source gives.
///
/// Each statement works on what the source gives, and none sees a change of the transaction. The
/// first statement that fails decides: an update of which a sum leaves the range of a whole number
/// answers `Overflow`, and the query with which the answers have more than 4,096 rows together
/// answers `TooMany`. A transaction that fails changes nothing.
///
/// Costs what the source's answers cost, and a logarithmic step for each change.
pub fn effect_over<S: Source>(
    alloc: Global,
    catalogue: &Catalogue,
    txn: &Txn,
    source: &S,
) -> Result<Effect, NoMemory>
    requires { FitsTxn catalogue.now txn.now }
    ensures { IfOk result (λ effect. effect ≡ effect_over catalogue.now (S.found source.now) (S.chosen source.now) txn.now) }
{
    let mut run = Run::new(alloc);
    'statements: for statement in txn.statements.as_slice() {
        match run.take(alloc, catalogue, source, statement)? {
            Some(failure) => return Ok(failed_effect(alloc, failure)),
            None => {}
        }
    }
    run.into_effect(alloc)
}
