//! What a transaction writes, and transactions that run on one database.
ghost use Rattle.std.specs.Prelude.{IfOk, IsTrue};
ghost use Rattle.sdd_script.specs.All.{IsValid};

use sdd_plain::Plain;
use sdd_script::{Catalogue, FragNo, NoMemory, Txn, Workload, fits, write_set};
use std::alloc::Global;

/// Whether the first transaction writes both fragments.
pub fn write_both(alloc: Global, catalogue: &Catalogue, txns: &[Txn]) -> Result<bool, NoMemory> {
    match txns {
        [txn, ..] => writes_both(alloc, catalogue, txn),
        _ => Ok(false),
    }
}

fn writes_both(alloc: Global, catalogue: &Catalogue, txn: &Txn) -> Result<bool, NoMemory> {
    if !fits(catalogue, txn) {
        return Ok(false);
    }
    let found = write_set(alloc, catalogue, txn)?;
    Ok(found.as_slice() == [FragNo(1), FragNo(2)].as_slice())
}

/// Whether each transaction has a reply.
pub fn are_run(alloc: Global, catalogue: &Catalogue, work: &Workload) -> Result<bool, NoMemory>
    requires { IsValid catalogue.now work.now }
{
    let mut plain = start_plain(alloc, catalogue, work)?;
    has_replies(&mut plain, catalogue, work)
}

#[tactic(auto, using(crate::proofs::Fitting::txns_fit))]
fn has_replies(plain: &mut Plain, catalogue: &Catalogue, work: &Workload) -> Result<bool, NoMemory>
    requires live { IsTrue plain.old.live }
    requires valid { IsValid catalogue.now work.now }
{
    let replies = plain.run_all(catalogue, work.txns.as_slice())?;
    Ok(replies.as_slice().len() == work.txns.as_slice().len())
}

#[tactic(auto, using(crate::proofs::Fitting::rows_fit))]
fn start_plain(alloc: Global, catalogue: &Catalogue, work: &Workload) -> Result<Plain, NoMemory>
    requires { IsValid catalogue.now work.now }
    ensures { IfOk result (λ plain. IsTrue plain.live) }
{
    Plain::new(alloc, catalogue, work.rows.as_slice())
}
