//! The transactions of a workload with what they may read and change.
ghost use Rattle.std.specs.Prelude.{◌≡◌, IfOk};
ghost use Rattle.std.specs.List.{All};
ghost use Rattle.sdd_lang.specs.All.{FitsStart, FitsTxn, database_of};
ghost use Rattle.sdd_robust_laws.specs.Accesses.{accesses};
ghost use Rattle.sdd_robust.specs.Members.{members_of};

use crate::accessing::accesses_of;
use crate::member::Member;
use crate::staying::Staying;
use sdd_lang::{Catalogue, NoMemory, RelNo, Row, Txn};
use std::alloc::Global;

/// The transactions in their order, each with what it may read and change where they are all that there
/// are, and the database begins with the rows.
pub(crate) fn members_in(
    alloc: Global,
    catalogue: &Catalogue,
    rows: &[(RelNo, Row)],
    txns: &[Txn],
) -> Result<Vec<Member>, NoMemory>
    requires rows { All (FitsStart catalogue.now) rows.now }
    requires txns { All (FitsTxn catalogue.now) txns.now }
    ensures { IfOk result (λ all. all.items ≡ members_of catalogue.now txns.now (database_of catalogue.now rows.now)) }
{
    let staying = Staying::of(alloc, catalogue, rows, txns)?;
    let mut all = Vec::with_capacity(alloc, txns.len())?;
    let mut place = 0;
    'txns: for txn in txns {
        all.push(member_at(alloc, &staying, place, txn)?)?;
        place += 1;
    }
    Ok(all)
}

fn member_at(
    alloc: Global,
    staying: &Staying<'_>,
    place: usize,
    txn: &Txn,
) -> Result<Member, NoMemory>
    requires { FitsTxn staying.now.cat txn.now }
    ensures { IfOk result (λ member. member ≡ record {
      place = place;
      accesses = accesses staying.now.cat staying.now.work staying.now.first txn.now;
    }) }
{
    Ok(Member {
        place,
        accesses: accesses_of(alloc, staying, txn)?,
    })
}
