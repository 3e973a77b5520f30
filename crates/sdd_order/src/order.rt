ghost use Rattle.std.specs.Prelude.{◌≡◌, option_map, slice_get, IfOk};
ghost use Rattle.std.specs.List.Sorted.{IsPermutation, IsNonDecreasingBy};
ghost use Rattle.sdd_links.specs.lang.All.{txn_no};
ghost use Rattle.sdd_links.specs.Attempts.{committed};
ghost use Rattle.sdd_links.specs.Orderable.{IsOrderable};
ghost use Rattle.sdd_order.specs.Orders.{IsSerial};
ghost use Rattle.sdd_order.specs.SerialOrder.{numbers_at, serial_order};

use sdd_links::{
    Catalogue, Committed, Marks, NoMemory, Rec, TxnNo, find_committed, find_links, order_of,
};
use std::alloc::Global;

/// The serial order of what was committed: again and again the transaction with the least
/// timestamp among those whose predecessors all stand before.
///
/// O((r + u log n) log r) for r records and n committed transactions with u fragments read in all:
/// two transactions are not compared where others stand between them in a class or among the
/// writers of a fragment.
pub fn serial_order(
    alloc: Global,
    catalogue: &Catalogue,
    history: &[(u32, Rec)],
) -> Result<Vec<TxnNo>, NoMemory>
    requires orderable { IsOrderable catalogue.now history.now }
    ensures order { IfOk result (λ order. order.items ≡ serial_order catalogue.now history.now) }
    ensures serial { IfOk result (λ order. IsSerial catalogue.now history.now order.items) }
{
    let marks = Marks::of(alloc, history)?;
    let txns = by_time(alloc, history)?;
    let links = find_links(alloc, catalogue, &marks, &txns)?;
    let order = order_of(alloc, &links, txns.len())?;
    numbers_at(alloc, &txns, &order)
}

/// The committed transactions in the order of their timestamps.
fn by_time<'a>(alloc: Global, history: &'a [(u32, Rec)]) -> Result<Vec<Committed<'a>>, NoMemory>
    ensures permutation { IfOk result (λ txns. IsPermutation (committed history.now) txns.items) }
    ensures sorted { IfOk result (λ txns. IsNonDecreasingBy (λ t. t.start.ts) txns.items) }
{
    let mut txns = find_committed(alloc, history)?;
    txns.sort_by_key(|txn| txn.time())?;
    Ok(txns)
}

/// The numbers of the transactions at these places.
fn numbers_at(
    alloc: Global,
    txns: &[Committed<'_>],
    places: &[usize],
) -> Result<Vec<TxnNo>, NoMemory>
    ensures { IfOk result (λ made. made.items ≡ numbers_at txns.now places.now) }
{
    let mut made = Vec::new(alloc);
    for place in places {
        if let Some(number) = number_at(txns, *place) {
            made.push(number)?;
        }
    }
    Ok(made)
}

fn number_at(txns: &[Committed<'_>], place: usize) -> Option<TxnNo>
    ensures { result ≡ option_map (λ t. txn_no t.start.txn) (slice_get txns.now place) }
{
    match txns.get(place) {
        Some(txn) => Some(txn.number()),
        None => None,
    }
}
