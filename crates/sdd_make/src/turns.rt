//! The made workload, turn by turn.
ghost use Rattle.std.specs.Prelude.{◌≡◌, ◌≤◌, ◌++◌, ◌∷◌, [], map, OnOk, IfOk};
ghost use Rattle.std.specs.List.{range_with_len};
ghost use Rattle.sdd_script.specs.All.{MAX_TXNS};
ghost use Rattle.sdd_make.specs.Turns.{account_row, accounts, arrival, delivery, deliveries, drawn_txn, drawn_events, turn, turns_of, txns_of, events_of, workload_of};

use crate::naming::text;
use crate::random::Random;
use crate::statements::txn_of;
use sdd_script::{
    ClassLists, DmNo, Event, Events, NoMemory, RelNo, Row, Site, StartRows, TmNo, Txn, TxnNo, Txns,
    Value, Workload,
};
use std::alloc::Global;

/// An account with its owner and its balance.
fn account_row(alloc: Global, id: u32) -> Result<(RelNo, Row), NoMemory>
    ensures { IfOk result (λ row. row ≡ account_row id) }
{
    let owner = Value::Text(text(alloc, "o")?);
    let values = vec![in alloc; Value::Int(i64::from(id)), owner, Value::Int(100)]?;
    Ok((RelNo(1), Row::from_vec(values)?))
}

/// Ten accounts.
fn add_accounts(alloc: Global, rows: &mut Vec<(RelNo, Row)>, first: u32) -> Result<(), NoMemory>
    requires { first ≤ 1000 }
    ensures { OnOk result (rows.new.items ≡ rows.old.items ++ map account_row (range_with_len first 10)) }
{
    'rows: for i in 0..10 {
        rows.push(account_row(alloc, first + i)?)?;
    }
    Ok(())
}

fn accounts(alloc: Global) -> Result<StartRows, NoMemory>
    ensures { IfOk result (λ rows. rows ≡ accounts) }
{
    let mut rows = Vec::new(alloc);
    add_accounts(alloc, &mut rows, 0)?;
    add_accounts(alloc, &mut rows, 1000)?;
    Ok(StartRows::from_vec(rows))
}

/// The first packet of a flight arrives.
fn arrival(from: Site, to: Site) -> Event
    ensures { result ≡ arrival from to }
{
    Event::Deliver { from, to, place: 1 }
}

/// The delivery that stands for a number below 18.
fn delivery(k: u32) -> Event
    ensures { result ≡ delivery k }
{
    let t = Site::T(TmNo((k % 9 / 3 + 1) as u8));
    let d = Site::D(DmNo((k % 3 + 1) as u8));
    if k < 9 { arrival(t, d) } else { arrival(d, t) }
}

fn add_deliveries(random: &mut Random, events: &mut Vec<Event>, count: u32) -> Result<(), NoMemory>
    ensures random { OnOk result (random.new ≡ (deliveries count random.old).1) }
    ensures events { OnOk result (events.new.items ≡ events.old.items ++ (deliveries count random.old).0) }
{
    'deliveries: for _ in 0..count {
        let k = random.draw(18);
        events.push(delivery(k))?;
    }
    Ok(())
}

/// Adds a transaction.
fn add_txn(alloc: Global, random: &mut Random, txns: &mut Vec<Txn>, i: u32) -> Result<(), NoMemory>
    ensures random { OnOk result (random.new ≡ (drawn_txn i random.old).1) }
    ensures txns { OnOk result (txns.new.items ≡ txns.old.items ++ (drawn_txn i random.old).0 ∷ []) }
{
    let kind = random.draw(4);
    let a = random.draw(10);
    let b = random.draw(10);
    txns.push(txn_of(alloc, i, kind, a, b)?)?;
    Ok(())
}

/// Adds the events of a transaction's turn.
fn add_events(random: &mut Random, events: &mut Vec<Event>, i: u32) -> Result<(), NoMemory>
    ensures random { OnOk result (random.new ≡ (drawn_events i random.old).1) }
    ensures events { OnOk result (events.new.items ≡ events.old.items ++ (drawn_events i random.old).0) }
{
    events.push(Event::Submit(TxnNo(i)))?;
    let count = random.draw(4);
    add_deliveries(random, events, count)
}

/// Adds a transaction, and the events of its turn.
fn add_turn(
    alloc: Global,
    random: &mut Random,
    txns: &mut Vec<Txn>,
    events: &mut Vec<Event>,
    i: u32,
) -> Result<(), NoMemory>
    ensures random { OnOk result (random.new ≡ (turn i random.old).1) }
    ensures txns { OnOk result (txns.new.items ≡ txns.old.items ++ (turn i random.old).0.txn ∷ []) }
    ensures events { OnOk result (events.new.items ≡ events.old.items ++ (turn i random.old).0.events) }
{
    add_txn(alloc, random, txns, i)?;
    add_events(random, events, i)
}

/// Adds n turns, from number 1 on.
fn add_turns(
    alloc: Global,
    random: &mut Random,
    txns: &mut Vec<Txn>,
    events: &mut Vec<Event>,
    n: u32,
) -> Result<(), NoMemory>
    requires { n ≤ MAX_TXNS }
    ensures txns { OnOk result (txns.new.items ≡ txns.old.items ++ txns_of (turns_of random.old n)) }
    ensures events { OnOk result (events.new.items ≡ events.old.items ++ events_of (turns_of random.old n)) }
{
    'turns: for i in 0..n {
        add_turn(alloc, random, txns, events, i + 1)?;
    }
    Ok(())
}

/// The workload of the bank that is made from a seed, with n transactions.
///
/// Costs time and memory linear in n.
pub fn workload(alloc: Global, seed: u32, n: u32) -> Result<Workload, NoMemory>
    requires { n ≤ MAX_TXNS }
    ensures { IfOk result (λ work. work ≡ workload_of seed n) }
{
    let rows = accounts(alloc)?;
    let mut random = Random::new(seed);
    let mut txns = Vec::new(alloc);
    let mut events = Vec::new(alloc);
    add_turns(alloc, &mut random, &mut txns, &mut events, n)?;
    events.push(Event::Settle)?;
    Ok(Workload {
        rows,
        txns: Txns::from_vec(txns),
        lists: ClassLists::from_vec(Vec::new(alloc)),
        events: Events::from_vec(events),
    })
}
