//! What transactions that aren't committed are waiting for.
ghost use Rattle.std.specs.Prelude.{◌≡◌, [], ◌∷◌, ◌++◌, cond, OnOk};
ghost use Rattle.std.specs.List.{best_of};
ghost use Rattle.sdd_report.specs.Names.{spaced};
ghost use Rattle.sdd_report.specs.Pending.{why_words, pending_line, pending_lines, is_lower, under_way};
ghost use Rattle.sdd_report.specs.declared.pending.Why.TheVariants.{Waits as WaitsFor};

use crate::words::{put_class_number, put_class_time, put_module, put_site, put_txn};
use sdd_lang::{Catalogue, ClassNo, DmNo, NoMemory, Site, Ts, Txn, TxnNo};
use sdd_words::put;

/// A READ that waits at a data module.
#[derive(Clone, Copy)]
pub struct Waiting {
    pub dm: DmNo,
    /// The first class of its conditions that hasn't passed there.
    pub class: ClassNo,
    /// The time that this class has to pass.
    pub time: Ts,
}

/// What a transaction that isn't committed is waiting for.
#[derive(Clone, Copy)]
pub enum Why {
    /// It isn't served yet: its class, and its place in the queue of the class, counted from 1 without
    /// the transaction that is being served.
    Queued(ClassNo, u64),
    /// The READ of its attempt waits.
    Waits(Waiting),
    /// A message of this site is missing.
    Underway(Site),
}

/// A transaction that was submitted and isn't committed.
#[derive(Clone, Copy)]
pub struct Pending {
    pub txn: TxnNo,
    pub why: Why,
}

fn lower(best: Waiting, next: Waiting) -> Waiting
    ensures { result ≡ cond (is_lower next best) next best }
{
    if next.dm.0 < best.dm.0 { next } else { best }
}

/// The one at the lowest module.
fn lowest(first: Waiting, others: &[Waiting]) -> Waiting
    ensures { result ≡ best_of is_lower first others.now }
{
    let mut best = first;
    let mut rest = others;
    'others: while let [next, more @ ..] = rest {
        best = lower(best, *next);
        rest = more;
    }
    best
}

/// What a transaction that is being served is waiting for: `site` is the lowest site whose message to
/// its attempt is missing, `waits` are the modules at which its READ waits, in any order.
///
/// Costs time in the modules, and takes no memory.
pub fn under_way(site: Site, waits: &[Waiting]) -> Why
    ensures { result ≡ under_way site waits.now }
{
    match waits {
        [] => Why::Underway(site),
        [first, others @ ..] => Why::Waits(lowest(*first, others)),
    }
}

fn put_waiting(out: &mut Vec<u8>, catalogue: &Catalogue, waiting: Waiting) -> Result<(), NoMemory>
    ensures { OnOk result (out.new.items ≡ out.old.items ++ why_words catalogue.now (WaitsFor waiting)) }
{
    put(out, b"waits")?;
    put_module(out, waiting.dm)?;
    put_class_time(out, catalogue, waiting.class, waiting.time)
}

fn put_why(out: &mut Vec<u8>, catalogue: &Catalogue, why: Why) -> Result<(), NoMemory>
    ensures { OnOk result (out.new.items ≡ out.old.items ++ why_words catalogue.now why) }
{
    match why {
        Why::Queued(class, place) => {
            put(out, b"queued")?;
            put_class_number(out, catalogue, class, place)
        }
        Why::Waits(waiting) => put_waiting(out, catalogue, waiting),
        Why::Underway(site) => {
            put(out, b"underway")?;
            put_site(out, site)
        }
    }
}

/// What is waited for, after a space, and the end of the line.
fn put_why_end(out: &mut Vec<u8>, catalogue: &Catalogue, why: Why) -> Result<(), NoMemory>
    ensures { OnOk result (out.new.items ≡ out.old.items ++ (spaced (why_words catalogue.now why) ++ 10 ∷ [])) }
{
    put(out, b" ")?;
    put_why(out, catalogue, why)?;
    put(out, b"\n")
}

fn put_line(
    out: &mut Vec<u8>,
    catalogue: &Catalogue,
    txns: &[Txn],
    pending: Pending,
) -> Result<(), NoMemory>
    ensures { OnOk result (out.new.items ≡ out.old.items ++ pending_line catalogue.now txns.now pending) }
{
    put(out, b"pending")?;
    put_txn(out, txns, pending.txn)?;
    put_why_end(out, catalogue, pending.why)
}

/// The lines of pending transactions.
#[tactic(auto, using(crate::proofs::Lists::written))]
pub fn put_pending(
    out: &mut Vec<u8>,
    catalogue: &Catalogue,
    txns: &[Txn],
    pending: &[Pending],
) -> Result<(), NoMemory>
    ensures { OnOk result (out.new.items ≡ out.old.items ++ pending_lines catalogue.now txns.now pending.now) }
{
    'pending: for one in pending {
        put_line(out, catalogue, txns, *one)?;
    }
    Ok(())
}
