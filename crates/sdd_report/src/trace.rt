//! The lines of records.
ghost use Rattle.std.specs.Prelude.{◌≡◌, [], ◌∷◌, ◌++◌, OnOk};
ghost use Rattle.sdd_report.specs.Names.{spaced, class_time};
ghost use Rattle.sdd_report.specs.Trace.{of_submit, of_attempt, of_visit, of_apply, of_pass, time_word, cond_words, record_words, trace_line, trace};

use crate::words::{
    put_attempt, put_class, put_class_time, put_module, put_number, put_txn, put_word,
};
use sdd_history::Rec;
use sdd_lang::{Catalogue, ClassNo, Cond, DmNo, NoMemory, Ts, Txn, TxnNo};
use sdd_words::{put, put_count};

/// A word, and the attempt to which it happens.
fn put_of_attempt(
    out: &mut Vec<u8>,
    word: &[u8],
    txns: &[Txn],
    txn: TxnNo,
    attempt: u64,
) -> Result<(), NoMemory>
    ensures { OnOk result (out.new.items ≡ out.old.items ++ of_attempt word.now txns.now txn.0 attempt) }
{
    put(out, word)?;
    put_attempt(out, txns, txn, attempt)
}

/// A word, the attempt to which it happens, and the data module where it does.
fn put_of_visit(
    out: &mut Vec<u8>,
    word: &[u8],
    txns: &[Txn],
    txn: TxnNo,
    attempt: u64,
    dm: DmNo,
) -> Result<(), NoMemory>
    ensures { OnOk result (out.new.items ≡ out.old.items ++ of_visit word.now txns.now txn.0 attempt dm.0) }
{
    put_of_attempt(out, word, txns, txn, attempt)?;
    put_module(out, dm)
}

/// The time up to which protocol P2 asks, `-` for none.
fn put_time(out: &mut Vec<u8>, time: Option<Ts>) -> Result<(), NoMemory>
    ensures { OnOk result (out.new.items ≡ out.old.items ++ spaced (time_word time)) }
{
    match time {
        Some(time) => put_number(out, time.0),
        None => put_word(out, b"-"),
    }
}

/// The class of an attempt, its timestamp, and the time up to which protocol P2 asks.
fn put_start_times(
    out: &mut Vec<u8>,
    catalogue: &Catalogue,
    class: ClassNo,
    ts: Ts,
    p2: Option<Ts>,
) -> Result<(), NoMemory>
    ensures { OnOk result (
        out.new.items
        ≡ out.old.items ++ (class_time catalogue.now class.0 ts.0 ++ spaced (time_word p2))) }
{
    put_class_time(out, catalogue, class, ts)?;
    put_time(out, p2)
}

fn put_cond(out: &mut Vec<u8>, catalogue: &Catalogue, cond: &Cond) -> Result<(), NoMemory>
    ensures { OnOk result (
        out.new.items
        ≡ out.old.items ++ class_time catalogue.now cond.now.class.0 cond.now.time.0) }
{
    put_class_time(out, catalogue, cond.class, cond.time)
}

#[tactic(auto, using(crate::proofs::Lists::written))]
fn put_conds(out: &mut Vec<u8>, catalogue: &Catalogue, conds: &[Cond]) -> Result<(), NoMemory>
    ensures { OnOk result (out.new.items ≡ out.old.items ++ cond_words catalogue.now conds.now) }
{
    'conds: for cond in conds {
        put_cond(out, catalogue, cond)?;
    }
    Ok(())
}

fn put_submit(out: &mut Vec<u8>, txns: &[Txn], txn: TxnNo) -> Result<(), NoMemory>
    ensures { OnOk result (out.new.items ≡ out.old.items ++ of_submit txns.now txn.0) }
{
    put(out, b"submit")?;
    put_txn(out, txns, txn)
}

fn put_apply(out: &mut Vec<u8>, txns: &[Txn], txn: TxnNo, dm: DmNo) -> Result<(), NoMemory>
    ensures { OnOk result (out.new.items ≡ out.old.items ++ of_apply txns.now txn.0 dm.0) }
{
    put(out, b"apply")?;
    put_txn(out, txns, txn)?;
    put_module(out, dm)
}

fn put_pass(
    out: &mut Vec<u8>,
    catalogue: &Catalogue,
    class: ClassNo,
    dm: DmNo,
    time: Ts,
) -> Result<(), NoMemory>
    ensures { OnOk result (out.new.items ≡ out.old.items ++ of_pass catalogue.now class.0 dm.0 time.0) }
{
    put(out, b"pass")?;
    put_class(out, catalogue, class)?;
    put_module(out, dm)?;
    put_number(out, time.0)
}

fn put_record(
    out: &mut Vec<u8>,
    catalogue: &Catalogue,
    txns: &[Txn],
    rec: &Rec,
) -> Result<(), NoMemory>
    ensures { OnOk result (out.new.items ≡ out.old.items ++ record_words catalogue.now txns.now rec.now) }
{
    match rec {
        Rec::Submit(txn) => put_submit(out, txns, *txn),
        Rec::Start {
            txn,
            attempt,
            class,
            ts,
            p2,
            ..
        } => {
            put_of_attempt(out, b"start", txns, *txn, *attempt)?;
            put_start_times(out, catalogue, *class, *ts, *p2)
        }
        Rec::Arrive { txn, attempt, dm } => {
            put_of_visit(out, b"arrive", txns, *txn, *attempt, *dm)
        }
        Rec::Wait {
            txn,
            attempt,
            dm,
            conds,
        } => {
            put_of_visit(out, b"wait", txns, *txn, *attempt, *dm)?;
            put_conds(out, catalogue, conds.as_slice())
        }
        Rec::Answer { txn, attempt, dm } => {
            put_of_visit(out, b"answer", txns, *txn, *attempt, *dm)
        }
        Rec::Reject {
            txn,
            attempt,
            dm,
            class,
            ts,
        } => {
            put_of_visit(out, b"reject", txns, *txn, *attempt, *dm)?;
            put_class_time(out, catalogue, *class, *ts)
        }
        Rec::Commit { txn, attempt, .. } => put_of_attempt(out, b"commit", txns, *txn, *attempt),
        Rec::Apply { txn, dm, .. } => put_apply(out, txns, *txn, *dm),
        Rec::Pass { class, dm, time } => put_pass(out, catalogue, *class, *dm, *time),
        Rec::Nothing => put(out, b"nothing"),
    }
}

/// A record after a space, and the end of its line.
fn put_record_end(
    out: &mut Vec<u8>,
    catalogue: &Catalogue,
    txns: &[Txn],
    rec: &Rec,
) -> Result<(), NoMemory>
    ensures { OnOk result (
        out.new.items
        ≡ out.old.items ++ (spaced (record_words catalogue.now txns.now rec.now) ++ 10 ∷ [])) }
{
    put(out, b" ")?;
    put_record(out, catalogue, txns, rec)?;
    put(out, b"\n")
}

fn put_line(
    out: &mut Vec<u8>,
    catalogue: &Catalogue,
    txns: &[Txn],
    made: &(u32, Rec),
) -> Result<(), NoMemory>
    ensures { OnOk result (out.new.items ≡ out.old.items ++ trace_line catalogue.now txns.now made.now) }
{
    put_count(out, u64::from(made.0))?;
    put_record_end(out, catalogue, txns, &made.1)
}

/// The lines of the records, each after the number of its event.
#[tactic(auto, using(crate::proofs::Lists::written))]
pub fn put_trace(
    out: &mut Vec<u8>,
    catalogue: &Catalogue,
    txns: &[Txn],
    history: &[(u32, Rec)],
) -> Result<(), NoMemory>
    ensures { OnOk result (out.new.items ≡ out.old.items ++ trace catalogue.now txns.now history.now) }
{
    'history: for made in history {
        put_line(out, catalogue, txns, made)?;
    }
    Ok(())
}
