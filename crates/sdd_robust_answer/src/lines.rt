//! The answers, with a run or a pivot by the names of transactions.
ghost use Rattle.std.specs.Prelude.{◌≡◌, ◌<◌, ◌++◌, IfOk, OnOk, length};
ghost use Rattle.sdd_robust_answer.specs.Answers.{name_at, named_line, not_robust_text, robust_text, run_lines, unknown_text};
ghost use Rattle.sdd_short_runs.specs.ShortRuns.{lent_txns};

use sdd_lang::{NoMemory, Txn};
use sdd_robust::Places;
use sdd_short_runs::ShortRun;
use sdd_words::put;
use std::alloc::Global;

/// The answer that the transactions are robust.
pub(crate) fn robust(alloc: Global) -> Result<Vec<u8>, NoMemory>
    ensures { IfOk result (λ text. text.items ≡ robust_text) }
{
    let mut out = Vec::new(alloc);
    put(&mut out, b"snapshot isolation: robust\n")?;
    Ok(out)
}

/// A line of a word and a transaction's name.
fn put_line(out: &mut Vec<u8>, word: &[u8], txn: &Txn) -> Result<(), NoMemory>
    ensures { OnOk result (out.new.items ≡ out.old.items ++ named_line word.now txn.now) }
{
    put(out, word)?;
    put(out, txn.name.as_str().as_bytes())?;
    put(out, b"\n")
}

/// A line for each transaction that runs.
fn put_runs(out: &mut Vec<u8>, txns: &[&Txn]) -> Result<(), NoMemory>
    ensures { OnOk result (out.new.items ≡ out.old.items ++ run_lines (lent_txns txns.now)) }
{
    'txns: for txn in txns {
        put_line(out, b"run ", *txn)?;
    }
    Ok(())
}

/// The answer with a run that is like no serial one.
pub(crate) fn not_robust(alloc: Global, short: &ShortRun) -> Result<Vec<u8>, NoMemory>
    ensures { IfOk result (λ text. text.items ≡ not_robust_text short.now.outer.now (lent_txns short.now.inner.items)) }
{
    let mut out = Vec::new(alloc);
    put(&mut out, b"snapshot isolation: not robust\n")?;
    put_line(&mut out, b"begin ", short.outer)?;
    put_runs(&mut out, short.inner.as_slice())?;
    put_line(&mut out, b"end ", short.outer)?;
    Ok(out)
}

/// The name of the transaction at a place.
fn put_name(out: &mut Vec<u8>, txns: &[Txn], place: usize) -> Result<(), NoMemory>
    requires { place < length txns.now }
    ensures { OnOk result (out.new.items ≡ out.old.items ++ name_at txns.now place) }
{
    put(out, txns[place].name.as_str().as_bytes())
}

/// The answer with a pivot.
pub(crate) fn unknown(alloc: Global, txns: &[Txn], places: Places) -> Result<Vec<u8>, NoMemory>
    requires pivot { places.pivot < length txns.now }
    requires missed { places.missed < length txns.now }
    requires missing { places.missing < length txns.now }
    ensures { IfOk result (λ text. text.items ≡ unknown_text txns.now places) }
{
    let mut out = Vec::new(alloc);
    put(&mut out, b"snapshot isolation: unknown\npivot ")?;
    put_name(&mut out, txns, places.pivot)?;
    put(&mut out, b" reads what ")?;
    put_name(&mut out, txns, places.missed)?;
    put(&mut out, b" changes, and changes what ")?;
    put_name(&mut out, txns, places.missing)?;
    put(&mut out, b" reads\n")?;
    Ok(out)
}
