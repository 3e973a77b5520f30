//! The order, and what the Commits of its transactions record.
ghost use Rattle.std.specs.Prelude.{ℕ, ◌≡◌, ◌++◌, flat_map, IfOk, OnOk, MatchOption, Some, None};
ghost use Rattle.std.specs.BTreeMap.{get};
ghost use Rattle.std.specs.Ordering.{nat_cmp};
ghost use Rattle.sdd_report.specs.Committed as definitions;
ghost use Rattle.sdd_report.specs.Names.{spaced};
ghost use Rattle.sdd_report.specs.Committed.{reported_in, reported_of, names_of, order_line, reply_of, numbers_end, shipped_line, shipped_of};
ghost use Rattle.sdd_report.specs.Replies.{reply_lines};

use crate::names::txn_name;
use crate::words::{put_large_number, put_txn, put_word};
use sdd_history::{PrintedReply, Rec};
use sdd_lang::{NoMemory, Pages, Txn, TxnNo};
use sdd_words::put;
use std::alloc::Global;
use std::collections::BTreeMap;
use std::marker::Model;

/// What the Commit of a transaction tells.
#[derive(Drop)]
pub struct ReportedCommit<'a> {
    txn: u32,
    reply: &'a PrintedReply,
    values: u128,
    rows: u128,
}

impl<'a> Model for ReportedCommit<'a> {
    ghost Value = { definitions.ReportedCommit };

    ghost view = { λ t. record { txn = t.txn; reply = t.reply.now; values = t.values; rows = t.rows } };
}

/// A history, with the first Commits of its transactions laid out for quick answers.
#[derive(Drop)]
pub struct Commits<'a> {
    history: &'a [(u32, Rec)],
    reported: BTreeMap<u32, ReportedCommit<'a>>,
}

impl<'a> Model for Commits<'a> {
    ghost use Rattle.std.specs.Prelude.{ℕ, ◌≡◌, List};
    ghost use Rattle.std.specs.BTreeMap.{get};
    ghost use Rattle.std.specs.Ordering.{nat_cmp};
    ghost use Rattle.sdd_history.specs.declared.record.Rec.{Rec as Record};
    ghost use Rattle.sdd_report.specs.Committed.{reported_of};

    ghost Value = { List (ℕ × Record) };

    ghost view = { λ c. c.history.now };

    ghost invariant = { λ c. (n : ℕ) → get nat_cmp c.reported n ≡ reported_of c.history.now n };
}

fn reported_in<'a>(rec: &'a Rec) -> Option<ReportedCommit<'a>>
    ensures { result ≡ reported_in rec.now }
{
    match rec {
        Rec::Commit {
            txn,
            reply,
            values,
            rows,
            ..
        } => Some(ReportedCommit {
            txn: txn.0,
            reply,
            values: *values,
            rows: *rows,
        }),
        _ => None,
    }
}

/// What the first Commit of each transaction tells.
fn first_commits<'a>(
    alloc: Global,
    history: &'a [(u32, Rec)],
) -> Result<BTreeMap<u32, ReportedCommit<'a>>, NoMemory>
    ensures { IfOk result (λ made. (n : ℕ) → get nat_cmp made n ≡ reported_of history.now n) }
{
    let mut made = BTreeMap::new(alloc);
    'history: for one in history {
        if let Some(reported) = reported_in(&one.1) {
            let key = reported.txn;
            if !made.contains_key(&key) {
                made.insert(key, reported)?;
            }
        }
    }
    Ok(made)
}

impl<'a> Commits<'a> {
    /// O(r log t) for r records of t transactions.
    pub fn of(alloc: Global, history: &'a [(u32, Rec)]) -> Result<Commits<'a>, NoMemory>
        ensures { IfOk result (λ made. made ≡ history.now) }
    {
        let reported = first_commits(alloc, history)?;
        Ok(Commits { history, reported })
    }

    /// What the first Commit of a transaction tells.
    fn first_commit(&self, txn: TxnNo) -> Option<&ReportedCommit<'a>>
        ensures { MatchOption result
            (reported_of self.now txn.0 ≡ None)
            (λ t. reported_of self.now txn.0 ≡ Some t.now) }
    {
        let _ = &self.history;
        self.reported.get(&txn.0)
    }
}

/// The names of transactions, each after a space.
fn put_names(out: &mut Vec<u8>, txns: &[Txn], order: &[TxnNo]) -> Result<(), NoMemory>
    ensures { OnOk result (out.new.items
        ≡ out.old.items ++ flat_map spaced (names_of txns.now order.now)) }
{
    'order: for txn in order {
        put_txn(out, txns, *txn)?;
    }
    Ok(())
}

/// The line of the order.
pub fn put_order(out: &mut Vec<u8>, txns: &[Txn], order: &[TxnNo]) -> Result<(), NoMemory>
    ensures { OnOk result (out.new.items ≡ out.old.items ++ order_line txns.now order.now) }
{
    put(out, b"order")?;
    put_names(out, txns, order)?;
    put(out, b"\n")
}

fn add_reply(out: &mut Pages, name: &[u8], reply: &PrintedReply) -> Result<(), NoMemory>
    ensures { OnOk result (out.new ≡ out.old ++ reply_lines name.now reply.now) }
{
    out.put(b"reply ")?;
    out.put(name)?;
    out.share(reply.lines())
}

fn add_reply_of(
    out: &mut Pages,
    txns: &[Txn],
    commits: &Commits,
    txn: TxnNo,
) -> Result<(), NoMemory>
    ensures { OnOk result (out.new ≡ out.old ++ reply_of txns.now commits.now txn) }
{
    match commits.first_commit(txn) {
        Some(reported) => add_reply(out, txn_name(txns, txn), reported.reply),
        None => Ok(()),
    }
}

/// The replies, along the order.
#[tactic(auto, using(crate::proofs::Lists::written))]
pub fn add_replies(
    out: &mut Pages,
    txns: &[Txn],
    commits: &Commits,
    order: &[TxnNo],
) -> Result<(), NoMemory>
    ensures { OnOk result (
        out.new ≡ out.old ++ flat_map (reply_of txns.now commits.now) order.now) }
{
    'order: for txn in order {
        add_reply_of(out, txns, commits, *txn)?;
    }
    Ok(())
}

/// How many values and rows were shipped, and the end of the line.
fn put_numbers(out: &mut Vec<u8>, values: u128, rows: u128) -> Result<(), NoMemory>
    ensures { OnOk result (out.new.items ≡ out.old.items ++ numbers_end values rows) }
{
    put_large_number(out, values)?;
    put_large_number(out, rows)?;
    put(out, b"\n")
}

fn put_shipped(out: &mut Vec<u8>, name: &[u8], reported: &ReportedCommit) -> Result<(), NoMemory>
    ensures { OnOk result (out.new.items ≡ out.old.items ++ shipped_line name.now reported.now) }
{
    put(out, b"shipped")?;
    put_word(out, name)?;
    put_numbers(out, reported.values, reported.rows)
}

fn put_shipped_of(
    out: &mut Vec<u8>,
    txns: &[Txn],
    commits: &Commits,
    txn: TxnNo,
) -> Result<(), NoMemory>
    ensures { OnOk result (out.new.items ≡ out.old.items ++ shipped_of txns.now commits.now txn) }
{
    match commits.first_commit(txn) {
        Some(reported) => put_shipped(out, txn_name(txns, txn), reported),
        None => Ok(()),
    }
}

/// What was shipped, along the order.
#[tactic(auto, using(crate::proofs::Lists::written))]
pub fn put_all_shipped(
    out: &mut Vec<u8>,
    txns: &[Txn],
    commits: &Commits,
    order: &[TxnNo],
) -> Result<(), NoMemory>
    ensures { OnOk result (out.new.items ≡ out.old.items ++ flat_map (shipped_of txns.now commits.now) order.now) }
{
    'order: for txn in order {
        put_shipped_of(out, txns, commits, *txn)?;
    }
    Ok(())
}
