//! Writing the lines of a workload.
ghost use Rattle.std.specs.Prelude.{◌≡◌, ◌++◌, ◌∷◌, [], List, codes, flat_map, OnOk, IfOk};
ghost use Rattle.sdd_lang.specs.All.{Event, RelNo, Value};
ghost use Rattle.sdd_lang.specs.declared.statement.Stmt.{Stmt};
ghost use Rattle.sdd_lang.specs.declared.transaction.Txn.{Txn};
ghost use Rattle.sdd_words.specs.Words.{line_bytes, more_bytes, Plain};
ghost use Rattle.sdd_script.specs.Spelling.{ended, start_words, row_words, query_words, update_words, delete_words, site_word, count_word, statement_words, header_words, done_words, end_words, txn_lines, txn_bytes, name_of_txn, event_words, spelling};

use crate::workload::Workload;
use crate::write_lists::put_lists;
use crate::write_words::{
    put_assigns, put_columns, put_conditions, put_count_word, put_plain, put_relation,
    put_relations, put_row, put_site,
};
use sdd_lang::{
    Assign, Catalogue, Condition, DmNo, Event, NoMemory, Ref, RelNo, Row, Site, Stmt, TmNo, Txn,
    Value,
};
use sdd_words::put;
use std::alloc::Global;

fn put_start(out: &mut Vec<u8>, catalogue: &Catalogue, row: &(RelNo, Row)) -> Result<(), NoMemory>
    ensures { OnOk result (out.new.items ≡ out.old.items ++ ended (start_words catalogue.now row.now)) }
{
    put(out, b"row")?;
    put_row(out, catalogue, row.0, row.1.as_slice())?;
    put(out, b"\n")
}

#[tactic(auto, using(crate::proofs::Lists::written))]
fn put_starts(
    out: &mut Vec<u8>,
    catalogue: &Catalogue,
    rows: &[(RelNo, Row)],
) -> Result<(), NoMemory>
    ensures { OnOk result (
        out.new.items ≡ out.old.items
        ++ flat_map (λ (r : RelNo × List Value). ended (start_words catalogue.now r)) rows.now
        ) }
{
    'rows: for row in rows {
        put_start(out, catalogue, row)?;
    }
    Ok(())
}

#[tactic(auto, using(crate::proofs::Pieces::keyed))]
fn put_put(
    out: &mut Vec<u8>,
    catalogue: &Catalogue,
    rel: RelNo,
    row: &[Value],
) -> Result<(), NoMemory>
    ensures { OnOk result (
        out.new.items ≡ out.old.items
        ++ line_bytes (Plain (codes "put") ∷ row_words catalogue.now rel row.now)
        ) }
{
    put(out, b"put")?;
    put_row(out, catalogue, rel, row)
}

fn put_query(
    out: &mut Vec<u8>,
    catalogue: &Catalogue,
    columns: &[Ref],
    rels: &[RelNo],
    conds: &[Condition],
) -> Result<(), NoMemory>
    ensures { OnOk result (
        out.new.items ≡ out.old.items
        ++ line_bytes (query_words catalogue.now columns.now rels.now conds.now)
        ) }
{
    put(out, b"query")?;
    put_columns(out, catalogue, rels, columns)?;
    put_plain(out, b"from")?;
    put_relations(out, catalogue, rels)?;
    put_conditions(out, catalogue, rels, conds)?;
    Ok(())
}

fn put_update(
    out: &mut Vec<u8>,
    catalogue: &Catalogue,
    rel: RelNo,
    sets: &[Assign],
    conds: &[Condition],
) -> Result<(), NoMemory>
    ensures { OnOk result (
        out.new.items ≡ out.old.items
        ++ line_bytes (update_words catalogue.now rel sets.now conds.now)
        ) }
{
    put(out, b"update")?;
    put_relation(out, catalogue, rel)?;
    put_plain(out, b"set")?;
    put_assigns(out, catalogue, rel, sets)?;
    put_conditions(out, catalogue, &[rel], conds)?;
    Ok(())
}

#[tactic(auto, using(crate::proofs::Pieces::delete_pieces))]
fn put_delete(
    out: &mut Vec<u8>,
    catalogue: &Catalogue,
    rel: RelNo,
    conds: &[Condition],
) -> Result<(), NoMemory>
    ensures { OnOk result (
        out.new.items ≡ out.old.items
        ++ line_bytes (delete_words catalogue.now rel conds.now)
        ) }
{
    put(out, b"delete")?;
    put_relation(out, catalogue, rel)?;
    put_conditions(out, catalogue, &[rel], conds)
}

fn put_statement_words(
    out: &mut Vec<u8>,
    catalogue: &Catalogue,
    statement: &Stmt,
) -> Result<(), NoMemory>
    ensures { OnOk result (
        out.new.items ≡ out.old.items
        ++ line_bytes (statement_words catalogue.now statement.now)
        ) }
{
    match statement {
        Stmt::Put { rel, row } => put_put(out, catalogue, *rel, row.as_slice()),
        Stmt::Query {
            out: columns,
            rels,
            conds,
        } => put_query(
            out,
            catalogue,
            columns.as_slice(),
            rels.as_slice(),
            conds.as_slice(),
        ),
        Stmt::Update { rel, sets, conds } => {
            put_update(out, catalogue, *rel, sets.as_slice(), conds.as_slice())
        }
        Stmt::Delete { rel, conds } => put_delete(out, catalogue, *rel, conds.as_slice()),
    }
}

fn put_statement(out: &mut Vec<u8>, catalogue: &Catalogue, statement: &Stmt) -> Result<(), NoMemory>
    ensures { OnOk result (out.new.items ≡ out.old.items ++ ended (statement_words catalogue.now statement.now)) }
{
    put_statement_words(out, catalogue, statement)?;
    put(out, b"\n")
}

#[tactic(auto, using(crate::proofs::Lists::written))]
fn put_statements(
    out: &mut Vec<u8>,
    catalogue: &Catalogue,
    statements: &[Stmt],
) -> Result<(), NoMemory>
    ensures { OnOk result (
        out.new.items ≡ out.old.items
        ++ flat_map (λ (s : Stmt). ended (statement_words catalogue.now s)) statements.now
        ) }
{
    'statements: for statement in statements {
        put_statement(out, catalogue, statement)?;
    }
    Ok(())
}

fn put_header(out: &mut Vec<u8>, name: &[u8], tm: TmNo) -> Result<(), NoMemory>
    ensures { OnOk result (out.new.items ≡ out.old.items ++ ended (header_words name.now tm)) }
{
    put(out, b"txn")?;
    put_plain(out, name)?;
    put_site(out, Site::T(tm))?;
    put(out, b"\n")
}

fn put_txn(out: &mut Vec<u8>, catalogue: &Catalogue, txn: &Txn) -> Result<(), NoMemory>
    ensures { OnOk result (out.new.items ≡ out.old.items ++ txn_bytes catalogue.now txn.now) }
{
    put_header(out, txn.name.as_str().as_bytes(), txn.tm)?;
    put_statements(out, catalogue, txn.statements.as_slice())?;
    put(out, b"done\n")?;
    Ok(())
}

#[tactic(auto, using(crate::proofs::Lists::written))]
fn put_txns(out: &mut Vec<u8>, catalogue: &Catalogue, txns: &[Txn]) -> Result<(), NoMemory>
    ensures { OnOk result (out.new.items ≡ out.old.items ++ flat_map (txn_bytes catalogue.now) txns.now) }
{
    'txns: for txn in txns {
        put_txn(out, catalogue, txn)?;
    }
    Ok(())
}

fn name_of_txn(txns: &[Txn], txn: u32) -> &[u8]
    ensures { result.now ≡ name_of_txn txns.now txn }
{
    match txns.get((txn as usize).saturating_sub(1)) {
        Some(txn) => txn.name.as_str().as_bytes(),
        None => &[],
    }
}

#[tactic(auto, using(crate::proofs::Pieces::three_words))]
fn put_place(out: &mut Vec<u8>, from: Site, to: Site, place: u32) -> Result<(), NoMemory>
    ensures { OnOk result (
        out.new.items ≡ out.old.items
        ++ more_bytes (site_word from ∷ site_word to ∷ count_word place ∷ [])
        ) }
{
    put_site(out, from)?;
    put_site(out, to)?;
    put_count_word(out, place)
}

#[tactic(auto, using(crate::proofs::Pieces::keyed))]
fn put_flight(
    out: &mut Vec<u8>,
    key: &[u8],
    from: Site,
    to: Site,
    place: u32,
) -> Result<(), NoMemory>
    ensures { OnOk result (
        out.new.items ≡ out.old.items
        ++ line_bytes
        (Plain key.now ∷ site_word from ∷ site_word to ∷ count_word place ∷ [])
        ) }
{
    put(out, key)?;
    put_place(out, from, to, place)
}

#[tactic(auto, using(crate::proofs::Pieces::key_one))]
fn put_submit(out: &mut Vec<u8>, name: &[u8]) -> Result<(), NoMemory>
    ensures { OnOk result (
        out.new.items ≡ out.old.items
        ++ line_bytes (Plain (codes "submit") ∷ Plain name.now ∷ [])
        ) }
{
    put(out, b"submit")?;
    put_plain(out, name)
}

#[tactic(auto, using(crate::proofs::Pieces::key_two))]
fn put_resend(out: &mut Vec<u8>, from: Site, to: Site) -> Result<(), NoMemory>
    ensures { OnOk result (
        out.new.items ≡ out.old.items
        ++ line_bytes (Plain (codes "resend") ∷ site_word from ∷ site_word to ∷ [])
        ) }
{
    put(out, b"resend")?;
    put_site(out, from)?;
    put_site(out, to)
}

#[tactic(auto, using(crate::proofs::Pieces::key_two))]
fn put_tick(out: &mut Vec<u8>, tm: TmNo, n: u32) -> Result<(), NoMemory>
    ensures { OnOk result (
        out.new.items ≡ out.old.items
        ++ line_bytes (Plain (codes "tick") ∷ site_word (Site.T tm) ∷ count_word n ∷ [])
        ) }
{
    put(out, b"tick")?;
    put_site(out, Site::T(tm))?;
    put_count_word(out, n)
}

#[tactic(auto, using(crate::proofs::Pieces::key_one))]
fn put_module(out: &mut Vec<u8>, key: &[u8], at: Site) -> Result<(), NoMemory>
    ensures { OnOk result (
        out.new.items ≡ out.old.items ++ line_bytes (Plain key.now ∷ site_word at ∷ [])
        ) }
{
    put(out, key)?;
    put_site(out, at)
}

fn put_event_words(out: &mut Vec<u8>, txns: &[Txn], event: Event) -> Result<(), NoMemory>
    ensures { OnOk result (out.new.items ≡ out.old.items ++ line_bytes (event_words txns.now event)) }
{
    match event {
        Event::Submit(txn) => put_submit(out, name_of_txn(txns, txn.0)),
        Event::Deliver { from, to, place } => put_flight(out, b"deliver", from, to, place),
        Event::Lose { from, to, place } => put_flight(out, b"lose", from, to, place),
        Event::Repeat { from, to, place } => put_flight(out, b"repeat", from, to, place),
        Event::Resend { from, to } => put_resend(out, from, to),
        Event::Tick { tm, n } => put_tick(out, tm, n),
        Event::Settle => put(out, b"settle"),
        Event::Redeclare => put(out, b"redeclare"),
        Event::Down(at) => put_module(out, b"down", at),
        Event::Up(at) => put_module(out, b"up", at),
    }
}

fn put_event(out: &mut Vec<u8>, txns: &[Txn], event: Event) -> Result<(), NoMemory>
    ensures { OnOk result (out.new.items ≡ out.old.items ++ ended (event_words txns.now event)) }
{
    put_event_words(out, txns, event)?;
    put(out, b"\n")
}

#[tactic(auto, using(crate::proofs::Lists::written))]
fn put_events(out: &mut Vec<u8>, txns: &[Txn], events: &[Event]) -> Result<(), NoMemory>
    ensures { OnOk result (
        out.new.items ≡ out.old.items
        ++ flat_map (λ (e : Event). ended (event_words txns.now e)) events.now
        ) }
{
    'events: for event in events {
        put_event(out, txns, *event)?;
    }
    Ok(())
}

/// The one spelling of a workload: its rows, transactions, class lists and events, each on its lines, and `end`.
/// What its numbers don't name in the catalogue has an empty name.
///
/// Costs time and memory linear in the spelling.
pub fn write_workload(
    alloc: Global,
    catalogue: &Catalogue,
    work: &Workload,
) -> Result<Vec<u8>, NoMemory>
    ensures { IfOk result (λ v. v.items ≡ spelling catalogue.now work.now) }
{
    let mut out = Vec::new(alloc);
    put_starts(&mut out, catalogue, work.rows.as_slice())?;
    put_txns(&mut out, catalogue, work.txns.as_slice())?;
    put_lists(&mut out, work.lists.as_slice())?;
    put_events(&mut out, work.txns.as_slice(), work.events.as_slice())?;
    put(&mut out, b"end\n")?;
    Ok(out)
}
