//! The submitted transactions of a workload, run one after the other on one database.
ghost use Rattle.std.specs.Prelude.{◌≡◌, ◌++◌, ◌∷◌, [], List, map, flat_map, filter_map, All, IfOk, OnOk};
ghost use Rattle.sdd_lang.specs.All.{FitsStart, FitsTxn, database_of};
ghost use Rattle.sdd_script.specs.Valid.{IsValid};
ghost use Rattle.std.specs.Option.{option_copied};
ghost use Rattle.sdd_report.specs.Names.{spaced};
ghost use Rattle.sdd_commands.specs.Serially.{submitted, submitted_by, names_of, replies_of, serial_text};

use sdd_lang::{Catalogue, Event, Name, NoMemory, Txn};
use sdd_plain::Plain;
use sdd_report::put_reply;
use sdd_script::{StartRows, Workload};
use sdd_words::put;
use std::alloc::Global;

/// The transaction that an event submits.
fn submitted_by<'a>(txns: &'a [Txn], event: &Event) -> Option<&'a Txn>
    ensures { option_copied result ≡ submitted_by txns.now event.now }
{
    match event {
        Event::Submit(number) => txns.get((number.0 as usize).saturating_sub(1)),
        _ => None,
    }
}

/// Adds the transaction that an event submits, where it submits one.
fn add_submitted<'a>(
    found: &mut Vec<&'a Txn>,
    txns: &'a [Txn],
    event: &Event,
) -> Result<(), NoMemory>
    ensures { IfOk result (λ _. map (λ t. t.now) found.new.items ≡ map (λ t. t.now) found.old.items ++ filter_map (submitted_by txns.now) (event.now ∷ [])) }
{
    match submitted_by(txns, event) {
        Some(txn) => {
            found.push(txn)?;
            Ok(())
        }
        None => Ok(()),
    }
}

/// The transactions that are submitted, in that order.
#[tactic(auto, using(crate::proofs::Submissions::submitted_more))]
fn submitted_txns<'a>(alloc: Global, work: &'a Workload) -> Result<Vec<&'a Txn>, NoMemory>
    ensures { IfOk result (λ txns. map (λ t. t.now) txns.items ≡ submitted work.now) }
{
    let mut found = Vec::new(alloc);
    'events: for event in work.events.as_slice() {
        add_submitted(&mut found, work.txns.as_slice(), event)?;
    }
    Ok(found)
}

/// A name, after a space.
fn put_name(out: &mut Vec<u8>, name: &Name) -> Result<(), NoMemory>
    ensures { OnOk result (out.new.items ≡ out.old.items ++ spaced name.now) }
{
    put(out, b" ")?;
    put(out, name.as_str().as_bytes())
}

fn put_names(out: &mut Vec<u8>, txns: &[&Txn]) -> Result<(), NoMemory>
    ensures { OnOk result (out.new.items
        ≡ out.old.items ++ flat_map spaced (names_of (map (λ t. t.now) txns.now))) }
{
    'txns: for txn in txns {
        put_name(out, &txn.name)?;
    }
    Ok(())
}

/// The replies of the transactions, which run one after the other on a database of the rows.
fn put_replies(
    alloc: Global,
    out: &mut Vec<u8>,
    catalogue: &Catalogue,
    rows: &StartRows,
    txns: &[&Txn],
) -> Result<(), NoMemory>
    requires rows { All (FitsStart catalogue.now) rows.now }
    requires txns { All (λ t. FitsTxn catalogue.now t.now) txns.now }
    ensures { OnOk result (out.new.items ≡ out.old.items ++ replies_of catalogue.now (database_of catalogue.now rows.now) (map (λ t. t.now) txns.now)) }
{
    let mut plain = Plain::new(alloc, catalogue, rows.as_slice())?;
    'txns: for txn in txns {
        let reply = plain.run(catalogue, txn)?;
        put_reply(out, txn.name.as_str().as_bytes(), &reply)?;
    }
    Ok(())
}

/// The submitted transactions in order of submission, and their replies. Costs what they do on one
/// plain database, whose queries go over the product of their relations, and time in the text.
#[tactic(auto, using(crate::proofs::Submissions::submitted_fit))]
pub fn serial_text(
    alloc: Global,
    catalogue: &Catalogue,
    work: &Workload,
) -> Result<Vec<u8>, NoMemory>
    requires { IsValid catalogue.now work.now }
    ensures { IfOk result (λ text. text.items ≡ serial_text catalogue.now work.now) }
{
    let txns = submitted_txns(alloc, work)?;
    let mut text = Vec::new(alloc);
    put(&mut text, b"order")?;
    put_names(&mut text, txns.as_slice())?;
    put(&mut text, b"\n")?;
    put_replies(alloc, &mut text, catalogue, &work.rows, txns.as_slice())?;
    put(&mut text, b"end\n")?;
    Ok(text)
}
