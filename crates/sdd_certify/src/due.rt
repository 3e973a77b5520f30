//! The line that should stand where a report is at fault.
ghost use Rattle.std.specs.Prelude.{◌≡◌, ◌++◌, ◌∷◌, [], map, slice_get, IfOk};
ghost use Rattle.std.specs.Option.{option_copied};
ghost use Rattle.std.specs.Str.{bytes_eq};
ghost use Rattle.sdd_certify.specs.Due.{due, due_lines, line_or_end, txn_named, txns_named};
ghost use Rattle.sdd_script.specs.All.{IsValid};
ghost use Rattle.sdd_verify.specs.Orders.{names_on};

use crate::lines::order_line;
use crate::names::names_on;
use crate::replies::replies_line;
use sdd_script::{Bytes, Catalogue, NoMemory, Txn, Workload};
use sdd_verify::Verdict;
use std::alloc::Global;

/// What should stand at the line at which a report is at fault.
#[derive(Drop)]
pub enum Due {
    /// This line.
    Line(Bytes),
    /// A line that is of no reply.
    NoReply,
    /// The line is the order line, or there is none, or no line is at fault: nothing certain.
    Open,
}

/// Whether the transaction has this name.
fn has_name(txn: &Txn, name: &[u8]) -> bool
    ensures { result ≡ bytes_eq txn.now.name name.now }
{
    txn.name.as_str().as_bytes() == name
}

/// The transaction of this name.
fn txn_named<'a>(txns: &'a [Txn], name: &[u8]) -> Option<&'a Txn>
    ensures { option_copied result ≡ txn_named txns.now name.now }
{
    txns.iter().find(|txn| has_name(txn, name))
}

/// Adds the transaction of this name, where there is one.
fn add_named<'a>(found: &mut Vec<&'a Txn>, txns: &'a [Txn], name: &[u8]) -> Result<(), NoMemory>
    ensures { IfOk result (λ _. map (λ t. t.now) found.new.items
        ≡ map (λ t. t.now) found.old.items ++ txns_named txns.now (name.now ∷ [])) }
{
    match txn_named(txns, name) {
        Some(txn) => {
            found.push(txn)?;
            Ok(())
        }
        None => Ok(()),
    }
}

/// The transactions of these names. Looks through the transactions for each name.
#[tactic(auto, using(crate::proofs::NamedTxns::names_more))]
fn txns_named<'a>(
    alloc: Global,
    work: &'a Workload,
    names: &[&[u8]],
) -> Result<Vec<&'a Txn>, NoMemory>
    ensures { IfOk result (λ found. map (λ t. t.now) found.items ≡ txns_named work.now.txns (map (λ w. w.now) names.now)) }
{
    let mut found = Vec::new(alloc);
    'names: for name in names {
        add_named(&mut found, work.txns.as_slice(), name)?;
    }
    Ok(found)
}

/// The line of the replies along an order line that stands behind so many.
fn due_line(
    alloc: Global,
    catalogue: &Catalogue,
    work: &Workload,
    line: &[u8],
    skipped: usize,
) -> Result<Due, NoMemory>
    requires { IsValid catalogue.now work.now }
    ensures { IfOk result (λ due. due ≡ line_or_end (slice_get (due_lines catalogue.now work.now (names_on line.now)) skipped)) }
{
    let names = names_on(alloc, line)?;
    let txns = txns_named(alloc, work, names.as_slice())?;
    match replies_line(alloc, catalogue, &work.rows, txns.as_slice(), skipped)? {
        Some(line) => Ok(Due::Line(line)),
        None => Ok(Due::NoReply),
    }
}

/// What is due at the line at which this verdict finds the report at fault. Costs what the
/// transactions do on one plain database up to that line, and memory for one reply.
pub(crate) fn find_due(
    alloc: Global,
    catalogue: &Catalogue,
    work: &Workload,
    report: &[u8],
    verdict: Verdict,
) -> Result<Due, NoMemory>
    requires { IsValid catalogue.now work.now }
    ensures { IfOk result (λ d. d ≡ due catalogue.now work.now report.now verdict) }
{
    match verdict {
        Verdict::Yes => Ok(Due::Open),
        Verdict::No(number) => match order_line(report) {
            Err(_) => Ok(Due::Open),
            Ok((at, line, _)) => {
                if number as usize <= at {
                    return Ok(Due::Open);
                }
                due_line(alloc, catalogue, work, line, number as usize - (at + 1))
            }
        },
    }
}
