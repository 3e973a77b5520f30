//! The text of a certificate.
ghost use Rattle.std.specs.Prelude.{◌≡◌, ◌++◌, codes, IfOk, OnOk};
ghost use Rattle.sdd_certify.specs.Certificate.{certificate, due_line, finding_lines, no_line, serializable_lines, text_line};
ghost use Rattle.sdd_certify.specs.Complete.{complete, missing_on};
ghost use Rattle.sdd_certify.specs.Findings.{finding};
ghost use Rattle.sdd_certify.specs.Strict.{late_on, strict};
ghost use Rattle.sdd_script.specs.All.{IsValid};

use crate::complete::first_missing;
use crate::due::{Due, find_due};
use crate::finding::Finding;
use crate::lines::order_in;
use crate::names::OrderNames;
use crate::strict::first_late;
use sdd_script::{Catalogue, NoMemory, Workload};
use sdd_verify::{Verdict, verify};
use sdd_words::{put, put_count};
use std::alloc::Global;

/// Puts `no` and the number of a line.
fn put_no(out: &mut Vec<u8>, number: usize) -> Result<(), NoMemory>
    ensures { OnOk result (out.new.items ≡ out.old.items ++ no_line number) }
{
    put(out, b"no ")?;
    put_count(out, number as u64)?;
    put(out, b"\n")
}

/// Puts a word, and a text to the end of the line.
fn put_text_line(out: &mut Vec<u8>, word: &[u8], text: &[u8]) -> Result<(), NoMemory>
    ensures { OnOk result (out.new.items ≡ out.old.items ++ text_line word.now text.now) }
{
    put(out, word)?;
    put(out, text)?;
    put(out, b"\n")
}

/// Puts the line that is due.
fn put_due(out: &mut Vec<u8>, due: &Due) -> Result<(), NoMemory>
    ensures { OnOk result (out.new.items ≡ out.old.items ++ due_line due.now) }
{
    match due {
        Due::Open => Ok(()),
        Due::NoReply => put(out, b"expected no reply\n"),
        Due::Line(line) => put_text_line(out, b"expected ", line.as_slice()),
    }
}

/// Puts whether the report is verified, and what is due where it isn't.
fn put_serializable(out: &mut Vec<u8>, verdict: Verdict, due: &Due) -> Result<(), NoMemory>
    ensures { OnOk result (out.new.items ≡ out.old.items ++ serializable_lines verdict due.now) }
{
    match verdict {
        Verdict::Yes => put(out, b"serializable yes\n"),
        Verdict::No(number) => {
            put(out, b"serializable ")?;
            put_no(out, number as usize)?;
            put_due(out, due)
        }
    }
}

/// Puts what is found by the rule with this name, and the transaction behind a word.
fn put_finding(
    out: &mut Vec<u8>,
    rule: &[u8],
    word: &[u8],
    finding: &Finding,
) -> Result<(), NoMemory>
    ensures { OnOk result (out.new.items ≡ out.old.items ++ finding_lines rule.now word.now finding.now) }
{
    put(out, rule)?;
    match finding {
        Finding::Yes => put(out, b"yes\n"),
        Finding::NoOrder(number) => put_no(out, *number),
        Finding::At(number, name) => {
            put_no(out, *number)?;
            put_text_line(out, word, name.as_slice())
        }
    }
}

/// Puts whether the order names each transaction whose commit is told, and whether what was over
/// before another transaction began stands before it.
fn put_findings(alloc: Global, out: &mut Vec<u8>, report: &[u8]) -> Result<(), NoMemory>
    ensures { OnOk result (out.new.items ≡ out.old.items
        ++ (finding_lines (codes "complete ") (codes "missing ") (complete report.now)
        ++ finding_lines (codes "strict ") (codes "late ") (strict report.now))) }
{
    match order_in(report) {
        Err(number) => {
            put_finding(out, b"complete ", b"missing ", &Finding::NoOrder(number))?;
            put_finding(out, b"strict ", b"late ", &Finding::NoOrder(number))
        }
        Ok((_, line, _)) => {
            let order = OrderNames::on(alloc, line)?;
            let missing = first_missing(alloc, &order, report)?;
            put_finding(out, b"complete ", b"missing ", &missing)?;
            let late = first_late(alloc, &order, report)?;
            put_finding(out, b"strict ", b"late ", &late)
        }
    }
}

/// Certifies a report, whoever wrote it: a line each on whether it is serializable, as `verify`
/// judges, whether its order names each transaction whose commit it tells, and whether what it tells to
/// be over before another transaction began stands before it; after a `no` the line that is expected,
/// or the transaction that is missing or stands too late.
///
/// Costs time linear in the report, a logarithmic step for each line before the order line, and what
/// `verify` does; where a reply is at fault twice as much, and a look through the transactions for
/// each name of the order. Takes memory for the order line, the database and one reply.
pub fn certify(
    alloc: Global,
    catalogue: &Catalogue,
    work: &Workload,
    report: &[u8],
) -> Result<Vec<u8>, NoMemory>
    requires { IsValid catalogue.now work.now }
    ensures { IfOk result (λ text. text.items ≡ certificate catalogue.now work.now report.now) }
{
    let verdict = verify(alloc, catalogue, work, report)?;
    let due = find_due(alloc, catalogue, work, report, verdict)?;
    let mut text = Vec::new(alloc);
    put_serializable(&mut text, verdict, &due)?;
    put_findings(alloc, &mut text, report)?;
    Ok(text)
}
