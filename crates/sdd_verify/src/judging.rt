//! The judging of a report.
ghost use Rattle.std.specs.Prelude.{◌≡◌, IfOk};
ghost use Rattle.sdd_script.specs.All.{GivesReading, IsValid};
ghost use Rattle.sdd_verify.specs.Classes.{classes_submitted};
ghost use Rattle.sdd_verify.specs.Flaws.{line_in};
ghost use Rattle.sdd_verify.specs.Verdict.{judged, verdict};

use crate::classes::submitted_classes;
use crate::flaw::{Flaw, must};
use crate::lines::Lines;
use crate::order::read_order;
use crate::order_line::order_line;
use crate::replies::pass_replies;
use crate::submitted::Submitted;
use crate::verdict::Verdict;
use sdd_lists::lists_of;
use sdd_script::{Catalogue, NoMemory, Workload};
use std::alloc::Global;

/// The class of each submitted transaction, in order of submission, by the class lists in force.
fn classes_of(alloc: Global, catalogue: &Catalogue, work: &Workload) -> Result<Vec<u32>, NoMemory>
    requires { IsValid catalogue.now work.now }
    ensures { IfOk result (λ classes. classes.items ≡ classes_submitted catalogue.now work.now) }
{
    let lists = lists_of(alloc, catalogue, work)?;
    submitted_classes(alloc, catalogue, lists.eras(), work)
}

/// Whether the report breaks no rule, or the first line at fault.
fn judge(alloc: Global, catalogue: &Catalogue, work: &Workload, report: &[u8]) -> Result<(), Flaw>
    requires { IsValid catalogue.now work.now }
    ensures { GivesReading line_in (λ sound. sound) result (judged catalogue.now work.now report.now) }
{
    let lines = Lines::begin(report)?;
    let (number, line, behind) = order_line(lines)?;
    let submitted = Submitted::of(alloc, work)?;
    let classes = classes_of(alloc, catalogue, work)?;
    let order = read_order(alloc, &submitted, classes.as_slice(), number, line)?;
    let texts = submitted.texts(alloc, order.as_slice())?;
    let rest = pass_replies(alloc, catalogue, &work.rows, texts.as_slice(), behind)?;
    must(rest.number, rest.ends_replies())
}

/// Judges a report against one plain database: whether it has an order of submitted transactions, and
/// after it the replies of the database that begins with the workload's rows and runs these
/// transactions in that order.
///
/// It says nothing of transactions that the report doesn't name.
///
/// Costs time linear in the report, a logarithmic step for each submission and each name, and what the
/// transactions cost on one plain database until the first line that is another. Takes memory for the
/// order line, the database and one reply.
pub fn verify(
    alloc: Global,
    catalogue: &Catalogue,
    work: &Workload,
    report: &[u8],
) -> Result<Verdict, NoMemory>
    requires { IsValid catalogue.now work.now }
    ensures { IfOk result (λ judgement. judgement ≡ verdict catalogue.now work.now report.now) }
{
    match judge(alloc, catalogue, work, report) {
        Ok(()) => Ok(Verdict::Yes),
        Err(Flaw::Line(number)) => Ok(Verdict::No(number)),
        Err(Flaw::NoMemory) => Err(NoMemory),
    }
}
