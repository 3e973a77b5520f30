//! The run of a workload, and what is reported of it.
ghost use Rattle.std.specs.Prelude.{◌≡◌, IfOk, IsErrOf};
ghost use Rattle.sdd_lists.specs.InForce.{eras_in, whole_in};
ghost use Rattle.sdd_make.specs.Summary.{summary_of};
ghost use Rattle.sdd_progress.specs.obligations.All.{Input, IsOrderable, Log, history, marks};
ghost use Rattle.sdd_report.specs.Report.{report_text as text_of};
ghost use Rattle.sdd_script.specs.All.{IsValid};
ghost use Rattle.sdd_run.specs.Reports.{report_of};
ghost use Rattle.sdd_run.specs.Runs.{AreTables, EndsAtLimit, IsReportOn, IsSummaryOn};
ghost use Rattle.sdd_schedule.specs.LastHomes.{AreAtLastHomes};
ghost use Rattle.sdd_schedule.specs.world.Represents.{Represents};

use crate::era_lists::tables_of;
use crate::running::run_to_end;
use crate::telling::report_on;
use sdd_lists::{Lists, lists_of};
use sdd_make::{Summary, summary_of, summary_text};
use sdd_progress::{Catalogue, NoMemory, Pages, Table};
use sdd_schedule::{World, WorldEnd};
use sdd_script::Workload;
use std::alloc::Global;

/// The text of the report on a world, which ends here, so that it is dropped at one place.
fn report_at_end(alloc: Global, world: World<'_>) -> Result<Pages, NoMemory>
    requires { (g : Input) × (log : Log) × IsOrderable g.catalogue (history log)
        × Represents world g log }
    ensures { IfOk result (λ text. (g : Input) (log : Log) → Represents world.entry g log
        → AreAtLastHomes g log → text ≡ text_of (report_of g log)) }
{
    report_on(alloc, &world)
}

/// The text of the report for a workload whose class lists have these protocol tables.
fn report_with_tables<'a>(
    alloc: Global,
    catalogue: &'a Catalogue,
    lists: &'a Lists<'a>,
    tables: &'a [Table],
    work: Workload,
) -> Result<Pages, WorldEnd>
    requires valid { IsValid catalogue.now work }
    requires eras { lists.now.eras ≡ eras_in catalogue.now work }
    requires whole { lists.now.whole ≡ whole_in catalogue.now work }
    requires tabled { AreTables catalogue.now work tables.now }
    ensures report { IfOk result (λ text. IsReportOn catalogue.now work text) }
    ensures limit { IsErrOf result WorldEnd.Limit → EndsAtLimit catalogue.now work }
{
    let whole = lists.whole();
    whole.law_is_sound();
    let world = run_to_end(alloc, catalogue, lists, tables, work)?;
    Ok(report_at_end(alloc, world)?)
}

/// The text of the report on the run of a workload.
///
/// Costs what its events cost, the catalogue and the protocol table of each class list, the
/// serial order, the copies and the text.
///
/// # Errors
///
/// Where an event, or a message of a link, would pass the limit, and where memory runs out.
pub fn run_report(alloc: Global, catalogue: &Catalogue, work: Workload) -> Result<Pages, WorldEnd>
    requires valid { IsValid catalogue.now work }
    ensures report { IfOk result (λ text. IsReportOn catalogue.now work text) }
    ensures limit { IsErrOf result WorldEnd.Limit → EndsAtLimit catalogue.now work }
{
    let lists = lists_of(alloc, catalogue, &work)?;
    let tables = tables_of(alloc, lists.eras())?;
    report_with_tables(alloc, catalogue, &lists, tables.as_slice(), work)
}

/// The summary of a run that came to this world, which ends here.
fn summary_at_end(transactions: u32, world: World<'_>) -> Summary
    requires { (g : Input) × (log : Log) × Represents world g log }
    ensures { (g : Input) (log : Log) → Represents world.entry g log
        → result ≡ summary_of transactions (history log) (marks log) }
{
    summary_of(transactions, world.history().as_slice(), world.events())
}

/// The text of the summary for a workload whose class lists have these protocol tables.
fn summary_with_tables<'a>(
    alloc: Global,
    catalogue: &'a Catalogue,
    lists: &'a Lists<'a>,
    tables: &'a [Table],
    work: Workload,
) -> Result<Vec<u8>, WorldEnd>
    requires valid { IsValid catalogue.now work }
    requires eras { lists.now.eras ≡ eras_in catalogue.now work }
    requires whole { lists.now.whole ≡ whole_in catalogue.now work }
    requires tabled { AreTables catalogue.now work tables.now }
    ensures summary { IfOk result (λ text. IsSummaryOn catalogue.now work text.items) }
    ensures limit { IsErrOf result WorldEnd.Limit → EndsAtLimit catalogue.now work }
{
    let transactions = work.txns.as_slice().len() as u32;
    let world = run_to_end(alloc, catalogue, lists, tables, work)?;
    let summary = summary_at_end(transactions, world);
    Ok(summary_text(alloc, &summary)?)
}

/// The text of the summary of the run of a workload. Costs what its events cost, and the catalogue
/// and the protocol table of each class list.
///
/// # Errors
///
/// Where an event, or a message of a link, would pass the limit, and where memory runs out.
pub fn run_summary(
    alloc: Global,
    catalogue: &Catalogue,
    work: Workload,
) -> Result<Vec<u8>, WorldEnd>
    requires valid { IsValid catalogue.now work }
    ensures summary { IfOk result (λ text. IsSummaryOn catalogue.now work text.items) }
    ensures limit { IsErrOf result WorldEnd.Limit → EndsAtLimit catalogue.now work }
{
    let lists = lists_of(alloc, catalogue, &work)?;
    let tables = tables_of(alloc, lists.eras())?;
    summary_with_tables(alloc, catalogue, &lists, tables.as_slice(), work)
}
