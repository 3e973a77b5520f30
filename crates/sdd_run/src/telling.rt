//! The report on a world.
ghost use Rattle.std.specs.Prelude.{◌≡◌, IfOk};
ghost use Rattle.sdd_progress.specs.obligations.All.{Input, IsOrderable, Log, history};
ghost use Rattle.sdd_report.specs.Report.{report_text as text_of};
ghost use Rattle.sdd_run.specs.Reports.{report_of};
ghost use Rattle.sdd_schedule.specs.LastHomes.{AreAtLastHomes};
ghost use Rattle.sdd_schedule.specs.world.Represents.{Represents};

use sdd_progress::{NoMemory, Pages, serial_order};
use sdd_report::{Report, report_pages};
use sdd_schedule::{World, copy_tables, pending_txns};
use std::alloc::Global;

/// The text of the report on a world whose history has a serial order, and in which each pending
/// transaction was submitted under the class list in force. Costs what the order, the pending
/// transactions, the copies and the text cost.
pub fn report_on(alloc: Global, world: &World<'_>) -> Result<Pages, NoMemory>
    requires { (g : Input) × (log : Log) × IsOrderable g.catalogue (history log)
        × Represents world.now g log }
    ensures { IfOk result (λ text. (g : Input) (log : Log) → Represents world.now g log
        → AreAtLastHomes g log → text ≡ text_of (report_of g log)) }
{
    let catalogue = world.whole();
    let history = world.history().as_slice();
    let order = serial_order(alloc, catalogue, history)?;
    let left = pending_txns(alloc, world)?;
    let copies = copy_tables(alloc, world)?;
    let report = Report {
        catalogue,
        txns: world.transactions(),
        history,
        order: order.as_slice(),
        pending: left.as_slice(),
        copies: copies.as_slice(),
    };
    report_pages(alloc, &report)
}
