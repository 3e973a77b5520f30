ghost use Rattle.std.specs.Prelude.{◌≡◌, ◌<◌, ◌+◌, ◌^◌, [], suc, option_map, unwrap_or, IfOk, OnOk};
ghost use Rattle.sdd_module.specs.All.{FitsTxn, sends_of_act, ticked, timestamp, with_act};
ghost use Rattle.sdd_rules.specs.All.{begins, start_act};
ghost use Rattle.sdd_running.specs.Reads.{IsDeclared};

use crate::queued::Queued;
use crate::reads::Beginning;
use crate::running::Running;
use sdd_exchange::Exchange;
use sdd_module::{Catalogue, ClassNo, Clock, Draft, NoMemory, Table};
use std::alloc::Global;

/// Starts the next attempt of a transaction in the queue of the class: it takes a tick, and its
/// Start is recorded with its READs.
pub fn start_attempt(
    alloc: Global,
    catalogue: &Catalogue,
    table: Option<&Table>,
    class: ClassNo,
    queued: &Queued,
    clock: &mut Clock,
    draft: &mut Draft,
) -> Result<Running, NoMemory>
    requires fits { FitsTxn catalogue.now queued.now.text }
    requires declared { IsDeclared catalogue.now class.0 (option_map (λ t. t.now) table) }
    requires tries { suc queued.now.tries < 2 ^ 64 }
    requires time { clock.old.ticks + 1 < 2 ^ 57 }
    ensures running { let table = unwrap_or (option_map (λ t. t.now) table.entry) [] in
        IfOk result (λ running.
        running
        ≡ record {
          ts = timestamp (ticked clock.old 1);
          exchange = begins queued.now.text (sends_of_act (start_act catalogue.now table class.0 clock.old queued.now));
        }) }
    ensures draft { let table = unwrap_or (option_map (λ t. t.now) table.entry) [] in
        OnOk result (
        draft.new ≡ with_act (start_act catalogue.now table class.0 clock.old queued.now) draft.old) }
    ensures clock { clock.new ≡ ticked clock.old 1 }
{
    let p2 = clock.bound();
    let own = clock.start();
    let beginning = Beginning::of(alloc, catalogue, table, class, queued, own, p2)?;
    let modules = beginning.send_reads(draft)?;
    draft.record(beginning.into_record())?;
    let exchange = Exchange::begin(alloc, &queued.text, modules)?;
    Ok(Running { ts: own, exchange })
}
