//! The world of a workload, with all its events carried out.
ghost use Rattle.std.specs.Prelude.{◌≡◌, IfOk, IsErrOf};
ghost use Rattle.sdd_lists.specs.InForce.{eras_in, whole_in};
ghost use Rattle.sdd_script.specs.All.{IsValid};
ghost use Rattle.sdd_run.specs.Runs.{AreTables, EndsAtLimit};
ghost use Rattle.sdd_run.specs.Worlds.{IsRunOf};

use crate::era_lists::{first_table, further};
use sdd_lists::Lists;
use sdd_progress::{Catalogue, Table};
use sdd_schedule::{Nobody, World, WorldEnd, carry_out, data_modules};
use sdd_script::Workload;
use std::alloc::Global;

/// The world of the real modules, begun with the rows of a workload, that has carried out its events
/// in order. Costs what the events cost.
///
/// # Errors
///
/// Where an event, or a message of a link, would pass the limit, and where memory runs out.
pub fn run_to_end<'a>(
    alloc: Global,
    catalogue: &'a Catalogue,
    lists: &'a Lists<'a>,
    tables: &'a [Table],
    work: Workload,
) -> Result<World<'a>, WorldEnd>
    requires valid { IsValid catalogue.now work }
    requires eras { lists.now.eras ≡ eras_in catalogue.now work }
    requires whole { lists.now.whole ≡ whole_in catalogue.now work }
    requires tabled { AreTables catalogue.now work tables.now }
    ensures run { IfOk result (λ world. IsRunOf catalogue.now tables.now work world) }
    ensures limit { IsErrOf result WorldEnd.Limit → EndsAtLimit catalogue.now work }
{
    let whole = lists.whole();
    whole.law_is_sound();
    let further = further(alloc, lists.eras(), tables)?;
    let Workload {
        rows,
        txns,
        events,
        ..
    } = work;
    let modules = data_modules(alloc, whole, rows.as_slice())?;
    let world = World::new(alloc, whole, catalogue, first_table(tables), txns, modules)?;
    carry_out(world, events.into_vec(), further, &mut Nobody)
}
