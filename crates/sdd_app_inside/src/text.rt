//! The text of what happens inside the run of a workload.
ghost use Rattle.std.specs.Prelude.{◌≡◌, [], IfOk, IsErrOf};
ghost use Rattle.sdd_run.specs.Runs.{AreTables, EndsAtLimit, first_input};
ghost use Rattle.sdd_run.specs.class_lists.InForce.{eras_in, whole_in};
ghost use Rattle.sdd_run.specs.script.All.{IsValid};
ghost use Rattle.sdd_run.specs.world.Represents.{Represents};
ghost use Rattle.sdd_app_inside.specs.Text.{IsInsideOf};

use sdd_lang::{Catalogue, Event, NoMemory};
use sdd_run::{
    Lists, Workload, World, WorldEnd, data_modules, first_table, further, lists_of, tables_of,
};
use sdd_watch::{Table, schedule_text};
use std::alloc::Global;

/// A world before its first event, and the events that it is to carry out.
#[derive(Drop)]
struct First<'a> {
    world: World<'a>,
    events: Vec<Event>,
}

/// The world of a workload before its first event, and its events. The class lists have these
/// protocol tables.
fn first_world<'a>(
    alloc: Global,
    catalogue: &'a Catalogue,
    lists: &'a Lists<'a>,
    tables: &'a [Table],
    work: Workload,
) -> Result<First<'a>, NoMemory>
    requires valid { IsValid catalogue.now work }
    requires whole { lists.now.whole ≡ whole_in catalogue.now work }
    requires tabled { AreTables catalogue.now work tables.now }
    ensures world { IfOk result (λ first.
        Represents first.world (first_input catalogue.now tables.now work) []) }
    ensures events { IfOk result (λ first. first.events.items ≡ work.events) }
{
    let whole = lists.whole();
    whole.law_is_sound();
    let Workload {
        rows,
        txns,
        events,
        ..
    } = work;
    let modules = data_modules(alloc, whole, rows.as_slice())?;
    let world = World::new(alloc, whole, catalogue, first_table(tables), txns, modules)?;
    Ok(First {
        world,
        events: events.into_vec(),
    })
}

/// The text for a workload whose class lists have these protocol tables.
fn text_with_tables<'a>(
    alloc: Global,
    catalogue: &'a Catalogue,
    lists: &'a Lists<'a>,
    tables: &'a [Table],
    work: Workload,
) -> Result<Vec<u8>, WorldEnd>
    requires valid { IsValid catalogue.now work }
    requires eras { lists.now.eras ≡ eras_in catalogue.now work }
    requires whole { lists.now.whole ≡ whole_in catalogue.now work }
    requires tabled { AreTables catalogue.now work tables.now }
    ensures text { IfOk result (λ text. IsInsideOf catalogue.now work text.items) }
    ensures limit { IsErrOf result WorldEnd.Limit → EndsAtLimit catalogue.now work }
{
    let whole = lists.whole();
    whole.law_is_sound();
    let further = further(alloc, lists.eras(), tables)?;
    let first = first_world(alloc, catalogue, lists, tables, work)?;
    let First { world, events } = first;
    schedule_text(alloc, whole, world, events, further)
}

/// The text of what happens inside the run of a workload: the first line, and one line for each event
/// that has a number.
///
/// Costs what its events cost, for each of them a look at the links and pipes of the sites that it
/// concerns; for each submission and commit a look at the queues of the site that acts; and the text.
///
/// # Errors
///
/// Where an event, or a message of a link, would pass the limit, and where memory runs out.
pub fn inside_text(
    alloc: Global,
    catalogue: &Catalogue,
    work: Workload,
) -> Result<Vec<u8>, WorldEnd>
    requires valid { IsValid catalogue.now work }
    ensures text { IfOk result (λ text. IsInsideOf catalogue.now work text.items) }
    ensures limit { IsErrOf result WorldEnd.Limit → EndsAtLimit catalogue.now work }
{
    let lists = lists_of(alloc, catalogue, &work)?;
    let tables = tables_of(alloc, lists.eras())?;
    text_with_tables(alloc, catalogue, &lists, tables.as_slice(), work)
}
