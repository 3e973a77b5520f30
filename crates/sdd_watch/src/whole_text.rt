//! The text of what happens while a world carries out a schedule.
ghost use Rattle.std.specs.Prelude.{◌≡◌, ◌<◌, ◌^◌, [], length, IfOk, IsErrOf, OnOk};
ghost use Rattle.sdd_moments.specs.obligations.All.{Input, IsTheLog, Log};
ghost use Rattle.sdd_moments.specs.schedule.Schedules.{AreAllowed, with_events};
ghost use Rattle.sdd_moments.specs.schedule.world.Represents.{EndsBy, Represents};
ghost use Rattle.sdd_watch.specs.ScheduleSoFar.{Tells};
ghost use Rattle.sdd_watch.specs.Text.{IsTextOf};

use crate::foreseen::Foreseen;
use crate::teller::Teller;
use crate::watch::Watch;
use sdd_inside::put_beginning;
use sdd_moments::{Catalogue, ClassList, Event, NoMemory, World, WorldEnd, carry_out, copy_tables};
use std::alloc::Global;

/// What is reported before the first event.
fn begin<'c>(
    alloc: Global,
    catalogue: &'c Catalogue,
    world: &World<'_>,
) -> Result<Teller<'c>, NoMemory>
    requires { (g : Input) × Represents world.now g [] × (catalogue.now ≡ g.catalogue) }
    ensures { IfOk result (λ teller. (g : Input) → Represents world.now g []
        → catalogue.now ≡ g.catalogue → Tells g [] teller) }
{
    let copies = copy_tables(alloc, world)?;
    let watch = Watch::new(alloc, catalogue, world)?;
    let mut text = Vec::new(alloc);
    put_beginning(
        &mut text,
        catalogue,
        world.transactions(),
        copies.as_slice(),
    )?;
    Ok(Teller {
        catalogue,
        watch,
        text,
        finds: Foreseen::Something,
    })
}

/// Carries out a schedule before a teller. The world ends here, so that it is dropped at one place.
fn carry_out_before<'a>(
    teller: &mut Teller<'_>,
    world: World<'a>,
    events: Vec<Event>,
    lists: Vec<ClassList<'a>>,
) -> Result<(), WorldEnd>
    requires { (g : Input) × Represents world g [] × Tells g [] teller.old × (g.events ≡ [])
        × AreAllowed g events.items lists.items × (length events.items < 2 ^ 32) }
    ensures log { OnOk result ((g : Input) → Represents world.entry g [] → Tells g [] teller.old
        → g.events ≡ [] → AreAllowed g events.items lists.entry.items
        → (more : Log) × IsTheLog (with_events g events.items) more
        × Tells (with_events g events.items) more teller.new) }
    ensures limit { IsErrOf result WorldEnd.Limit → (g : Input) → Represents world.entry g []
        → Tells g [] teller.old → g.events ≡ [] → AreAllowed g events.items lists.entry.items
        → EndsBy (with_events g events.items) }
{
    carry_out(world, events, lists, teller)?;
    Ok(())
}

/// The text of a teller, which ends here.
fn text_told(teller: Teller<'_>) -> Vec<u8>
    ensures { result.items ≡ teller.entry.text.items }
{
    teller.text
}

/// The text of what happens while a world carries out the events of a schedule, each of which it may
/// carry out: the first line, and one line for each event that has a number. Nothing was given to it
/// before, and its transactions and events are reported by this catalogue.
///
/// Costs what its events cost, for each of them a look at the links and pipes of the sites that it
/// concerns; for each submission and commit a look at the queues of the site that acts; and the text.
///
/// # Errors
///
/// Where an event, or a message of a link, would pass the limit, and where memory runs out.
pub fn schedule_text<'a>(
    alloc: Global,
    catalogue: &Catalogue,
    world: World<'a>,
    events: Vec<Event>,
    lists: Vec<ClassList<'a>>,
) -> Result<Vec<u8>, WorldEnd>
    requires { (g : Input) × Represents world g [] × (catalogue.now ≡ g.catalogue)
        × (g.events ≡ []) × AreAllowed g events.items lists.items × (length events.items < 2 ^ 32) }
    ensures text { IfOk result (λ text. (g : Input) → Represents world.entry g []
        → catalogue.now ≡ g.catalogue → g.events ≡ [] → AreAllowed g events.items lists.entry.items
        → IsTextOf (with_events g events.items) text.items) }
    ensures limit { IsErrOf result WorldEnd.Limit → (g : Input) → Represents world.entry g []
        → catalogue.now ≡ g.catalogue → g.events ≡ [] → AreAllowed g events.items lists.entry.items
        → EndsBy (with_events g events.items) }
{
    let mut teller = begin(alloc, catalogue, &world)?;
    carry_out_before(&mut teller, world, events, lists)?;
    Ok(text_told(teller))
}
