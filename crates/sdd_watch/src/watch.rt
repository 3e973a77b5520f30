//! What stood where when an event was over, and what the next one changed.
ghost use Rattle.std.specs.Prelude.{◌≡◌, [], length, IfOk, OnOk};
ghost use Rattle.sdd_inside.specs.Differences.{difference};
ghost use Rattle.sdd_moments.specs.obligations.All.{Input, Log, history};
ghost use Rattle.sdd_moments.specs.schedule.world.Represents.{Calm};
ghost use Rattle.sdd_watch.specs.Happens.{happened_at, rows_of};
ghost use Rattle.sdd_watch.specs.Looking.{HasLooked, IsSeen};
ghost use Rattle.sdd_moments.specs.Reaching.{given_to, reach_of};
ghost use Rattle.sdd_watch.specs.Text.{change};
ghost use Rattle.sdd_watch.specs.Watching.{AreCommits, IsTurn, Knows, Watches};
ghost use Rattle.sdd_moments.specs.Changes.{IsBetween, IsOver, arrived as arrived_between};

use crate::commits::Commits;
use crate::dones::Dones;
use crate::rows::rows_from;
use crate::taking_part::{busy, states};
use sdd_inside::{
    Delta, Found, Happened, LinkMoment, Moment, PipeMoment, QueueMoment, RowDelta, difference,
};
use sdd_moments::{
    Arrived, AtSite, Both, Catalogue, Event, Listed, NoMemory, OnLinks, Reach, Site, Turn,
    WatchedLink, WatchedPipe, World, all_queues, all_sites, first_links, first_pipes, have_moved,
    home_in, look_at_links, look_at_pipes, look_at_queues, reach_of,
};
use std::alloc::Global;

/// What stood where when the last event was over.
#[derive(Drop)]
pub(crate) struct Watch {
    alloc: Global,
    sites: Vec<Site>,
    links: Vec<AtSite<WatchedLink>>,
    queues: Vec<AtSite<QueueMoment>>,
    pipes: Vec<AtSite<WatchedPipe>>,
    /// How many records were made.
    records: usize,
    commits: Commits,
    dones: Dones,
}

/// What was seen of the links, queues and pipes that an event may have changed.
#[derive(Drop)]
pub(crate) struct Seen {
    pub(crate) links: OnLinks,
    pub(crate) queues: Both<QueueMoment>,
    pub(crate) pipes: Both<PipeMoment>,
}

/// The moments before and after an event, of these parts.
fn moments(
    links: Both<LinkMoment>,
    queues: Both<QueueMoment>,
    pipes: Both<PipeMoment>,
) -> (Moment, Moment)
    ensures before { result.0 ≡ record {
      links = links.before.items;
      queues = queues.before.items;
      pipes = pipes.before.items;
    } }
    ensures after { result.1 ≡ record {
      links = links.after.items;
      queues = queues.after.items;
      pipes = pipes.after.items;
    } }
{
    let before = Moment {
        links: Listed::from_vec(links.before),
        queues: Listed::from_vec(queues.before),
        pipes: Listed::from_vec(pipes.before),
    };
    let after = Moment {
        links: Listed::from_vec(links.after),
        queues: Listed::from_vec(queues.after),
        pipes: Listed::from_vec(pipes.after),
    };
    (before, after)
}

/// What an event changed at which this happened, where this was seen of its moments.
fn changed(alloc: Global, happened: Happened, seen: Seen) -> Result<Delta, NoMemory>
    ensures { IfOk result (λ delta. delta ≡ difference happened
        (record {
          links = seen.links.moments.before.items;
          queues = seen.queues.before.items;
          pipes = seen.pipes.before.items;
        })
        (record {
          links = seen.links.moments.after.items;
          queues = seen.queues.after.items;
          pipes = seen.pipes.after.items;
        })) }
{
    let Seen {
        links,
        queues,
        pipes,
    } = seen;
    let (before, after) = moments(links.moments, queues, pipes);
    difference(alloc, happened, &before, &after)
}

impl Watch {
    /// What is known before the first event.
    pub(crate) fn new(
        alloc: Global,
        catalogue: &Catalogue,
        world: &World<'_>,
    ) -> Result<Watch, NoMemory>
        requires { (g : Input) × Calm world.now g [] }
        ensures { IfOk result (λ watch. (g : Input) → Calm world.now g []
            → catalogue.now ≡ g.catalogue → Watches g [] watch) }
    {
        catalogue.law_is_sound();
        let tms = catalogue.tms();
        let dms = catalogue.dms();
        let sites = all_sites(alloc, tms, dms)?;
        let links = first_links(alloc, sites.as_slice())?;
        let queues = all_queues(alloc, world)?;
        let pipes = first_pipes(alloc, catalogue)?;
        Ok(Watch {
            alloc,
            sites,
            links,
            queues,
            pipes,
            records: 0,
            commits: Commits::new(alloc),
            dones: Dones::new(alloc),
        })
    }

    /// What an event changed that is carried out.
    pub(crate) fn look(
        &mut self,
        world: &World<'_>,
        turn: Turn,
        found: Found,
    ) -> Result<Delta, NoMemory>
        requires { (g : Input) × (old : Log) × (new : Log)
            × IsOver g old new world.now turn.event found × IsTurn g old new turn
            × Watches g old self.old }
        ensures delta { IfOk result (λ delta. (g : Input) (old new : Log)
            → IsOver g old new world.now turn.event found → IsTurn g old new turn
            → Watches g old self.old → delta ≡ change g old new) }
        ensures kept { OnOk result ((g : Input) (old new : Log)
            → IsOver g old new world.now turn.event found → IsTurn g old new turn
            → Watches g old self.old → Watches g new self.new) }
    {
        let reach = reach_of(world, &turn.event, &found);
        let seen = self.look_at_parts(world, &turn.event, &found, reach)?;
        let home = home_in(reach);
        let arrived = seen.links.arrived.as_slice();
        let happened = self.describe_event(world, turn, found, home, arrived)?;
        changed(self.alloc, happened, seen)
    }

    /// Looks at the links, queues and pipes that an event may have changed, once it is carried out.
    fn look_at_parts(
        &mut self,
        world: &World<'_>,
        event: &Event,
        found: &Found,
        reach: Reach,
    ) -> Result<Seen, NoMemory>
        requires { (g : Input) × (old : Log) × (new : Log)
            × IsOver g old new world.now event.now found.now
            × (reach ≡ reach_of g new event.now found.now) × Watches g old self.old }
        ensures seen { IfOk result (λ seen. (g : Input) (old new : Log)
            → IsOver g old new world.now event.now found.now
            → reach ≡ reach_of g new event.now found.now → Watches g old self.old
            → IsSeen g old new seen) }
        ensures kept { OnOk result ((g : Input) (old new : Log)
            → IsOver g old new world.now event.now found.now
            → reach ≡ reach_of g new event.now found.now → Watches g old self.old
            → HasLooked g old new self.new) }
    {
        let tms = world.whole().tms();
        let links = look_at_links(self.alloc, world, event, found, reach, tms, &mut self.links)?;
        let moved = have_moved(world.history().as_slice(), self.records);
        let queues = look_at_queues(self.alloc, world, moved, reach, &mut self.queues)?;
        let pipes = look_at_pipes(
            self.alloc,
            world,
            reach,
            links.arrived.as_slice(),
            &mut self.pipes,
        )?;
        Ok(Seen {
            links,
            queues,
            pipes,
        })
    }

    /// What happened at an event that is carried out and gives a transaction, if any, to `home`, where
    /// these messages were handed over.
    fn describe_event(
        &mut self,
        world: &World<'_>,
        turn: Turn,
        found: Found,
        home: Site,
        arrived: &[Arrived],
    ) -> Result<Happened, NoMemory>
        requires { (g : Input) × (old : Log) × (new : Log)
            × IsOver g old new world.now turn.event found × Knows g old self.old
            × (home ≡ given_to g new turn.event) × (arrived.now ≡ arrived_between g old new) }
        ensures happened { IfOk result (λ happened. (g : Input) (old new : Log)
            → IsOver g old new world.now turn.event found → IsTurn g old new turn
            → Knows g old self.old → home ≡ given_to g new turn.event
            → arrived.now ≡ arrived_between g old new → happened ≡ happened_at g old new) }
        ensures kept { OnOk result ((g : Input) (old new : Log)
            → IsOver g old new world.now turn.event found → Knows g old self.old
            → arrived.now ≡ arrived_between g old new → Knows g new self.new) }
        ensures others { OnOk result (self.new ≡ record self.old {
          records = self.new.records;
          commits = self.new.commits;
          dones = self.new.dones;
        }) }
    {
        self.dones.note(arrived)?;
        let busy = busy(
            self.alloc,
            &turn.event,
            &found,
            home,
            arrived,
            self.sites.as_slice(),
        )?;
        let states = states(self.alloc, world, &self.dones, busy.as_slice())?;
        let rows = self.rows(world)?;
        Ok(Happened {
            number: world.events(),
            scheduled: turn.scheduled,
            round: turn.round,
            event: turn.event,
            found,
            rows: Listed::from_vec(rows),
            sites: Listed::from_vec(states),
        })
    }

    /// The rows of the items to which changes were applied.
    fn rows(&mut self, world: &World<'_>) -> Result<Vec<RowDelta>, NoMemory>
        requires { (g : Input) × (old : Log) × (new : Log) × Calm world.now g new
            × IsBetween g old new × (self.old.records ≡ length (history old))
            × AreCommits (history old) self.old.commits }
        ensures rows { IfOk result (λ rows. (g : Input) (old new : Log) → Calm world.now g new
            → IsBetween g old new → self.old.records ≡ length (history old)
            → AreCommits (history old) self.old.commits → rows.items ≡ rows_of g old new) }
        ensures records { OnOk result ((g : Input) (log : Log) → Calm world.now g log
            → self.new.records ≡ length (history log)) }
        ensures commits { OnOk result ((g : Input) (old new : Log) → Calm world.now g new
            → IsBetween g old new → self.old.records ≡ length (history old)
            → AreCommits (history old) self.old.commits
            → AreCommits (history new) self.new.commits) }
        ensures others { OnOk result (self.new ≡ record self.old {
          records = self.new.records;
          commits = self.new.commits;
        }) }
    {
        let records = world.history().as_slice();
        self.commits.note_from(records, self.records)?;
        let rows = rows_from(self.alloc, world, &self.commits, self.records)?;
        self.records = records.len();
        Ok(rows)
    }
}
