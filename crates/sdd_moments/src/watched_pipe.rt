//! Pipes of data modules, as they stood when an event was over.
ghost use Rattle.std.specs.Prelude.{◌≡◌, ◌==◌, ◌&&◌, ◌≤◌, ◌++◌, ◌+◌, ◌-◌, ◌∷◌, [], ℕ, cond, false, filter_map, find, length, map, not, IfOk, OnOk};
ghost use Rattle.std.specs.List.{list_any};
ghost use Rattle.std.specs.Option.{option_copied};
ghost use Rattle.sdd_progress.specs.obligations.All.{D, Input, IsSiteOf, Log, dm_no, numbers_to, same_site, time_at};
ghost use Rattle.sdd_progress.specs.obligations.base.Words.{is_empty};
ghost use Rattle.sdd_progress.specs.obligations.dm.Due.{or_zero};
ghost use Rattle.sdd_progress.specs.obligations.pipe.Digest as digest;
ghost use Rattle.sdd_progress.specs.obligations.pipe.Pipes.{pipe_at};
ghost use Rattle.sdd_schedule.specs.world.Represents.{Calm};
ghost use Rattle.sdd_moments.specs.Awaiting.{number_for};
ghost use Rattle.sdd_moments.specs.Looking.{ArePipesSeen, messages_in, numbers_for};
ghost use Rattle.sdd_moments.specs.Moments.{pipes_at_module, source};
ghost use Rattle.sdd_moments.specs.Reaching.{is_to, reach_between};
ghost use Rattle.sdd_moments.specs.Changes.{IsBetween, arrived as all_arrived, changed_pipes, is_changed_pipe, is_on, is_still_pipe, pipe_after, pipe_before, watched_pipe, watched_pipes};

use crate::at_site::AtSite;
use crate::both::Both;
use crate::places::is_same;
use crate::reach::{Reach, actor};
use crate::waiting::Purpose;
use crate::watched_link::{Arrived, is_reached};
use sdd_inside::PipeMoment;
use sdd_progress::{Catalogue, ClassNo, DmNo, Listed, NoMemory, Site, Ts};
use sdd_schedule::{DataModule, World};
use std::alloc::Global;

/// The pipe of a class at a data module, as it stood when the last event was over.
#[derive(Drop)]
pub struct WatchedPipe {
    pub(crate) dm: DmNo,
    pub(crate) class: ClassNo,
    /// The site that runs the class.
    pub(crate) source: Site,
    /// How many messages in it weren't processed.
    pub(crate) unprocessed: usize,
}

/// Adds the number of a message, where it goes through the pipe of a class.
fn add_number(
    message: &(u32, Purpose),
    class: ClassNo,
    numbers: &mut Vec<u32>,
) -> Result<(), NoMemory>
    ensures { OnOk result (numbers.new.items
        ≡ numbers.old.items ++ filter_map (number_for class.0) (message.now ∷ [])) }
{
    match message.1 {
        Purpose::Piped(own) => {
            if own.0 == class.0 {
                numbers.push(message.0)?;
            }
            Ok(())
        }
        Purpose::Applied(_) => Ok(()),
    }
}

/// The numbers of those messages that go through the pipe of a class.
#[tactic(auto, using(crate::proofs::Loops::filtered_more, crate::proofs::Loops::filtered_end))]
fn numbers_among(
    alloc: Global,
    messages: &[(u32, Purpose)],
    class: ClassNo,
) -> Result<Vec<u32>, NoMemory>
    ensures { IfOk result (λ numbers. numbers.items ≡ filter_map (number_for class.0) messages.now) }
{
    let mut numbers = Vec::new(alloc);
    'messages: for message in messages {
        add_number(message, class, &mut numbers)?;
    }
    Ok(numbers)
}

fn is_on(one: &Arrived, from: Site, to: Site) -> bool
    ensures { result ≡ is_on from to one.now }
{
    is_same(one.from, from) && is_same(one.to, to)
}

/// What was handed over on a link.
fn find_on<'a>(arrived: &'a [Arrived], from: Site, to: Site) -> Option<&'a Arrived>
    ensures { option_copied result ≡ find (is_on from to) arrived.now }
{
    arrived.iter().find(|one| is_on(one, from, to))
}

/// The messages that were handed over on a link.
#[tactic(auto, using(crate::proofs::Found::messages_of_one, crate::proofs::Found::messages_of_none))]
fn messages_on<'a>(arrived: &'a [Arrived], from: Site, to: Site) -> &'a [(u32, Purpose)]
    ensures { result.now ≡ messages_in (find (is_on from to) arrived.now) }
{
    match find_on(arrived, from, to) {
        Some(one) => one.messages.as_slice(),
        None => &[],
    }
}

/// Of the messages that were handed over on a link the numbers of those that go through the pipe of
/// a class.
#[tactic(auto, using(crate::proofs::Found::numbers_of))]
fn numbers_on(
    alloc: Global,
    arrived: &[Arrived],
    from: Site,
    to: Site,
    class: ClassNo,
) -> Result<Vec<u32>, NoMemory>
    ensures { IfOk result (λ numbers. numbers.items ≡ numbers_for from to class.0 arrived.now) }
{
    let numbers = numbers_among(alloc, messages_on(arrived, from, to), class)?;
    Ok(numbers)
}

/// The greatest time that a class has passed at a data module, 0 before it passed one.
fn passed_to(dm_module: &DataModule, class: ClassNo) -> Ts
    ensures { result ≡ time_at (or_zero (digest.passed_to (pipe_at dm_module.now.value.pipes class.0))) }
{
    match dm_module.passed_to(class) {
        Some(ts) => ts,
        None => Ts(0),
    }
}

/// How many messages were processed, where so many weren't before, these came, and so many aren't
/// after the event.
fn count_processed(before: usize, came: &[u32], left: usize) -> Result<u64, NoMemory>
    ensures { IfOk result (λ count. count ≡ (before + length came.now) - left) }
{
    let all = before.checked_add(came.len()).ok_or(NoMemory)?;
    Ok(all.saturating_sub(left) as u64)
}

/// Whether nothing came to a pipe and as many messages are unprocessed as before.
fn is_quiet(before: usize, came: &[u32], left: usize) -> bool
    ensures { result ≡ (is_empty came.now && before == left) }
{
    came.is_empty() && before == left
}

/// Whether a message was handed over that comes from a site.
fn comes_from(arrived: &[Arrived], at: Site) -> bool
    ensures { result ≡ list_any (λ one. same_site one.from at) arrived.now }
{
    arrived.iter().any(|one| is_same(one.from, at))
}

impl WatchedPipe {
    /// Whether all messages in the pipe were processed, and none was handed over that comes from its
    /// source.
    fn is_idle(&self, arrived: &[Arrived]) -> bool
        ensures { result ≡ (self.now.unprocessed == 0
            && not (list_any (λ one. same_site one.from self.now.source) arrived.now)) }
    {
        self.unprocessed == 0 && !comes_from(arrived, self.source)
    }

    /// Looks at the pipe once an event is carried out, where these messages were handed over.
    fn look(
        &mut self,
        alloc: Global,
        world: &World<'_>,
        arrived: &[Arrived],
        parts: &mut Both<PipeMoment>,
    ) -> Result<(), NoMemory>
        requires { (g : Input) × (log : Log) × Calm world.now g log × IsSiteOf g (D self.old.dm) }
        ensures kept { OnOk result ((g : Input) (old new : Log) → Calm world.now g new
            → IsBetween g old new → arrived.now ≡ all_arrived g old new
            → (d c : ℕ) → IsSiteOf g (D (dm_no d)) → c ≤ length g.catalogue.classes
            → self.old ≡ watched_pipe g old (d, c) → self.new ≡ watched_pipe g new (d, c)) }
        ensures before { OnOk result ((g : Input) (old new : Log) → Calm world.now g new
            → IsBetween g old new → arrived.now ≡ all_arrived g old new
            → (d c : ℕ) → IsSiteOf g (D (dm_no d)) → c ≤ length g.catalogue.classes
            → self.old ≡ watched_pipe g old (d, c)
            → parts.new.before.items ≡ parts.old.before.items
            ++ cond (is_changed_pipe g old new (d, c)) (pipe_before g old new (d, c) ∷ []) []) }
        ensures after { OnOk result ((g : Input) (old new : Log) → Calm world.now g new
            → IsBetween g old new → arrived.now ≡ all_arrived g old new
            → (d c : ℕ) → IsSiteOf g (D (dm_no d)) → c ≤ length g.catalogue.classes
            → self.old ≡ watched_pipe g old (d, c)
            → parts.new.after.items ≡ parts.old.after.items
            ++ cond (is_changed_pipe g old new (d, c)) (pipe_after g old new (d, c) ∷ []) []) }
    {
        if self.is_idle(arrived) {
            return Ok(());
        }
        let sites = world.sites();
        let module = sites.data_module(self.dm);
        let unprocessed = module.count_unprocessed(self.class);
        let came = numbers_on(alloc, arrived, self.source, Site::D(self.dm), self.class)?;
        if is_quiet(self.unprocessed, came.as_slice(), unprocessed) {
            return Ok(());
        }
        let passed = passed_to(module, self.class);
        let processed = count_processed(self.unprocessed, came.as_slice(), unprocessed)?;
        let before = self.moment(Vec::new(alloc), 0, passed);
        let after = self.moment(came, processed, passed);
        self.unprocessed = unprocessed;
        add_changed(parts, before, after)?;
        Ok(())
    }

    /// The pipe, with what came and was processed.
    fn moment(&self, came: Vec<u32>, processed: u64, passed: Ts) -> PipeMoment
        ensures { result ≡ record {
          dm = self.now.dm;
          class = self.now.class;
          came = came.items;
          processed = processed;
          passed = passed;
        } }
    {
        PipeMoment {
            dm: self.dm,
            class: self.class,
            came: Listed::from_vec(came),
            processed,
            passed,
        }
    }
}

/// Whether nothing came and nothing was processed.
fn is_still_pipe(after: &PipeMoment) -> bool
    ensures { result ≡ is_still_pipe after.now }
{
    match after.came.as_slice() {
        [] => after.processed == 0,
        _ => false,
    }
}

/// Adds the moments of a pipe, where something is reported of it.
fn add_changed(
    parts: &mut Both<PipeMoment>,
    before: PipeMoment,
    after: PipeMoment,
) -> Result<(), NoMemory>
    ensures before { OnOk result (parts.new.before.items
        ≡ parts.old.before.items ++ cond (not (is_still_pipe after)) (before ∷ []) []) }
    ensures after { OnOk result (parts.new.after.items
        ≡ parts.old.after.items ++ cond (not (is_still_pipe after)) (after ∷ []) []) }
{
    if is_still_pipe(&after) {
        return Ok(());
    }
    parts.add(before, after)
}

/// The site that runs a class.
fn source(catalogue: &Catalogue, class: u32) -> Site
    requires { class ≤ length catalogue.now.classes }
    ensures { (g : Input) → catalogue.now ≡ g.catalogue → (d : ℕ) → result ≡ source g d class }
{
    if class == 0 {
        Site::U
    } else {
        Site::T(catalogue.class(ClassNo(class)).tm)
    }
}

/// The pipes of a data module, to which nothing came.
fn first_pipes_at(
    alloc: Global,
    catalogue: &Catalogue,
    dm: DmNo,
) -> Result<AtSite<WatchedPipe>, NoMemory>
    ensures { IfOk result (λ pipes. (g : Input) → catalogue.now ≡ g.catalogue
        → pipes ≡ watched_pipes g [] dm.0) }
{
    catalogue.law_is_sound();
    let mut pipes = Vec::new(alloc);
    for class in 0..catalogue.classes() + 1 {
        pipes.push(WatchedPipe {
            dm,
            class: ClassNo(class),
            source: source(catalogue, class),
            unprocessed: 0,
        })?;
    }
    Ok(AtSite {
        at: Site::D(dm),
        parts: pipes,
    })
}

/// The pipes of all data modules, before the first event, by data module. Out of memory is its one
/// error. Steps: the data modules times the classes.
pub fn first_pipes(
    alloc: Global,
    catalogue: &Catalogue,
) -> Result<Vec<AtSite<WatchedPipe>>, NoMemory>
    ensures { IfOk result (λ pipes. (g : Input) → catalogue.now ≡ g.catalogue
        → pipes.items ≡ map (watched_pipes g []) (numbers_to g.catalogue.dms)) }
{
    catalogue.law_is_sound();
    let mut pipes = Vec::new(alloc);
    for number in 1..catalogue.dms() + 1 {
        pipes.push(first_pipes_at(alloc, catalogue, DmNo(number as u8))?)?;
    }
    Ok(pipes)
}

/// Looks at the pipes of a data module, where these messages were handed over.
fn look_at_pipes_of(
    alloc: Global,
    world: &World<'_>,
    arrived: &[Arrived],
    pipes: &mut [WatchedPipe],
    parts: &mut Both<PipeMoment>,
) -> Result<(), NoMemory>
    requires { (g : Input) × (old : Log) × (new : Log) × (d : ℕ) × Calm world.now g new
        × IsSiteOf g (D (dm_no d)) × (pipes.old ≡ map (watched_pipe g old) (pipes_at_module g d)) }
    ensures kept { OnOk result ((g : Input) (old new : Log) (d : ℕ) → Calm world.now g new
        → IsBetween g old new → arrived.now ≡ all_arrived g old new → IsSiteOf g (D (dm_no d))
        → pipes.old ≡ map (watched_pipe g old) (pipes_at_module g d)
        → pipes.new ≡ map (watched_pipe g new) (pipes_at_module g d)) }
    ensures seen { OnOk result ((g : Input) (old new : Log) (d : ℕ) → Calm world.now g new
        → IsBetween g old new → arrived.now ≡ all_arrived g old new → IsSiteOf g (D (dm_no d))
        → pipes.old ≡ map (watched_pipe g old) (pipes_at_module g d)
        → ArePipesSeen g old new (pipes_at_module g d) parts.old parts.new) }
{
    for pipe in pipes.iter_mut() {
        pipe.look(alloc, world, arrived, parts)?;
    }
    Ok(())
}

/// Looks at the pipes of a data module, where one of these messages was handed over to it.
fn look_at_module(
    alloc: Global,
    world: &World<'_>,
    arrived: &[Arrived],
    pipes: &mut AtSite<WatchedPipe>,
    parts: &mut Both<PipeMoment>,
) -> Result<(), NoMemory>
    requires { (g : Input) × (old : Log) × (new : Log) × (d : ℕ) × Calm world.now g new
        × IsSiteOf g (D (dm_no d)) × (pipes.old ≡ watched_pipes g old d) }
    ensures kept { OnOk result ((g : Input) (old new : Log) (d : ℕ) → Calm world.now g new
        → IsBetween g old new → arrived.now ≡ all_arrived g old new → IsSiteOf g (D (dm_no d))
        → pipes.old ≡ watched_pipes g old d → pipes.new ≡ watched_pipes g new d) }
    ensures seen { OnOk result ((g : Input) (old new : Log) (d : ℕ) → Calm world.now g new
        → IsBetween g old new → arrived.now ≡ all_arrived g old new → IsSiteOf g (D (dm_no d))
        → pipes.old ≡ watched_pipes g old d
        → ArePipesSeen g old new (pipes_at_module g d) parts.old parts.new) }
{
    if !is_reached(arrived, pipes.at) {
        return Ok(());
    }
    look_at_pipes_of(alloc, world, arrived, &mut pipes.parts, parts)?;
    Ok(())
}

/// The place of a data module among all, counted from 0, where the site is one; else one past all.
fn place_among_dms(at: Option<Site>) -> usize
    ensures { (d : ℕ) → 1 ≤ d → (d ≡ result + 1 → ⊥) → is_to at (D (dm_no d)) ≡ false }
{
    match at {
        Some(Site::D(dm)) => dm.0.saturating_sub(1) as usize,
        _ => usize::MAX,
    }
}

/// Looks at the pipes of the data module that may have acted, where these messages were handed over.
/// The moments are of the pipes of which something is reported. Out of memory is its one error, after
/// which the list of pipes is of no use. Steps: the pipes of one data module, for each the messages
/// that were handed over.
pub fn look_at_pipes(
    alloc: Global,
    world: &World<'_>,
    reach: Reach,
    arrived: &[Arrived],
    pipes: &mut [AtSite<WatchedPipe>],
) -> Result<Both<PipeMoment>, NoMemory>
    requires { (g : Input) × (old : Log) × (new : Log) × Calm world.now g new
        × (pipes.old ≡ map (watched_pipes g old) (numbers_to g.catalogue.dms)) }
    ensures before { IfOk result (λ parts. (g : Input) (old new : Log) → Calm world.now g new
        → IsBetween g old new → reach ≡ reach_between g old new → arrived.now ≡ all_arrived g old new
        → pipes.old ≡ map (watched_pipes g old) (numbers_to g.catalogue.dms)
        → parts.before.items ≡ map (pipe_before g old new) (changed_pipes g old new)) }
    ensures after { IfOk result (λ parts. (g : Input) (old new : Log) → Calm world.now g new
        → IsBetween g old new → reach ≡ reach_between g old new → arrived.now ≡ all_arrived g old new
        → pipes.old ≡ map (watched_pipes g old) (numbers_to g.catalogue.dms)
        → parts.after.items ≡ map (pipe_after g old new) (changed_pipes g old new)) }
    ensures kept { OnOk result ((g : Input) (old new : Log) → Calm world.now g new
        → IsBetween g old new → reach ≡ reach_between g old new → arrived.now ≡ all_arrived g old new
        → pipes.old ≡ map (watched_pipes g old) (numbers_to g.catalogue.dms)
        → pipes.new ≡ map (watched_pipes g new) (numbers_to g.catalogue.dms)) }
{
    let mut parts = Both::new(alloc);
    let place = place_among_dms(actor(reach));
    if place >= pipes.len() {
        return Ok(parts);
    }
    look_at_module(alloc, world, arrived, &mut pipes[place], &mut parts)?;
    Ok(parts)
}
