//! The events of a schedule, carried out one by one before an observer.
ghost use Rattle.std.specs.Prelude.{◌≡◌, ◌+◌, ◌^◌, ◌<◌, List, [], ◌∷◌, suc, length, IfOk, OnOk, IsErrOf};
ghost use Rattle.sdd_world.specs.Represents.{EndsBy, Represents};
ghost use Rattle.sdd_world.specs.needs.All.{Event as Happening, Input, IsGood, IsPossible, Log, Redeclare, TakesRounds, marks, with_event};
ghost use Rattle.sdd_schedule.specs.Schedules.{AreAllowed, IsAllowed, lists_after, with_events};
ghost use Rattle.sdd_schedule.specs.SoFar.{AfterRounds, IsFollowed, WithinRound};

use crate::observer::Observer;
use crate::turn::Turn;
use sdd_world::{Catalogue, Event, Table, World, WorldEnd};
use std::collections::VecDeque;

/// A class list as it is put in force: the catalogue that has them, with its protocol table.
#[derive(Clone, Copy)]
pub struct ClassList<'a> {
    pub catalogue: &'a Catalogue,
    pub table: &'a Table,
}

/// Carries out an event of the schedule that is no settle and no redeclare. It has this place in the
/// schedule.
fn step<'a, O: Observer>(
    world: &mut World<'a>,
    event: &Event,
    place: u32,
    observer: &mut O,
) -> Result<(), WorldEnd>
    requires { (g : Input) × (log : Log) × IsFollowed world.old (O.follows observer.old) g log place
        × IsPossible g event.now × IsGood (with_event g event.now) }
    ensures log { OnOk result ((g : Input) (log : Log)
        → IsFollowed world.old (O.follows observer.old) g log place → IsPossible g event.now
        → IsGood (with_event g event.now)
        → (more : Log) × IsFollowed world.new (O.follows observer.new) (with_event g event.now) more (suc place)) }
    ensures limit { IsErrOf result WorldEnd.Limit → (g : Input) (log : Log)
        → IsFollowed world.old (O.follows observer.old) g log place → IsPossible g event.now
        → IsGood (with_event g event.now) → EndsBy (with_event g event.now) }
{
    observer.look_before(world, event);
    observer.law_given();
    world.add_event(event)?;
    let turn = Turn {
        event: *event,
        scheduled: place,
        round: None,
    };
    observer.look_after(world, turn)?;
    Ok(())
}

/// Carries out the next event of a round.
fn in_round<'a, O: Observer>(
    world: &mut World<'a>,
    event: Event,
    place: u32,
    number: u32,
    observer: &mut O,
) -> Result<(), WorldEnd>
    requires { (g : Input) × (log : Log) × (e : Happening) × (rest : List Happening)
        × WithinRound world.old (O.follows observer.old) g log e (event ∷ rest) place number }
    ensures log { OnOk result ((g : Input) (log : Log) (e : Happening) (rest : List Happening)
        → WithinRound world.old (O.follows observer.old) g log e (event ∷ rest) place number
        → (more : Log) × WithinRound world.new (O.follows observer.new) g more e rest place number
        × (marks more ≡ suc (marks log))) }
    ensures limit { IsErrOf result WorldEnd.Limit → (g : Input) (log : Log) (e : Happening)
        (rest : List Happening)
        → WithinRound world.old (O.follows observer.old) g log e (event ∷ rest) place number → EndsBy g }
{
    observer.look_before(world, &event);
    world.in_round(&event)?;
    let round = number + 1;
    let turn = Turn {
        event,
        scheduled: place,
        round: Some(round),
    };
    observer.look_after(world, turn)?;
    Ok(())
}

/// Carries out the events of a round after so many others.
fn round<'a, O: Observer>(
    world: &mut World<'a>,
    events: Vec<Event>,
    place: u32,
    number: u32,
    observer: &mut O,
) -> Result<(), WorldEnd>
    requires { (g : Input) × (log : Log) × (e : Happening)
        × WithinRound world.old (O.follows observer.old) g log e events.items place number }
    ensures log { OnOk result ((g : Input) (log : Log) (e : Happening)
        → WithinRound world.old (O.follows observer.old) g log e events.items place number
        → (more : Log) × WithinRound world.new (O.follows observer.new) g more e [] place number
        × (marks more ≡ marks log + length events.items)) }
    ensures limit { IsErrOf result WorldEnd.Limit → (g : Input) (log : Log) (e : Happening)
        → WithinRound world.old (O.follows observer.old) g log e events.items place number → EndsBy g }
{
    let mut left = VecDeque::from_vec(events);
    while let Some(event) = left.pop_front() {
        in_round(world, event, place, number, observer)?;
    }
    Ok(())
}

/// Carries out rounds until nothing is in flight and everything is acknowledged.
fn rounds<'a, O: Observer>(
    world: &mut World<'a>,
    event: Event,
    place: u32,
    observer: &mut O,
) -> Result<(), WorldEnd>
    requires { (g : Input) × (log : Log) × IsFollowed world.old (O.follows observer.old) g log place
        × TakesRounds event × IsGood (with_event g event) }
    ensures log { OnOk result ((g : Input) (log : Log)
        → IsFollowed world.old (O.follows observer.old) g log place → TakesRounds event
        → IsGood (with_event g event)
        → AfterRounds world.new (O.follows observer.new) (with_event g event) event place) }
    ensures limit { IsErrOf result WorldEnd.Limit → (g : Input) (log : Log)
        → IsFollowed world.old (O.follows observer.old) g log place → TakesRounds event
        → IsGood (with_event g event) → EndsBy (with_event g event) }
{
    observer.law_given();
    world.begin_rounds(event)?;
    let mut number: u32 = 0;
    'rounds: while let Some(events) = world.next_round()? {
        observer.law_round();
        round(world, events, place, number, observer)?;
        number += 1;
    }
    Ok(())
}

/// Puts the first of these class lists in force, after its rounds.
fn redeclare<'a, O: Observer>(
    world: &mut World<'a>,
    place: u32,
    lists: &mut VecDeque<ClassList<'a>>,
    observer: &mut O,
) -> Result<(), WorldEnd>
    requires { (g : Input) × (log : Log) × IsFollowed world.old (O.follows observer.old) g log place
        × IsAllowed g Redeclare lists.old.items }
    ensures log { OnOk result ((g : Input) (log : Log)
        → IsFollowed world.old (O.follows observer.old) g log place
        → IsAllowed g Redeclare lists.old.items
        → (more : Log) × IsFollowed world.new (O.follows observer.new) (with_event g Redeclare) more (suc place)) }
    ensures limit { IsErrOf result WorldEnd.Limit → (g : Input) (log : Log)
        → IsFollowed world.old (O.follows observer.old) g log place
        → IsAllowed g Redeclare lists.old.items → EndsBy (with_event g Redeclare) }
    ensures others { OnOk result (lists.new.items ≡ lists_after Redeclare lists.old.items) }
{
    rounds(world, Event::Redeclare, place, observer)?;
    match lists.pop_front() {
        Some(first) => {
            observer.look_before(world, &Event::Redeclare);
            world.end_redeclare(first.catalogue, first.table)?;
            let turn = Turn {
                event: Event::Redeclare,
                scheduled: place,
                round: None,
            };
            observer.look_after(world, turn)?;
            Ok(())
        }
        None => unreachable!(),
    }
}

/// Carries out the event at this place of the schedule.
fn carry_out_one<'a, O: Observer>(
    world: &mut World<'a>,
    event: &Event,
    place: u32,
    lists: &mut VecDeque<ClassList<'a>>,
    observer: &mut O,
) -> Result<(), WorldEnd>
    requires { (g : Input) × (log : Log) × IsFollowed world.old (O.follows observer.old) g log place
        × IsAllowed g event.now lists.old.items }
    ensures log { OnOk result ((g : Input) (log : Log)
        → IsFollowed world.old (O.follows observer.old) g log place
        → IsAllowed g event.now lists.old.items
        → (more : Log) × IsFollowed world.new (O.follows observer.new) (with_event g event.now) more (suc place)) }
    ensures limit { IsErrOf result WorldEnd.Limit → (g : Input) (log : Log)
        → IsFollowed world.old (O.follows observer.old) g log place
        → IsAllowed g event.now lists.old.items → EndsBy (with_event g event.now) }
    ensures others { OnOk result (lists.new.items ≡ lists_after event.now lists.old.items) }
{
    match event {
        Event::Settle => rounds(world, Event::Settle, place, observer),
        Event::Redeclare => redeclare(world, place, lists, observer),
        _ => step(world, event, place, observer),
    }
}

/// Carries out the events of a schedule, in order, in place.
fn carry_out_all<'a, O: Observer>(
    world: &mut World<'a>,
    events: Vec<Event>,
    lists: Vec<ClassList<'a>>,
    observer: &mut O,
) -> Result<(), WorldEnd>
    requires { (g : Input) × (log : Log) × IsFollowed world.old (O.follows observer.old) g log 1
        × AreAllowed g events.items lists.items × (length events.items < 2 ^ 32) }
    ensures log { OnOk result ((g : Input) (log : Log)
        → IsFollowed world.old (O.follows observer.old) g log 1
        → AreAllowed g events.items lists.entry.items
        → (more : Log) × Represents world.new (with_events g events.items) more
        × O.follows observer.new (with_events g events.items) more) }
    ensures limit { IsErrOf result WorldEnd.Limit → (g : Input) (log : Log)
        → IsFollowed world.old (O.follows observer.old) g log 1
        → AreAllowed g events.items lists.entry.items
        → EndsBy (with_events g events.items) }
{
    let mut left = VecDeque::from_vec(events);
    let mut further = VecDeque::from_vec(lists);
    let mut place: u32 = 0;
    while let Some(event) = left.pop_front() {
        place += 1;
        carry_out_one(world, &event, place, &mut further, observer)?;
    }
    Ok(())
}

/// Carries out the events of a schedule, in order, before an observer. Each `Redeclare` among them
/// puts the next of the class lists in force. Nothing was given before them: the places in the
/// schedule are counted from its first event.
///
/// Costs what the events cost (each packet that is delivered, each message that is handed over with
/// all that it makes due) and what the observer does.
///
/// # Errors
///
/// Where an event, or a message of a link, would pass the limit, and where memory runs out.
pub fn carry_out<'a, O: Observer>(
    mut world: World<'a>,
    events: Vec<Event>,
    lists: Vec<ClassList<'a>>,
    observer: &mut O,
) -> Result<World<'a>, WorldEnd>
    requires { (g : Input) × (log : Log) × Represents world g log × O.follows observer.old g log
        × (g.events ≡ []) × AreAllowed g events.items lists.items × (length events.items < 2 ^ 32) }
    ensures log { IfOk result (λ last. (g : Input) (log : Log) → Represents world.entry g log
        → O.follows observer.old g log → g.events ≡ []
        → AreAllowed g events.items lists.entry.items
        → (more : Log) × Represents last (with_events g events.items) more
        × O.follows observer.new (with_events g events.items) more) }
    ensures limit { IsErrOf result WorldEnd.Limit → (g : Input) (log : Log)
        → Represents world.entry g log → O.follows observer.old g log → g.events ≡ []
        → AreAllowed g events.items lists.entry.items
        → EndsBy (with_events g events.items) }
{
    carry_out_all(&mut world, events, lists, observer)?;
    Ok(world)
}
