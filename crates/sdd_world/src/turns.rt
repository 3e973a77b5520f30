//! Events, carried out one by one in place: those of a schedule, and those of the rounds of a settle
//! or a redeclare.
ghost use Rattle.std.specs.Prelude.{◌≡◌, ◌∷◌, List, suc, true, false, IfOk, OnOk, IsErrOf, MatchOption};
ghost use Rattle.sdd_sites.specs.needs.All.{Event as Happening, Input, IsGood, IsPossible, Log, Redeclare, Round, TakesRounds, all_links, calls_of, quiet, with_event};
ghost use Rattle.sdd_world.specs.Represents.{EndsBy, IsNextList, IsSettled, Represents, Rounding, Settling, events_of};

use crate::world::World;
use sdd_base::{Event, NoMemory};
use sdd_catalog::Catalogue;
use sdd_sites::{Table, WorldEnd};

impl<'a> World<'a> {
    /// Carries out an event, which is added to those that were given. It is no `Settle` and no
    /// `Redeclare`, and what it names exists.
    ///
    /// # Errors
    ///
    /// Where an event, or a message of a link, would pass the limit, and where memory runs out;
    /// the world is gone then.
    pub fn add_event(&mut self, event: &Event) -> Result<(), WorldEnd>
        requires { (g : Input) × (log : Log) × Represents self.old g log × IsPossible g event.now
            × IsGood (with_event g event.now) }
        ensures log { OnOk result ((g : Input) (log : Log) → Represents self.old g log
            → IsPossible g event.now → IsGood (with_event g event.now)
            → (more : Log) × Represents self.new (with_event g event.now) more) }
        ensures limit { IsErrOf result WorldEnd.Limit → (g : Input) (log : Log)
            → Represents self.old g log → IsPossible g event.now → IsGood (with_event g event.now)
            → EndsBy (with_event g event.now) }
    {
        self.given.push(*event)?;
        self.apply_event(event)
    }

    /// Adds a `Settle` or a `Redeclare` to the events that were given: rounds are next, until the
    /// links are quiet.
    ///
    /// # Errors
    ///
    /// Only where memory runs out; the world is gone then.
    pub fn begin_rounds(&mut self, event: Event) -> Result<(), NoMemory>
        requires { (g : Input) × (log : Log) × Represents self.old g log × TakesRounds event
            × IsGood (with_event g event) }
        ensures { OnOk result ((g : Input) (log : Log) → Represents self.old g log
            → TakesRounds event → IsGood (with_event g event)
            → Settling self.new (with_event g event) log event) }
    {
        self.given.push(event)?;
        Ok(())
    }

    /// The events of the next round; None exactly where nothing is in flight and everything is
    /// acknowledged.
    pub fn next_round(&self) -> Result<Option<Vec<Event>>, NoMemory>
        requires { (g : Input) × (log : Log) × (e : Happening) × Settling self.now g log e }
        ensures { IfOk result (λ round. (g : Input) (log : Log) (e : Happening)
            → Settling self.now g log e → MatchOption round
            (quiet (all_links g) (calls_of log) ≡ true)
            (λ events. (quiet (all_links g) (calls_of log) ≡ false)
            × Rounding self.now g (Round events.items ∷ log) e events.items)) }
    {
        if self.quiet() {
            return Ok(None);
        }
        let events = self.net.round()?;
        Ok(Some(events))
    }

    /// Carries out the next event of a round.
    ///
    /// # Errors
    ///
    /// As of `add_event`.
    pub fn in_round(&mut self, event: &Event) -> Result<(), WorldEnd>
        requires { (g : Input) × (log : Log) × (e : Happening) × (rest : List Happening)
            × Rounding self.old g log e (event.now ∷ rest) }
        ensures log { OnOk result ((g : Input) (log : Log) (e : Happening)
            (rest : List Happening) → Rounding self.old g log e (event.now ∷ rest)
            → (more : Log) × Rounding self.new g more e rest) }
        ensures one { OnOk result (events_of self.new ≡ suc (events_of self.old)) }
        ensures limit { IsErrOf result WorldEnd.Limit → (g : Input) (log : Log) (e : Happening)
            (rest : List Happening) → Rounding self.old g log e (event.now ∷ rest) → EndsBy g }
    {
        self.apply_event(event)
    }

    /// Puts a class list in force with its protocol table, once the rounds of a `Redeclare` are
    /// over.
    ///
    /// # Errors
    ///
    /// Where the event would pass the limit.
    pub fn end_redeclare(
        &mut self,
        catalogue: &'a Catalogue,
        table: &'a Table,
    ) -> Result<(), WorldEnd>
        requires { (g : Input) × IsNextList g catalogue.now table.now
            × IsSettled self.old (with_event g Redeclare) Redeclare }
        ensures log { OnOk result ((g : Input) → IsNextList g catalogue.now table.now
            → IsSettled self.old (with_event g Redeclare) Redeclare
            → (more : Log) × Represents self.new (with_event g Redeclare) more) }
        ensures limit { IsErrOf result WorldEnd.Limit → (g : Input)
            → IsNextList g catalogue.now table.now
            → IsSettled self.old (with_event g Redeclare) Redeclare
            → EndsBy (with_event g Redeclare) }
    {
        self.put_in_force(catalogue, table)
    }
}
