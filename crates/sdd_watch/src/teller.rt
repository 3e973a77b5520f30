//! The lines of events, put one after the other.
ghost use Rattle.std.specs.Prelude.{◌≡◌, ◌++◌, OnOk};
ghost use Rattle.sdd_inside.specs.Lines.{line};
ghost use Rattle.sdd_moments.specs.obligations.All.{Input, Log};
ghost use Rattle.sdd_watch.specs.ScheduleSoFar.{Foresees, Tells};
ghost use Rattle.sdd_watch.specs.Text.{change};
ghost use Rattle.sdd_watch.specs.Watching.{IsToTell, Watches};

use crate::foreseen::{Foreseen, find_outcome, foresee};
use crate::watch::Watch;
use sdd_inside::put_line;
use sdd_moments::{Catalogue, Event, NoMemory, Observer, Turn, World};
use std::mem;

/// What is reported so far, and what was where when that was over.
#[derive(Drop)]
pub(crate) struct Teller<'c> {
    pub(crate) catalogue: &'c Catalogue,
    pub(crate) watch: Watch,
    pub(crate) text: Vec<u8>,
    /// What the event that is next is about to find.
    pub(crate) finds: Foreseen,
}

impl<'c> Teller<'c> {
    /// Puts the line of an event that is carried out.
    pub(crate) fn tell(
        &mut self,
        world: &World<'_>,
        turn: Turn,
        foreseen: Foreseen,
    ) -> Result<(), NoMemory>
        requires { (g : Input) × (old : Log) × (new : Log)
            × IsToTell g old new world.now self.old.watch turn foreseen }
        ensures catalogue { self.new.catalogue ≡ self.old.catalogue }
        ensures text { OnOk result ((g : Input) (old new : Log)
            → IsToTell g old new world.now self.old.watch turn foreseen
            → self.old.catalogue.now ≡ g.catalogue
            → self.new.text.items
            ≡ self.old.text.items ++ line g.catalogue g.txns (change g old new)) }
        ensures watch { OnOk result ((g : Input) (old new : Log)
            → IsToTell g old new world.now self.old.watch turn foreseen
            → Watches g new self.new.watch) }
    {
        let found = find_outcome(world, &turn.event, foreseen);
        let delta = self.watch.look(world, turn, found)?;
        put_line(&mut self.text, self.catalogue, world.transactions(), &delta)
    }
}

impl<'c> Observer for Teller<'c> {
    ghost follows = { λ teller g log. Tells g log teller };

    ghost awaits = { λ teller g log e. Foresees g log e teller };

    fn law_given(&self) {}

    fn law_round(&self) {}

    fn look_before(&mut self, world: &World<'_>, event: &Event) {
        let finds = foresee(world, event);
        self.finds = finds;
    }

    fn look_after(&mut self, world: &World<'_>, turn: Turn) -> Result<(), NoMemory> {
        let finds = mem::replace(&mut self.finds, Foreseen::Something);
        self.tell(world, turn, finds)?;
        Ok(())
    }
}
