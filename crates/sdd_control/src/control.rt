ghost use Rattle.std.specs.Prelude.{◌≡◌, ◌≤◌, [], false, IsTrue, IfOk, OnOk, OnErr};
ghost use Rattle.sdd_control.specs.Control.{live_at, next_note, run_of, with_event, written};
ghost use Rattle.sdd_backups.specs.Standing.{finished, stopped, value};
ghost use Rattle.sdd_backups.specs.Steps.{FitsAct};

use sdd_backups::{Act, Note, State, Val};
use sdd_script::NoMemory;
use std::alloc::Global;
use std::marker::Model;

/// A committer and its backups, with what has happened.
///
/// Contracts see the list of events with their notes, the newest first. Each call takes constant
/// time or time linear in the sites. The events are kept, some ten bytes each.
#[derive(Drop)]
pub struct Control {
    state: State,
    acts: Vec<Act>,
    live: bool,
}

impl Model for Control {
    ghost use Rattle.std.specs.Prelude.{◌≡◌, true};
    ghost use Rattle.sdd_script.specs.All.{Kept};
    ghost use Rattle.sdd_control.specs.Control.{Follows, Run, run_of};

    ghost Value = { Kept Run };

    ghost view = { λ c. record {
      live = c.live;
      value = run_of c.state.backups c.state.writes c.acts.items;
    } };

    ghost invariant = { λ c. c.live ≡ true → Follows c.state c.acts.items };
}

impl Control {
    /// So many backups, from 1 to 8, and so many writes, from 1 to 64, before the first event.
    pub fn new(alloc: Global, backups: u32, writes: u32) -> Result<Control, NoMemory>
        requires some_backups { 1 ≤ backups }
        requires most_backups { backups ≤ 8 }
        requires some_writes { 1 ≤ writes }
        requires most_writes { writes ≤ 64 }
        ensures { IfOk result (λ control. control ≡ live_at (run_of backups writes [])) }
    {
        Ok(Control {
            state: State::new(alloc, backups, writes)?,
            acts: Vec::new(alloc),
            live: true,
        })
    }

    /// Lets an event happen, and gives its note. Costs time linear in the sites.
    pub fn step(&mut self, act: &Act) -> Result<Note, NoMemory>
        requires live { IsTrue self.old.live }
        requires fits { FitsAct self.old.value.backups act.now }
        ensures note { IfOk result (λ note. note ≡ next_note self.old.value act.now) }
        ensures after { OnOk result (self.new ≡ live_at (with_event self.old.value act.now)) }
        ensures err { OnErr result (self.new.live ≡ false) }
    {
        self.live = false;
        let note = self.state.note(act);
        self.state.take(act);
        self.state.add(&note)?;
        self.acts.push(*act)?;
        self.live = true;
        Ok(note)
    }

    /// The value of a site. Takes no memory. Costs time linear in the sites.
    pub fn value(&self, site: u32) -> Val
        requires live { IsTrue self.now.live }
        requires site { site ≤ self.now.value.backups }
        ensures { result ≡ value self.now.value.log site }
    {
        self.state.value(site)
    }

    /// Whether a site has stopped. Takes no memory, and constant time.
    pub fn stopped(&self, site: u32) -> bool
        requires live { IsTrue self.now.live }
        requires site { site ≤ self.now.value.backups }
        ensures { result ≡ stopped self.now.value.log site }
    {
        self.state.has_stopped(site)
    }

    /// Whether a site has finished. Takes no memory, and constant time.
    pub fn finished(&self, site: u32) -> bool
        requires live { IsTrue self.now.live }
        requires site { site ≤ self.now.value.backups }
        ensures { result ≡ finished self.now.value.log site }
    {
        self.state.has_finished(site)
    }

    /// How many of the writes were made, each counted once. Takes no memory, and constant time.
    pub fn written(&self) -> u32
        requires { IsTrue self.now.live }
        ensures { result ≡ written self.now.value }
    {
        self.state.most
    }
}
