ghost use Rattle.std.specs.Prelude.{◌≡◌, ◌==◌, ◌≤◌, ◌<◌, ◌++◌, ◌∷◌, ◌+◌, ◌&&◌, [], not, cond, length, ℕ, OnOk};
ghost use Rattle.sdd_backups.specs.Links.{gone_below, messages_at, put};
ghost use Rattle.sdd_backups.specs.State.{Adds, IsSized, NoteFits, TakesAct};
ghost use Rattle.sdd_backups.specs.Steps.{FitsAct};
ghost use Rattle.sdd_backups.specs.declared.message.Message.TheVariants.{Gone as GONE};
ghost use Rattle.sdd_backups.specs.declared.note.Note.TheVariants.{Tell as Telling, Write as Writing, Finish as Finishing};
ghost use Rattle.sdd_backups.specs.declared.note.Note.TheVariants.{Gone as Going, Ok as Hearing, Value as Taking, Stop as Stopping};
ghost use Rattle.sdd_backups.specs.declared.value.Val.{Val as Values};

use crate::act::Act;
use crate::links::Links;
use crate::message::Message;
use crate::note::Note;
use crate::state::{State, pair};
use crate::value::Val;
use sdd_base::NoMemory;

/// Says to another site that this one has stopped; a site says it not to itself.
fn say_gone(links: &mut Links, site: u32, other: u32) -> Result<(), NoMemory>
    requires sized { length links.old ≡ 81 }
    requires site { site ≤ 8 }
    requires other { other ≤ 8 }
    ensures sized { OnOk result (length links.new ≡ 81) }
    ensures gone { OnOk result ((i j : ℕ) → j ≤ 8 →
        messages_at links.new i j
        ≡ messages_at links.old i j
        ++ cond (((site == i) && (other == j)) && not (i == j)) (GONE ∷ []) []) }
{
    if site == other {
        return Ok(());
    }
    links.put(pair(site, other), Message::Gone)
}

/// Says to all other sites that this one has stopped.
fn say_gone_to_all(links: &mut Links, backups: u32, site: u32) -> Result<(), NoMemory>
    requires sized { length links.old ≡ 81 }
    requires backups { backups ≤ 8 }
    requires site { site ≤ backups }
    ensures sized { OnOk result (length links.new ≡ 81) }
    ensures gone { OnOk result ((i j : ℕ) → j ≤ backups →
        messages_at links.new i j ≡ messages_at links.old i j ++ put (Stopping site) i j) }
{
    'others: for other in 0..backups + 1 {
        say_gone(links, site, other)?;
    }
    Ok(())
}

impl State {
    /// Takes the message that an event delivers.
    pub fn take(&mut self, act: &Act)
        requires sized { IsSized self.old }
        requires fits { FitsAct self.old.backups act.now }
        ensures { TakesAct self.old self.new act.now }
    {
        match *act {
            Act::Deliver(from, to) => self.links.take(pair(from, to)),
            _ => {}
        }
    }

    fn tell(&mut self, from: u32, to: u32, val: Val) -> Result<(), NoMemory>
        requires sized { IsSized self.old }
        requires from { from ≤ self.old.backups }
        requires to { to ≤ self.old.backups }
        ensures { OnOk result (Adds self.old self.new (Telling from to val)) }
    {
        let at = pair(from, to);
        self.told.put(at, true);
        self.links.put(at, Message::Value(val))
    }

    fn write(&mut self, site: u32, number: u32)
        requires sized { IsSized self.old }
        requires site { site ≤ self.old.backups }
        ensures { Adds self.old self.new (Writing site number) }
    {
        self.numbers.put(site, number);
        self.most = self.most.max(number);
    }

    /// Whatever the site's value is.
    fn finish(&mut self, site: u32)
        requires sized { IsSized self.old }
        requires site { site ≤ self.old.backups }
        ensures { (val : Values) → Adds self.old self.new (Finishing site val) }
    {
        self.finished.put(site, true);
    }

    fn learn(&mut self, site: u32, other: u32)
        requires sized { IsSized self.old }
        requires site { site ≤ self.old.backups }
        requires other { other ≤ self.old.backups }
        ensures { Adds self.old self.new (Going site other) }
    {
        self.known.put(pair(site, other), true);
    }

    fn hear(&mut self, site: u32, other: u32)
        requires sized { IsSized self.old }
        requires site { site ≤ self.old.backups }
        requires other { other ≤ self.old.backups }
        ensures { Adds self.old self.new (Hearing site other) }
    {
        self.heard.put(pair(site, other), true);
    }

    fn take_value(&mut self, site: u32, from: u32, val: Val) -> Result<(), NoMemory>
        requires sized { IsSized self.old }
        requires site { site ≤ self.old.backups }
        requires from { from ≤ self.old.backups }
        ensures { OnOk result (Adds self.old self.new (Taking site from val)) }
    {
        self.values.put(site, Some((from, val)));
        self.links.put(pair(site, from), Message::Ok)
    }

    fn stop(&mut self, site: u32) -> Result<(), NoMemory>
        requires sized { IsSized self.old }
        requires site { site ≤ self.old.backups }
        ensures { OnOk result (Adds self.old self.new (Stopping site)) }
    {
        self.stopped.put(site, true);
        say_gone_to_all(&mut self.links, self.backups, site)
    }

    /// Adds what a note says. Costs constant time, and time linear in the sites where one stops.
    pub fn add(&mut self, note: &Note) -> Result<(), NoMemory>
        requires sized { IsSized self.old }
        requires fits { NoteFits self.old.backups note.now }
        ensures { OnOk result (Adds self.old self.new note.now) }
    {
        match *note {
            Note::Tell(from, to, val) => self.tell(from, to, val)?,
            Note::Write(site, number) => self.write(site, number),
            Note::Finish(site, _) => self.finish(site),
            Note::Gone(site, other) => self.learn(site, other),
            Note::Ok(site, other) => self.hear(site, other),
            Note::Value { at, from, val } => self.take_value(at, from, val)?,
            Note::Stop(site) => self.stop(site)?,
            Note::Nothing | Note::Dropped | Note::Ignored(_) => {}
        }
        Ok(())
    }
}
