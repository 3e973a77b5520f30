ghost use Rattle.std.specs.Prelude.{◌≡◌, ◌<◌, ◌≤◌, All, ◌++◌, [], ◌∷◌, true, ℕ, List, Some, IfOk, OnOk, IsErrOf};
ghost use Rattle.sdd_sites.specs.needs.All.{Deliver, Down, Event, Input, IsFirst, IsLinkOf, IsSiteOf, Log, Lose, Msg, Repeat, Resend, Settle, Site, Submit, TakesAway, Tick, U, Up, from_one, kept_from, mailbox_at, takes_part as takes_part_in};
ghost use Rattle.sdd_world.specs.declared.world.World.{World};
ghost use Rattle.sdd_world.specs.Following.{MaySend, Followed, IsPast};
ghost use Rattle.sdd_world.specs.Represents.{position_of, Arrives, Before, EndsBy, HandedOn, Handing, Happened, Keeping, Marked, Resumed, Resuming, Rising, Risen, Spooled};

use sdd_base::{Event, Listed, NoMemory, Site, TmNo, TxnNo};
use sdd_catalog::Catalogue;
use sdd_history::{History, Rec};
use sdd_lang::{Txn, class_for};
use sdd_net::{Delivered, Parcels, Spool};
use sdd_sites::{Mail, Sites, WorldEnd, home_in, record_all, send_all};
use sdd_wire::{Msg, Outcome};
use std::collections::VecDeque;

/// The modules of all sites, the network between them, the messages that are kept for modules
/// that are down, and what was given and recorded.
#[derive(Drop)]
pub struct World<'a> {
    /// The catalogue with the classes of all lists that are ever put in force.
    pub(crate) whole: &'a Catalogue,
    /// The catalogue with the classes in force.
    pub(crate) catalogue: &'a Catalogue,
    pub(crate) txns: Listed<Txn>,
    pub(crate) given: Vec<Event>,
    pub(crate) history: History,
    pub(crate) marks: u32,
    pub(crate) sites: Sites<'a>,
    pub(crate) net: Mail,
    pub(crate) spool: Spool<Msg>,
}

/// Whether the site takes part, and doesn't wait for its module to come up.
fn takes_part(spool: &Spool<Msg>, at: Site) -> bool
    requires { (g : Input) × (log : Log) × IsSiteOf g at × Spooled g log spool.now U }
    ensures { (g : Input) (log : Log) → IsSiteOf g at → Spooled g log spool.now U
        → result ≡ takes_part_in at log }
{
    match at {
        Site::U => true,
        _ => !spool.is_down(at),
    }
}

impl<'a> World<'a> {
    /// Records and sends what a module gave.
    fn follow(&mut self, at: Site, outcome: Outcome) -> Result<(), WorldEnd>
        requires sends { MaySend self.old at outcome }
        requires order { All (λ earlier. earlier.0 ≤ self.old.marks) self.old.history }
        ensures ok { IfOk result (λ _. Followed self.old self.new at outcome) }
        ensures limit { IsErrOf result WorldEnd.Limit → IsPast self.old at outcome }
    {
        let Outcome { out, recs } = outcome;
        record_all(&mut self.history, self.marks, recs)?;
        send_all(&mut self.net, at, out)
    }

    /// Hands a message to its site, of those that are to be handed to it the first.
    fn hand(&mut self, from: Site, to: Site, msg: Msg) -> Result<(), WorldEnd>
        requires { (g : Input) × (log : Log) × (kept : Site → List Msg) × (rest : List Msg)
            × Handing self.old g log to kept × IsFirst g kept from to msg rest }
        ensures ok { IfOk result (λ _. (g : Input) (log : Log) (kept less : Site → List Msg)
            (rest : List Msg) → Handing self.old g log to kept
            → IsFirst g kept from to msg rest → TakesAway kept less from rest
            → HandedOn self.new g to less (position_of g log) self.old.spool) }
        ensures limit { IsErrOf result WorldEnd.Limit → (g : Input) (log : Log)
            (kept : Site → List Msg) (rest : List Msg) → Handing self.old g log to kept
            → IsFirst g kept from to msg rest → EndsBy g }
    {
        let outcome = self.sites.take(to, from, msg)?;
        self.follow(to, outcome)
    }

    /// Hands messages of one site to another, in order.
    fn hand_all(&mut self, from: Site, to: Site, messages: Parcels<Msg>) -> Result<(), WorldEnd>
        requires { (g : Input) × (log : Log) × IsLinkOf g from to
            × Handing self.old g log to (from_one from messages) }
        ensures ok { IfOk result (λ _. (g : Input) (log : Log) → IsLinkOf g from to
            → Handing self.old g log to (from_one from messages)
            → HandedOn self.new g to (from_one from []) (position_of g log) self.old.spool) }
        ensures limit { IsErrOf result WorldEnd.Limit → (g : Input) (log : Log) → IsLinkOf g from to
            → Handing self.old g log to (from_one from messages) → EndsBy g }
    {
        let mut queue = VecDeque::from_vec(messages.into_vec());
        while let Some(msg) = queue.pop_front() {
            self.hand(from, to, msg)?;
        }
        Ok(())
    }

    /// Records that the event found nothing to do.
    fn record_nothing(&mut self) -> Result<(), WorldEnd>
        requires { All (λ earlier. earlier.0 ≤ self.old.marks) self.old.history }
        ensures same { OnOk result (self.new ≡ record self.old { history = self.new.history }) }
        ensures history { OnOk result (
            self.new.history ≡ self.old.history ++ (self.old.marks, Rec.Nothing) ∷ []) }
        ensures limit { IsErrOf result WorldEnd.Limit → ⊥ }
    {
        self.history.push(self.marks, Rec::Nothing)?;
        Ok(())
    }

    fn lose(&mut self, from: Site, to: Site, place: u32) -> Result<(), WorldEnd>
        requires { (g : Input) × (log : Log) × Marked self.old g log (Lose from to place) }
        ensures ok { IfOk result (λ _. (g : Input) (log : Log)
            → Marked self.old g log (Lose from to place) → Happened self.new g log) }
        ensures limit { IsErrOf result WorldEnd.Limit → ⊥ }
    {
        if self.net.lose(from, to, place) {
            return Ok(());
        }
        self.record_nothing()
    }

    fn repeat(&mut self, from: Site, to: Site, place: u32) -> Result<(), WorldEnd>
        requires { (g : Input) × (log : Log) × Marked self.old g log (Repeat from to place) }
        ensures ok { IfOk result (λ _. (g : Input) (log : Log)
            → Marked self.old g log (Repeat from to place) → Happened self.new g log) }
        ensures limit { IsErrOf result WorldEnd.Limit → ⊥ }
    {
        if self.net.repeat(from, to, place)? {
            return Ok(());
        }
        self.record_nothing()
    }

    fn resend(&mut self, from: Site, to: Site) -> Result<(), WorldEnd>
        requires { (g : Input) × (log : Log) × Marked self.old g log (Resend from to) }
        ensures ok { IfOk result (λ _. (g : Input) (log : Log)
            → Marked self.old g log (Resend from to) → Happened self.new g log) }
        ensures limit { IsErrOf result WorldEnd.Limit → ⊥ }
    {
        if self.net.resend(from, to)? {
            return Ok(());
        }
        self.record_nothing()
    }

    /// Keeps messages of one site for a module that is down.
    fn keep_all(&mut self, from: Site, at: Site, messages: Parcels<Msg>) -> Result<(), NoMemory>
        requires { (g : Input) × (log : Log) × Keeping g log self.old.spool from at messages }
        ensures same { OnOk result (self.new ≡ record self.old { spool = self.new.spool }) }
        ensures kept { OnOk result ((g : Input) (log : Log)
            → Keeping g log self.old.spool from at messages
            → Keeping g log self.new.spool from at []) }
    {
        let mut queue = VecDeque::from_vec(messages.into_vec());
        while let Some(msg) = queue.pop_front() {
            self.spool.put(at, from, msg)?;
        }
        Ok(())
    }

    /// Messages come to a site: they are handed over, or kept.
    fn receive(&mut self, from: Site, to: Site, messages: Parcels<Msg>) -> Result<(), WorldEnd>
        requires { (g : Input) × (log : Log) × (w : World) × (place : ℕ)
            × Arrives w self.old g log from to place messages }
        ensures ok { IfOk result (λ _. (g : Input) (log : Log) (w : World) (place : ℕ)
            → Arrives w self.old g log from to place messages
            → Happened self.new g log) }
        ensures limit { IsErrOf result WorldEnd.Limit → (g : Input) (log : Log) (w : World)
            (place : ℕ) → Arrives w self.old g log from to place messages → EndsBy g }
    {
        if takes_part(&self.spool, to) {
            return self.hand_all(from, to, messages);
        }
        Ok(self.keep_all(from, to, messages)?)
    }

    fn deliver(&mut self, from: Site, to: Site, place: u32) -> Result<(), WorldEnd>
        requires { (g : Input) × (log : Log) × Marked self.old g log (Deliver from to place) }
        ensures ok { IfOk result (λ _. (g : Input) (log : Log)
            → Marked self.old g log (Deliver from to place) → Happened self.new g log) }
        ensures limit { IsErrOf result WorldEnd.Limit → (g : Input) (log : Log)
            → Marked self.old g log (Deliver from to place) → EndsBy g }
    {
        match self.net.deliver(from, to, place)? {
            Delivered::Nothing => self.record_nothing(),
            Delivered::Acked => Ok(()),
            Delivered::Messages(messages) => self.receive(from, to, messages),
        }
    }

    fn go_down(&mut self, at: Site) -> Result<(), WorldEnd>
        requires { (g : Input) × (log : Log) × Marked self.old g log (Down at) }
        ensures ok { IfOk result (λ _. (g : Input) (log : Log)
            → Marked self.old g log (Down at) → Happened self.new g log) }
        ensures limit { IsErrOf result WorldEnd.Limit → ⊥ }
    {
        if self.spool.down(at) {
            return Ok(());
        }
        self.record_nothing()
    }

    /// Hands over what is kept for a module that came up: one message, with all that it makes due,
    /// after the other.
    fn hand_kept(&mut self, at: Site) -> Result<(), WorldEnd>
        requires { (g : Input) × (log : Log) × Handing self.old g log at
            (kept_from (mailbox_at self.old.spool at)) × Rising g self.old.spool at }
        ensures ok { IfOk result (λ _. (g : Input) (log : Log) → Handing self.old g log at
            (kept_from (mailbox_at self.old.spool at)) → Rising g self.old.spool at
            → Risen self.new g log at) }
        ensures limit { IsErrOf result WorldEnd.Limit → (g : Input) (log : Log)
            → Handing self.old g log at (kept_from (mailbox_at self.old.spool at))
            → Rising g self.old.spool at → EndsBy g }
    {
        while let Some((from, msg)) = self.spool.take(at) {
            self.hand(from, at, msg)?;
        }
        Ok(())
    }

    /// A module that came up does what is due, before what was kept for it is handed over. At a
    /// data module nothing is: it acts on messages alone.
    fn resume(&mut self, at: Site) -> Result<(), WorldEnd>
        requires { (g : Input) × (log : Log) × Resuming self.old g log at }
        ensures ok { IfOk result (λ _. (g : Input) (log : Log) → Resuming self.old g log at
            → Resumed self.new g log at) }
        ensures limit { IsErrOf result WorldEnd.Limit → (g : Input) (log : Log)
            → Resuming self.old g log at → EndsBy g }
    {
        let Site::T(tm) = at else {
            return Ok(());
        };
        let outcome = self.sites.resume(tm)?;
        self.follow(at, outcome)
    }

    fn come_up(&mut self, at: Site) -> Result<(), WorldEnd>
        requires { (g : Input) × (log : Log) × Marked self.old g log (Up at) }
        ensures ok { IfOk result (λ _. (g : Input) (log : Log) → Marked self.old g log (Up at)
            → Happened self.new g log) }
        ensures limit { IsErrOf result WorldEnd.Limit → (g : Input) (log : Log)
            → Marked self.old g log (Up at) → EndsBy g }
    {
        if !self.spool.up(at) {
            return self.record_nothing();
        }
        self.resume(at)?;
        self.hand_kept(at)
    }

    fn submit(&mut self, number: TxnNo) -> Result<(), WorldEnd>
        requires { (g : Input) × (log : Log) × Marked self.old g log (Submit number) }
        ensures ok { IfOk result (λ _. (g : Input) (log : Log)
            → Marked self.old g log (Submit number) → Happened self.new g log) }
        ensures limit { IsErrOf result WorldEnd.Limit → (g : Input) (log : Log)
            → Marked self.old g log (Submit number) → EndsBy g }
    {
        let txn = &self.txns.as_slice()[number.0 as usize - 1];
        let class = class_for(self.catalogue, txn);
        let at = home_in(txn, class);
        if takes_part(&self.spool, at) {
            let outcome = self.sites.submit(at, class, number, txn)?;
            return self.follow(at, outcome);
        }
        let outcome = self.sites.queue(at, class, number, txn)?;
        self.follow(at, outcome)
    }

    fn tick(&mut self, tm: TmNo, n: u32)
        requires { (g : Input) × (log : Log) × Marked self.old g log (Tick tm n) }
        ensures { (g : Input) (log : Log) → Marked self.old g log (Tick tm n) → Happened self.new g log }
    {
        self.sites.tick(tm, n);
    }

    /// Carries out one event, which is the next.
    pub(crate) fn apply_event(&mut self, event: &Event) -> Result<(), WorldEnd>
        requires { (g : Input) × (log : Log) × Before self.old g log event.now }
        ensures ok { IfOk result (λ _. (g : Input) (log : Log) → Before self.old g log event.now
            → Happened self.new g log) }
        ensures limit { IsErrOf result WorldEnd.Limit → (g : Input) (log : Log)
            → Before self.old g log event.now → EndsBy g }
    {
        if self.marks == u32::MAX {
            return Err(WorldEnd::Limit);
        }
        self.marks += 1;
        match event {
            Event::Submit(number) => self.submit(*number),
            Event::Deliver { from, to, place } => self.deliver(*from, *to, *place),
            Event::Lose { from, to, place } => self.lose(*from, *to, *place),
            Event::Repeat { from, to, place } => self.repeat(*from, *to, *place),
            Event::Resend { from, to } => self.resend(*from, *to),
            Event::Tick { tm, n } => {
                self.tick(*tm, *n);
                Ok(())
            }
            Event::Down(at) => self.go_down(*at),
            Event::Up(at) => self.come_up(*at),
            Event::Settle | Event::Redeclare => Ok(()),
        }
    }
}
