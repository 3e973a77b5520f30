ghost use Rattle.std.specs.Prelude.{◌≡◌, ◌≤◌, [], length, not, true, false, IfOk, OnErr, OnOk, MatchOption};
ghost use Rattle.sdd_base.specs.declared.limits.TheConstants.{MAX_TMS, MAX_DMS};
ghost use Rattle.sdd_base.specs.declared.site.Site.{Site};
ghost use Rattle.sdd_net.specs.Mailboxes.{empty_boxes, kept_from, mailbox_at, place_of, IsPlaced, IsSender, Puts, TakesMessage, IsLowest, OnlyAt};

use crate::mailbox::{Mailbox, place_of};
use sdd_base::{MAX_DMS, MAX_TMS, NoMemory, Site};
use std::alloc::Global;
use std::marker::Model;

/// The messages that are kept for modules that are down.
///
/// Contracts see a mailbox for each site, in the order of sites. The messages of one sender stand
/// in the order in which they were put.
#[derive(Drop)]
pub struct Spool<M> {
    tms: u32,
    boxes: Vec<Mailbox<M>>,
}

impl<M> Model for Spool<M> {
    ghost use Rattle.sdd_net.specs.Mailboxes.{Boxes};

    ghost Value = { Boxes M };

    ghost view = { λ s. record { tms = s.tms; boxes = s.boxes.items } };
}

impl<M: Drop> Spool<M> {
    /// Nothing is kept, and all of so many transaction modules and data modules are up.
    pub fn new(alloc: Global, tms: u32, dms: u32) -> Result<Spool<M>, NoMemory>
        requires tms { tms ≤ MAX_TMS }
        requires dms { dms ≤ MAX_DMS }
        ensures { IfOk result (λ spool. spool ≡ empty_boxes tms dms) }
    {
        let mut boxes = Vec::new(alloc);
        for _ in 0..1 + tms as usize + dms as usize {
            boxes.push(Mailbox::new(alloc, tms, dms)?)?;
        }
        Ok(Spool { tms, boxes })
    }

    /// Whether the module is down. Takes no memory, and constant time.
    pub fn is_down(&self, at: Site) -> bool
        requires { IsPlaced self.now at }
        ensures { result ≡ (mailbox_at self.now at).down }
    {
        self.boxes[place_of(self.tms, at)].down
    }

    /// How many messages of a sender are kept for the module. Takes no memory, and constant time.
    pub fn count_kept(&self, at: Site, from: Site) -> usize
        requires placed { IsPlaced self.now at }
        requires sender { IsSender (mailbox_at self.now at) from }
        ensures { result ≡ length (kept_from (mailbox_at self.now at) from) }
    {
        self.boxes[place_of(self.tms, at)].count(from)
    }

    /// The module goes down; false exactly where it is down. Takes no memory.
    pub fn down(&mut self, at: Site) -> bool
        requires { IsPlaced self.old at }
        ensures turned { result ≡ not (mailbox_at self.old at).down }
        ensures mailbox { mailbox_at self.new at ≡ record (mailbox_at self.old at) { down = true } }
        ensures others { OnlyAt self.old self.new at }
    {
        let mailbox = &mut self.boxes[place_of(self.tms, at)];
        let was_up = !mailbox.down;
        mailbox.down = true;
        was_up
    }

    /// The module comes up; false exactly where it isn't down. Takes no memory.
    pub fn up(&mut self, at: Site) -> bool
        requires { IsPlaced self.old at }
        ensures turned { result ≡ (mailbox_at self.old at).down }
        ensures mailbox { mailbox_at self.new at ≡ record (mailbox_at self.old at) { down = false } }
        ensures others { OnlyAt self.old self.new at }
    {
        let mailbox = &mut self.boxes[place_of(self.tms, at)];
        let was_down = mailbox.down;
        mailbox.down = false;
        was_down
    }

    /// Keeps a message for a module, after those of its sender. Out of memory the spool stays as it
    /// was.
    pub fn put(&mut self, at: Site, from: Site, msg: M) -> Result<(), NoMemory>
        requires placed { IsPlaced self.old at }
        requires down { (mailbox_at self.old at).down ≡ true }
        requires sender { IsSender (mailbox_at self.old at) from }
        ensures mailbox { OnOk result (Puts (mailbox_at self.old at) (mailbox_at self.new at) from msg) }
        ensures others { OnOk result (OnlyAt self.old self.new at) }
        ensures same { OnErr result (self.new ≡ self.old) }
    {
        let mailbox = &mut self.boxes[place_of(self.tms, at)];
        mailbox.put(from, msg)
    }

    /// Takes the earliest message of the lowest sender of whom one is kept for the module; None
    /// exactly where none is. Takes no memory; costs constant time for each sender.
    pub fn take(&mut self, at: Site) -> Option<(Site, M)>
        requires placed { IsPlaced self.old at }
        requires up { (mailbox_at self.old at).down ≡ false }
        ensures message { MatchOption result
            ((mailbox_at self.new at ≡ mailbox_at self.old at)
            × ((x : Site) → kept_from (mailbox_at self.old at) x ≡ []))
            (λ (from, msg). TakesMessage (mailbox_at self.old at) (mailbox_at self.new at) from msg
            × IsLowest (mailbox_at self.old at) from) }
        ensures others { OnlyAt self.old self.new at }
    {
        let mailbox = &mut self.boxes[place_of(self.tms, at)];
        mailbox.take()
    }
}
