ghost use Rattle.std.specs.Prelude.{◌≡◌, cond, IfOk, OnOk, None, Some};
ghost use Rattle.sdd_module.specs.All.{with_due_act};
ghost use Rattle.sdd_rules.specs.All.{after_send, rejects, send_due};
ghost use Rattle.sdd_running.specs.Running.{AreAwaitedFrom, handed_by, step_by};
ghost use Rattle.sdd_exchange.specs.Room.{CarriesFew, HasRoom};
ghost use Rattle.sdd_rules.specs.attempt.Standings.{underway};

use crate::step::LineStep;
use sdd_exchange::Exchange;
use sdd_module::{ClassNo, Draft, Msg, NoMemory, Site, Ts};
use sdd_rules::Standing;
use std::marker::Model;

/// An attempt that is under way.
#[derive(Drop)]
pub struct Running {
    pub ts: Ts,
    pub exchange: Exchange,
}

impl Model for Running {
    ghost use Rattle.sdd_running.specs.Running as lines;

    ghost Value = { lines.Running };

    ghost view = { λ r. record { ts = r.ts.0; exchange = r.exchange } };
}

impl Running {
    /// What it does next by itself.
    pub fn step(&self) -> Option<LineStep>
        ensures { result ≡ step_by self.now.exchange.to_send self.now.exchange.phase }
    {
        if self.exchange.has_to_send() {
            return Some(LineStep::Sends);
        }
        if self.exchange.is_over() {
            return Some(LineStep::Commits);
        }
        None
    }

    /// That it is under way.
    pub fn standing(&self, class: ClassNo) -> Standing
        ensures { result
            ≡ underway class.0 self.now.ts self.now.exchange }
    {
        let site = match self.exchange.lowest_missing() {
            None => Site::U,
            Some(dm) => Site::D(dm),
        };
        Standing::Underway(class, Some(self.ts), site)
    }

    /// Sends the next message.
    pub fn send(&mut self, draft: &mut Draft) -> Result<(), NoMemory>
        ensures exchange { self.new ≡ record self.old { exchange = after_send self.old.exchange } }
        ensures draft { OnOk result (
            draft.new ≡ with_due_act (send_due self.old.exchange) draft.old) }
    {
        match self.exchange.next_send() {
            None => Ok(()),
            Some((dm, msg)) => draft.send(Site::D(dm), msg),
        }
    }

    /// Takes a message of the attempt's class, and answers whether the attempt goes on: it ends by a
    /// REJECT of it. Moves nothing but the message.
    pub fn hand(&mut self, class: ClassNo, from: Site, msg: Msg) -> Result<bool, NoMemory>
        requires room { HasRoom self.old.exchange }
        requires awaited { AreAwaitedFrom class.0 from msg self.old }
        ensures running { IfOk result (λ goes_on.
            cond goes_on (Some self.new) None ≡ handed_by class.0 from msg self.old) }
        ensures few { CarriesFew msg }
    {
        carries_few(&msg);
        match from {
            Site::D(dm) => {
                if is_rejected(&msg, self.ts, class) {
                    return Ok(false);
                }
                self.exchange.hand(self.ts, class, dm, msg)?;
                Ok(true)
            }
            _ => Ok(true),
        }
    }
}

/// Whether a message rejects the attempt of the class with this timestamp.
fn is_rejected(msg: &Msg, ts: Ts, class: ClassNo) -> bool
    ensures { result ≡ rejects msg.now ts.0 class.0 }
{
    match msg {
        Msg::Reject {
            ts: t,
            class: k,
            ..
        } => *t == ts && *k == class,
        _ => false,
    }
}

/// A list of values is no longer than memory.
fn carries_few(msg: &Msg)
    ensures { CarriesFew msg.now }
{
    match msg {
        Msg::Values { values, .. } => {
            let _length = values.as_slice().len();
        }
        _ => {}
    }
}
