//! The pipe of one class.
ghost use Rattle.std.specs.Prelude.{◌≡◌, length, OnOk};
ghost use Rattle.std.specs.Option.{option_copied};
ghost use Rattle.sdd_base.specs.Words.{head_of};
ghost use Rattle.sdd_wire.specs.Piped.{time_of};
ghost use Rattle.sdd_pipe.specs.Pipe.{raised};
ghost use Rattle.sdd_pipe.specs.Digest.{empty_digest, put_digest, take_digest, has_passed, passed_to, is_by, last_in};

use crate::writes::Writes;
use sdd_base::{FragNo, NoMemory, Ts};
use sdd_wire::Msg;
use std::alloc::Global;
use std::collections::VecDeque;
use std::marker::Model;

/// The unprocessed messages of a class, and what is kept of the processed ones.
#[derive(Drop)]
pub struct ClassPipe {
    unprocessed: VecDeque<Msg>,
    latest: Option<u64>,
    writes: Writes,
}

impl Model for ClassPipe {
    ghost use Rattle.sdd_pipe.specs.Digest.{Digest};

    ghost Value = { Digest };

    ghost view = { λ p. record {
      unprocessed = p.unprocessed.items;
      latest = p.latest;
      writes = p.writes;
    } };
}

impl ClassPipe {
    pub fn new(alloc: Global) -> ClassPipe
        ensures { result ≡ empty_digest }
    {
        ClassPipe {
            unprocessed: VecDeque::new(alloc),
            latest: None,
            writes: Writes::new(alloc),
        }
    }

    pub fn put(&mut self, msg: Msg) -> Result<(), NoMemory>
        ensures { OnOk result (self.new ≡ put_digest msg self.old) }
    {
        self.writes.make_room(&msg)?;
        self.unprocessed.push_back(msg)?;
        Ok(())
    }

    pub fn head(&self) -> Option<&Msg>
        ensures { option_copied result ≡ head_of self.now.unprocessed }
    {
        self.unprocessed.front()
    }

    /// How many messages aren't processed.
    pub fn len(&self) -> usize
        ensures { result ≡ length self.now.unprocessed }
    {
        self.unprocessed.len()
    }

    /// The greatest time that the class has passed.
    pub fn passed_to(&self) -> Option<u64>
        ensures { result ≡ passed_to self.now }
    {
        match self.unprocessed.front() {
            Some(msg) => Some(time_of(msg)),
            None => self.latest,
        }
    }

    pub fn has_passed(&self, t: Ts) -> bool
        ensures { result ≡ has_passed self.now t.0 }
    {
        match self.unprocessed.front() {
            Some(msg) => t.0 <= time_of(msg),
            None => is_by(t.0, self.latest),
        }
    }

    pub fn last_write(&self, frags: &[FragNo]) -> Option<u64>
        ensures { result ≡ last_in frags.now self.now }
    {
        self.writes.last(frags)
    }

    pub fn take(&mut self) -> Option<Msg>
        ensures head { result ≡ head_of self.old.unprocessed }
        ensures pipe { self.new ≡ take_digest self.old }
    {
        match self.unprocessed.pop_front() {
            None => None,
            Some(msg) => {
                let time = time_of(&msg);
                self.latest = raise_time(self.latest, time);
                self.writes.note(&msg);
                Some(msg)
            }
        }
    }
}

fn time_of(msg: &Msg) -> u64
    ensures { result ≡ time_of msg.now }
{
    match msg {
        Msg::Read { ts, .. } => ts.0,
        Msg::Write { ts, .. } => ts.0,
        Msg::Null { time, .. } => time.0,
        _ => 0,
    }
}

/// The later of a time, where there is one, and another.
pub fn raise_time(latest: Option<u64>, time: u64) -> Option<u64>
    ensures { result ≡ raised latest time }
{
    match latest {
        None => Some(time),
        Some(last) => Some(last.max(time)),
    }
}

fn is_by(t: u64, latest: Option<u64>) -> bool
    ensures { result ≡ is_by t latest }
{
    match latest {
        None => false,
        Some(last) => t <= last,
    }
}
