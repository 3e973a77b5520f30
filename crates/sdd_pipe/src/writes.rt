//! The greatest processed WRITE of each fragment.
ghost use Rattle.std.specs.Prelude.{◌≡◌, [], OnOk, fold, filter_map};
ghost use Rattle.sdd_wire.specs.Piped.{time_of};
ghost use Rattle.sdd_pipe.specs.Pipe.{raised, greatest};
ghost use Rattle.sdd_pipe.specs.Digest.{changes_of, with_room, with_write, write_in, HasRoom};

use crate::class_pipe::raise_time;
use sdd_base::{Change, FragNo, NoMemory};
use sdd_wire::Msg;
use std::alloc::Global;
use std::collections::BTreeMap;
use std::marker::Model;

/// By fragment the greatest timestamp of a processed WRITE that changes it. A fragment that only
/// unprocessed WRITEs change has an entry without one, so that noting them takes no memory.
#[derive(Drop)]
pub struct Writes {
    times: BTreeMap<u32, Option<u64>>,
}

impl Model for Writes {
    ghost use Rattle.sdd_pipe.specs.Digest.{Writes as Entries};

    ghost Value = { Entries };

    ghost view = { λ w. w.times.entries };
}

impl Writes {
    pub fn new(alloc: Global) -> Writes
        ensures { result ≡ [] }
    {
        Writes {
            times: BTreeMap::new(alloc),
        }
    }

    /// Makes an entry for each fragment that the message changes, where there is none.
    pub fn make_room(&mut self, msg: &Msg) -> Result<(), NoMemory>
        ensures { OnOk result (self.new ≡ fold with_room self.old (changes_of msg.now)) }
    {
        match msg {
            Msg::Write { changes, .. } => make_entries(&mut self.times, changes.as_slice()),
            _ => Ok(()),
        }
    }

    /// Notes a WRITE that is processed, at the fragments that have entries. Takes no memory.
    pub fn note(&mut self, msg: &Msg)
        ensures { self.new ≡ fold (with_write (time_of msg.now)) self.old (changes_of msg.now) }
    {
        match msg {
            Msg::Write { ts, changes, .. } => {
                raise_entries(&mut self.times, ts.0, changes.as_slice());
            }
            _ => (),
        }
    }

    /// The greatest timestamp that was noted for one of the fragments.
    pub fn last(&self, frags: &[FragNo]) -> Option<u64>
        ensures { result ≡ greatest (filter_map (write_in self.now) frags.now) }
    {
        frags
            .iter()
            .filter_map(|frag| self.at(*frag))
            .fold(None, |last, time| raise_time(last, time))
    }

    fn at(&self, frag: FragNo) -> Option<u64>
        ensures { result ≡ write_in self.now frag }
    {
        match self.times.get(&frag.0) {
            None => None,
            Some(time) => *time,
        }
    }
}

fn make_entries(times: &mut BTreeMap<u32, Option<u64>>, changes: &[Change]) -> Result<(), NoMemory>
    ensures { OnOk result (times.new.entries ≡ fold with_room times.old.entries changes.now) }
{
    for change in changes {
        make_entry(times, change)?;
    }
    Ok(())
}

fn make_entry(times: &mut BTreeMap<u32, Option<u64>>, change: &Change) -> Result<(), NoMemory>
    ensures { OnOk result (times.new.entries ≡ with_room times.old.entries change.now) }
{
    let frag = change.frag.0;
    if times.contains_key(&frag) {
        return Ok(());
    }
    times.insert(frag, None)?;
    Ok(())
}

fn raise_entries(times: &mut BTreeMap<u32, Option<u64>>, time: u64, changes: &[Change])
    ensures { times.new.entries ≡ fold (with_write time) times.old.entries changes.now }
{
    for change in changes {
        raise_entry(times, time, change);
    }
}

/// Where there is an entry, inserting takes no memory.
fn raise_entry(times: &mut BTreeMap<u32, Option<u64>>, time: u64, change: &Change)
    ensures { times.new.entries ≡ with_write time times.old.entries change.now }
{
    let frag = change.frag.0;
    let latest = match times.get(&frag) {
        None => return,
        Some(latest) => *latest,
    };
    match times.insert(frag, raise_time(latest, time)) {
        Ok(_) => (),
        Err(_) => (),
    }
}
